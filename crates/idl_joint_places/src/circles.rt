//! The second rule: no entity, constant or item leads back to itself.
ghost use Rattle.std.specs.List.{AllByRecursion, filter_map, flat_map};
ghost use Rattle.std.specs.Option.{option_to_list};
ghost use Rattle.std.specs.Prelude.{◌≡◌, ◌++◌, ◌∷◌, [], IfOk, IsTrue, length, List, map, OnOk, option_map};
ghost use Rattle.idl_joint_places.specs.Circles.{AddsNodes, FindsLeast, IsRanked, LeadsAmong, entity_circle, node_there, nodes_of, numbered, value_circle, value_places_in};
ghost use Rattle.idl_meaning_model.specs.Declarations.{all_valued, entities_declared};
ghost use Rattle.idl_meaning_model.specs.FromFiles.{are_apart};
ghost use Rattle.idl_joint_places.specs.Ranks.{place_ranked};
ghost use Rattle.idl_model.specs.Places as plain;
ghost use Rattle.idl_model.specs.Places.{IsLeast};
ghost use Rattle.idl_names.specs.Collected.{HasNumbers, declared_of};
ghost use Rattle.idl_names.specs.Paths.{Parts};
ghost use Rattle.idl_places.specs.Places.{AddsPlaces, places_of};
ghost use Rattle.idl_rules_model.specs.Circles.{on_circles};
ghost use Rattle.idl_trees.specs.Members.{constant_of, item_of};
ghost use Rattle.idl_trees.specs.Names.{place_of};
ghost use Rattle.idl_trees.specs.Trees.{declaration_of};
ghost use Rattle.registry_rules.specs.Graphs.{rows_of};
ghost use Rattle.uno_entities.specs.Entities.{entities_of};
ghost use Rattle.uno_model.specs.Registry.{IsRising};

use crate::found::{is_forward, place_there};
use crate::ranks::{place_ranked, rank_of};
use circle_ranks::{Node, least_on_circle};
use circle_search::{Graph, has_no_circle};
use idl_names::{Declared, Paths};
use idl_places::{add_place, is_before};
use idl_trees::{Constant, Declaration, Id, Item, Place};
use registry_rules::graph_of_places;
use std::alloc::Global;
use uno_base::NoMemory;
use uno_entities::Entity;

/// The least place of a declaration, a constant or an item that leads back to itself. Constants and items lead as in the graph, each by where
/// it stands among all of them.
pub fn least_on_circles(
    alloc: Global,
    paths: &Paths<'_>,
    all: &[Declared<'_>],
    entities: &[Entity],
    values: &Graph,
) -> Result<Option<Place>, NoMemory>
    requires rising { IsRising (entities_of entities.now) }
    requires numbers { AllByRecursion (HasNumbers paths.now) all.now }
    requires apart { IsTrue (are_apart (map (λ v. v.name.place) (all_valued (map (declared_of paths.now) all.now)))) }
    requires values { LeadsAmong (all_valued (map (declared_of paths.now) all.now)) values.now }
    ensures { IfOk result (FindsLeast (flat_map (on_circles (map (declared_of paths.now) all.now) (entities_of entities.now)) (entities_declared (map (declared_of paths.now) all.now)))) }
{
    let entity = entity_on_circle(alloc, paths, all, entities)?;
    let value = value_on_circle(alloc, all, values)?;
    Ok(earlier(entity, value))
}

fn earlier(first: Option<Place>, second: Option<Place>) -> Option<Place>
    ensures { (ps qs : List plain.Place) → FindsLeast ps first → FindsLeast qs second → FindsLeast (ps ++ qs) result }
{
    let Some(place) = first else {
        return second;
    };
    Some(earlier_of(place, second))
}

fn earlier_of(place: Place, second: Option<Place>) -> Place
    ensures { (ps qs : List plain.Place) → IsLeast (place_of place) ps → FindsLeast qs second → IsLeast (place_of result) (ps ++ qs) }
{
    let Some(other) = second else {
        return place;
    };
    if is_before(other, place) {
        return other;
    }
    place
}

// ---- entities

/// Where no entity is on a circle, no declaration is sought.
fn entity_on_circle(
    alloc: Global,
    paths: &Paths<'_>,
    all: &[Declared<'_>],
    entities: &[Entity],
) -> Result<Option<Place>, NoMemory>
    requires rising { IsRising (entities_of entities.now) }
    requires numbers { AllByRecursion (HasNumbers paths.now) all.now }
    ensures { IfOk result (FindsLeast (flat_map (entity_circle (entities_of entities.now)) (map (declared_of paths.now) all.now))) }
{
    let graph = graph_of_places(alloc, entities)?;
    let free = has_no_circle(alloc, &graph)?;
    if free {
        return Ok(None);
    }
    least_entity(alloc, paths, all, entities, &graph)
}

/// The least place of a declaration whose entity is on a circle of the graph, which has the entities as its nodes.
fn least_entity(
    alloc: Global,
    paths: &Paths<'_>,
    all: &[Declared<'_>],
    entities: &[Entity],
    graph: &Graph,
) -> Result<Option<Place>, NoMemory>
    requires rising { IsRising (entities_of entities.now) }
    requires numbers { AllByRecursion (HasNumbers paths.now) all.now }
    requires graph { graph.now ≡ rows_of (entities_of entities.now) }
    ensures { IfOk result (FindsLeast (flat_map (entity_circle (entities_of entities.now)) (map (declared_of paths.now) all.now))) }
{
    let nodes = entity_nodes(alloc, paths, all, entities)?;
    least_place(alloc, graph, nodes.as_slice())
}

/// Of each declaration the place of its entity, and its own place.
fn entity_nodes(
    alloc: Global,
    paths: &Paths<'_>,
    all: &[Declared<'_>],
    entities: &[Entity],
) -> Result<Vec<Node>, NoMemory>
    requires rising { IsRising (entities_of entities.now) }
    requires numbers { AllByRecursion (HasNumbers paths.now) all.now }
    ensures { IfOk result (λ nodes. nodes_of nodes.items ≡ filter_map (node_there (entities_of entities.now)) (map (declared_of paths.now) all.now)) }
{
    let mut nodes = Vec::new(alloc);
    for declared in all {
        add_entity_node(alloc, paths, declared, entities, &mut nodes)?;
    }
    Ok(nodes)
}

fn add_entity_node(
    alloc: Global,
    paths: &Paths<'_>,
    declared: &Declared<'_>,
    entities: &[Entity],
    nodes: &mut Vec<Node>,
) -> Result<(), NoMemory>
    requires rising { IsRising (entities_of entities.now) }
    requires numbers { HasNumbers paths.now declared.now }
    ensures { OnOk result (AddsNodes nodes.old.items (option_to_list (node_there (entities_of entities.now) (declared_of paths.now declared.now))) nodes.new.items) }
{
    if is_forward(declared.body) {
        return Ok(());
    }
    let found = place_there(alloc, paths, declared, entities)?;
    let Some(place) = found else {
        return Ok(());
    };
    add_node(nodes, place, declared.name.place)
}

fn add_node(nodes: &mut Vec<Node>, number: usize, place: Place) -> Result<(), NoMemory>
    ensures { OnOk result (AddsNodes nodes.old.items ((number, place_of place) ∷ []) nodes.new.items) }
{
    let Ok(small) = u32::try_from(number) else {
        return Err(NoMemory);
    };
    let rank = rank_of(place);
    nodes.push(Node {
        number: small,
        rank,
    })?;
    Ok(())
}

/// The least place of these nodes that lead back to themselves.
fn least_place(alloc: Global, graph: &Graph, nodes: &[Node]) -> Result<Option<Place>, NoMemory>
    ensures { IfOk result (IsRanked graph.now nodes.now) }
{
    let found = least_on_circle(alloc, graph, nodes)?;
    Ok(place_found(found))
}

fn place_found(found: Option<u64>) -> Option<Place>
    ensures { option_map place_of result ≡ option_map place_ranked found }
{
    match found {
        Some(rank) => Some(place_ranked(rank)),
        None => None,
    }
}

// ---- constants and items

fn value_on_circle(
    alloc: Global,
    all: &[Declared<'_>],
    values: &Graph,
) -> Result<Option<Place>, NoMemory>
    ensures { (paths : List Parts) → IsTrue (are_apart (map (λ v. v.name.place) (all_valued (map (declared_of paths) all.now)))) → LeadsAmong (all_valued (map (declared_of paths) all.now)) values.now → IfOk result (FindsLeast (flat_map (value_circle (all_valued (map (declared_of paths) all.now))) (all_valued (map (declared_of paths) all.now)))) }
{
    let places = value_places(alloc, all)?;
    let nodes = value_nodes(alloc, places.as_slice())?;
    least_place(alloc, values, nodes.as_slice())
}

fn value_nodes(alloc: Global, places: &[Place]) -> Result<Vec<Node>, NoMemory>
    ensures { IfOk result (λ nodes. nodes_of nodes.items ≡ numbered 0 (places_of places.now)) }
{
    let mut nodes = Vec::new(alloc);
    for place in places {
        add_next_node(&mut nodes, place)?;
    }
    Ok(nodes)
}

fn add_next_node(nodes: &mut Vec<Node>, place: &Place) -> Result<(), NoMemory>
    ensures { OnOk result (AddsNodes nodes.old.items ((length nodes.old.items, place_of place.now) ∷ []) nodes.new.items) }
{
    add_node(nodes, nodes.len(), *place)
}

fn value_places(alloc: Global, all: &[Declared<'_>]) -> Result<Vec<Place>, NoMemory>
    ensures { IfOk result (λ places. (paths : List Parts) → places_of places.items ≡ map (λ v. v.name.place) (all_valued (map (declared_of paths) all.now))) }
{
    let mut places = Vec::new(alloc);
    for declared in all {
        add_places_of(declared, &mut places)?;
    }
    Ok(places)
}

fn add_places_of(declared: &Declared<'_>, places: &mut Vec<Place>) -> Result<(), NoMemory>
    ensures { OnOk result (AddsPlaces places.old.items (value_places_in (declaration_of declared.now.body.now)) places.new.items) }
{
    add_value_places(declared.body, places)
}

fn add_value_places(body: &Declaration, places: &mut Vec<Place>) -> Result<(), NoMemory>
    ensures { OnOk result (AddsPlaces places.old.items (value_places_in (declaration_of body.now)) places.new.items) }
{
    match body {
        Declaration::Constants(constants) => add_constant_places(constants.as_slice(), places),
        Declaration::Enum(items) => add_item_places(items.as_slice(), places),
        Declaration::Forward => Ok(()),
        Declaration::Interface(_, _) => Ok(()),
        Declaration::Struct(_, _) => Ok(()),
        Declaration::Exception(_, _) => Ok(()),
        Declaration::Typedef(_) => Ok(()),
        Declaration::NewService(_, _) => Ok(()),
        Declaration::OldService(_) => Ok(()),
        Declaration::NewSingleton(_) => Ok(()),
        Declaration::OldSingleton(_) => Ok(()),
    }
}

fn add_constant_places(constants: &[Constant], places: &mut Vec<Place>) -> Result<(), NoMemory>
    ensures { OnOk result (AddsPlaces places.old.items (map (λ c. c.name.place) (map constant_of constants.now)) places.new.items) }
{
    for constant in constants {
        add_place_of(&constant.name, places)?;
    }
    Ok(())
}

fn add_item_places(items: &[Item], places: &mut Vec<Place>) -> Result<(), NoMemory>
    ensures { OnOk result (AddsPlaces places.old.items (map (λ i. i.name.place) (map item_of items.now)) places.new.items) }
{
    for item in items {
        add_place_of(&item.name, places)?;
    }
    Ok(())
}

fn add_place_of(id: &Id, places: &mut Vec<Place>) -> Result<(), NoMemory>
    ensures { OnOk result (AddsPlaces places.old.items (place_of id.now.place ∷ []) places.new.items) }
{
    add_place(places, id.place)
}
