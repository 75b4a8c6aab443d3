//! One walk over all entities, each behind the one on which it stands alone: there only the names that it has itself are met, behind those over that one.
ghost use Rattle.std.specs.Prelude.{◌≡◌, ℕ, List, IfOk, OnOk, true};
ghost use Rattle.idl_repeated_names.specs.Over.{bases_at, names_over, owned};
ghost use Rattle.idl_repeated_names.specs.Twins.{Named};
ghost use Rattle.idl_repeated_names.specs.Walking.{AllAsked, GoesBack, LeadsOver, Walked};
ghost use Rattle.uno_model.specs.Circles.{HasNoCircle};
ghost use Rattle.uno_model.specs.Registry.{leads_to};

use crate::bases::only_base;
use crate::least::Least;
use crate::over::{Around, Kind, meet_at, meet_over};
use crate::way::Way;
use entity_rules::has_no_circles;
use idl_trees::Place;
use rules_over_bases::bases_first;
use std::alloc::Global;
use std::collections::BTreeMap;
use uno_base::NoMemory;
use uno_types::{Body, Entity, Registry};

/// A walk, with what was found of second names over each entity.
#[derive(Drop)]
pub(crate) struct Walk<'a> {
    way: Way<'a>,
    pub found: BTreeMap<&'a str, Least>,
}

/// The walks for functions and for members.
#[derive(Drop)]
pub(crate) struct Asked<'a> {
    pub functions: Walk<'a>,
    pub fields: Walk<'a>,
}

/// Where a way leads back to itself nothing is walked.
pub(crate) fn walks<'a>(around: Around<'_, 'a>) -> Result<Asked<'a>, NoMemory>
    ensures { IfOk result (AllAsked (names_over Kind.Functions (owned around.entry.owners.now) around.entry.built_in.now around.entry.registry.now) (names_over Kind.Fields (owned around.entry.owners.now) around.entry.built_in.now around.entry.registry.now)) }
{
    let alloc = around.registry.allocator();
    let entities = around.registry.entities();
    if !has_no_circles(alloc, entities)? {
        return Ok(none_asked(alloc));
    }
    let order = bases_first(alloc, entities)?;
    walk_both(around, order.as_slice())
}

fn none_asked<'a>(alloc: Global) -> Asked<'a>
    ensures { (functions fields : List ℕ → List Named) → AllAsked functions fields result }
{
    Asked {
        functions: no_walk(alloc),
        fields: no_walk(alloc),
    }
}

fn walk_both<'a>(around: Around<'_, 'a>, order: &[usize]) -> Result<Asked<'a>, NoMemory>
    requires { HasNoCircle (leads_to around.registry.now) }
    ensures { IfOk result (AllAsked (names_over Kind.Functions (owned around.entry.owners.now) around.entry.built_in.now around.entry.registry.now) (names_over Kind.Fields (owned around.entry.owners.now) around.entry.built_in.now around.entry.registry.now)) }
{
    let functions = walk_along(around, Kind::Functions, order)?;
    let fields = walk_along(around, Kind::Fields, order)?;
    Ok(Asked { functions, fields })
}

fn no_walk<'a>(alloc: Global) -> Walk<'a>
    ensures { (over : List ℕ → List Named) → Walked over result }
{
    Walk {
        way: Way::new(alloc, Place { file: 0, byte: 0 }),
        found: BTreeMap::new(alloc),
    }
}

fn walk_along<'a>(around: Around<'_, 'a>, kind: Kind, order: &[usize]) -> Result<Walk<'a>, NoMemory>
    requires { HasNoCircle (leads_to around.registry.now) }
    ensures { IfOk result (Walked (names_over kind (owned around.entry.owners.now) around.entry.built_in.now around.entry.registry.now)) }
{
    let mut walk = no_walk(around.registry.allocator());
    for place in order {
        visit_at(&mut walk, around, kind, *place)?;
    }
    Ok(walk)
}

/// Visits the entity at a place, if it has names of the kind.
fn visit_at<'a>(
    walk: &mut Walk<'a>,
    around: Around<'_, 'a>,
    kind: Kind,
    place: usize,
) -> Result<(), NoMemory>
    requires { HasNoCircle (leads_to around.registry.now) }
    ensures { OnOk result (Walked (names_over kind (owned around.entry.owners.now) around.entry.built_in.now around.entry.registry.now) walk.old → Walked (names_over kind (owned around.entry.owners.now) around.entry.built_in.now around.entry.registry.now) walk.new) }
{
    let Some(entity) = around.registry.entities().get(place) else {
        return Ok(());
    };
    if !is_of(kind, entity) {
        return Ok(());
    }
    visit(walk, around, kind, entity.name.as_str())
}

fn is_of(kind: Kind, entity: &Entity) -> bool {
    match kind {
        Kind::Functions => matches!(&entity.body, Body::Interface { .. }),
        Kind::Fields => matches!(&entity.body, Body::Struct { .. } | Body::Exception { .. }),
    }
}

/// Notes what is found of the second names over an entity.
fn visit<'a>(
    walk: &mut Walk<'a>,
    around: Around<'_, 'a>,
    kind: Kind,
    name: &'a str,
) -> Result<(), NoMemory>
    requires { HasNoCircle (leads_to around.registry.now) }
    ensures { OnOk result (Walked (names_over kind (owned around.entry.owners.now) around.entry.built_in.now around.entry.registry.now) walk.old → Walked (names_over kind (owned around.entry.owners.now) around.entry.built_in.now around.entry.registry.now) walk.new) }
{
    reach(&mut walk.way, around, kind, name)?;
    walk.found.insert(name, walk.way.twins.found)?;
    walk.way.go_on(name)?;
    Ok(())
}

/// Meets the names over an entity: behind those over its one base, where the way goes back to it, or else all of them.
fn reach<'a>(
    way: &mut Way<'a>,
    around: Around<'_, 'a>,
    kind: Kind,
    name: &'a str,
) -> Result<(), NoMemory>
    requires { HasNoCircle (leads_to around.registry.now) }
    ensures { OnOk result (LeadsOver (names_over kind (owned around.entry.owners.now) around.entry.built_in.now around.entry.registry.now) way.old way.new name.now) }
{
    if goes_back(way, around.registry, kind, name)? {
        meet_at(&mut way.twins, around, kind, name)?;
        return Ok(());
    }
    way.begin();
    meet_over(&mut way.twins, around, kind, name)?;
    Ok(())
}

fn goes_back<'a>(
    way: &mut Way<'a>,
    registry: &'a Registry,
    kind: Kind,
    name: &str,
) -> Result<bool, NoMemory>
    ensures { IfOk result (λ there. there ≡ true → GoesBack (bases_at kind registry.now name.now) way.old way.new) }
{
    let Some(base) = only_base(registry, kind, name) else {
        return Ok(false);
    };
    let there = way.back_to(base)?;
    Ok(there)
}
