//! The rules, asked in the order of their numbers.
ghost use Rattle.std.specs.List.{All, list_all};
ghost use Rattle.std.specs.Prelude.{◌≡◌, IfErr, IfOk, IsTrue, List, map};
ghost use Rattle.idl_check.specs.Asked.{AreNumbered, AreResolvedAmong, IsAsked, IsJudged, IsKeptAmong, IsRefusedFor, NoneBelow, told_of};
ghost use Rattle.idl_check.specs.Broken.{values_told};
ghost use Rattle.idl_entities.specs.Telling.{Telling};
ghost use Rattle.idl_joint_places.specs.Circles.{FindsLeast, LeadsAmong};
ghost use Rattle.idl_joint_places.specs.There.{AreKept};
ghost use Rattle.idl_meaning_model.specs.Declarations.{Declared, all_valued};
ghost use Rattle.idl_meaning_model.specs.FromFiles.{are_apart, has_identifiers};
ghost use Rattle.idl_meant.specs.Resolving.{all_in};
ghost use Rattle.idl_places.specs.Classes.{KeepsClasses};
ghost use Rattle.idl_rules_model.specs.CheckVerdicts.{broken_among};
ghost use Rattle.registry_text_model.specs.Rules as rule;
ghost use Rattle.registry_text_model.specs.Rules.{Rule, number_of};
ghost use Rattle.uno_entities.specs.Entities.{entities_of};
ghost use Rattle.uno_model.specs.Circles.{HasNoCircle};
ghost use Rattle.uno_model.specs.Entities as uno;
ghost use Rattle.uno_model.specs.Registry.{IsRising, leads_to};

use crate::CheckError;
use crate::each::{
    giving_one_way, wrong_base, wrong_constant, wrong_item, wrong_part, wrong_target, wrong_type,
    wrongly_raised,
};
use crate::registry::registry_told;
use circle_search::Graph;
use idl_entities::Meanings;
use idl_joint_places::{add_past_limits, least_on_circles};
use idl_names::Resolved;
use idl_places::least;
use idl_repeated_names::repeated_names;
use idl_trees::Place;
use rules_over_bases::first_with_twins;
use std::alloc::Global;
use uno_base::NoMemory;
use uno_entities::Entity;
use uno_types::Registry;

/// The rule of this number is broken at this place, if there is one.
fn refuse(number: u8, place: Option<Place>) -> Result<(), CheckError>
    ensures { (r : Rule) (ds : List Declared) → number_of r ≡ number → NoneBelow number ds → FindsLeast (broken_among r ds) place → IsJudged number ds result }
{
    match place {
        Some(place) => Err(CheckError::Rule(number, place)),
        None => Ok(()),
    }
}

/// Bases are of the kind of what stands on them.
fn bases<M: Meanings>(alloc: Global, all: &[M], entities: &[Entity]) -> Result<(), CheckError>
    requires rising { IsRising (entities_of entities.now) }
    ensures { (ds : List Declared) → IsAsked ds (map M.telling all.now) (entities_of entities.now) → NoneBelow 1 ds → IsJudged 1 ds result }
{
    let found = wrong_base(alloc, all, entities)?;
    refuse(1, found)
}

/// Nothing leads back to itself. The graph is that of all constants and items.
fn circles(
    alloc: Global,
    resolved: &Resolved<'_>,
    entities: &[Entity],
    graph: &Graph,
) -> Result<(), CheckError>
    requires rising { IsRising (entities_of entities.now) }
    requires numbered { AreNumbered resolved.now }
    requires apart { IsTrue (are_apart (map (λ v. v.name.place) (all_valued (all_in resolved.now)))) }
    requires graph { LeadsAmong (all_valued (all_in resolved.now)) graph.now }
    ensures { (ts : List Telling) → IsAsked (all_in resolved.now) ts (entities_of entities.now) → NoneBelow 2 (all_in resolved.now) → IsJudged 2 (all_in resolved.now) result }
{
    let declared = resolved.declared.as_slice();
    let found = least_on_circles(alloc, &resolved.paths, declared, entities, graph)?;
    refuse(2, found)
}

/// Names differ.
fn names(alloc: Global, resolved: &Resolved<'_>, registry: &Registry) -> Result<(), CheckError>
    requires numbered { AreNumbered resolved.now }
    requires identifiers { IsTrue (list_all has_identifiers (all_in resolved.now)) }
    requires asked { (ts : List Telling) × IsAsked (all_in resolved.now) ts registry.now }
    requires lesser { NoneBelow 3 (all_in resolved.now) }
    ensures { IsJudged 3 (all_in resolved.now) result }
{
    let found = repeated_name(alloc, resolved, registry)?;
    refuse(3, found)
}

/// Where no name repeats, no place is sought.
fn repeated_name(
    alloc: Global,
    resolved: &Resolved<'_>,
    registry: &Registry,
) -> Result<Option<Place>, NoMemory>
    requires numbered { AreNumbered resolved.now }
    requires identifiers { IsTrue (list_all has_identifiers (all_in resolved.now)) }
    requires asked { (ts : List Telling) × IsAsked (all_in resolved.now) ts registry.now }
    requires lesser { NoneBelow 3 (all_in resolved.now) }
    ensures { IfOk result (FindsLeast (broken_among rule.names (all_in resolved.now))) }
{
    let entities = registry.entities();
    let twins = first_with_twins(alloc, entities)?;
    if twins.is_none() {
        return Ok(None);
    }
    let declared = resolved.declared.as_slice();
    let found = repeated_names(alloc, &resolved.paths, declared, registry)?;
    Ok(found)
}

/// One-way methods give nothing back.
fn one_way<M: Meanings>(alloc: Global, all: &[M]) -> Result<(), CheckError>
    requires classes { All (λ m. KeepsClasses (M.telling m).kept) all.now }
    ensures { (ds : List Declared) (reg : List uno.Entity) → IsAsked ds (map M.telling all.now) reg → NoneBelow 4 ds → IsJudged 4 ds result }
{
    let found = giving_one_way(alloc, all)?;
    refuse(4, found)
}

/// What is raised are exceptions.
fn raised<M: Meanings>(alloc: Global, all: &[M], entities: &[Entity]) -> Result<(), CheckError>
    requires rising { IsRising (entities_of entities.now) }
    ensures { (ds : List Declared) → IsAsked ds (map M.telling all.now) (entities_of entities.now) → NoneBelow 5 ds → IsJudged 5 ds result }
{
    let found = wrongly_raised(alloc, all, entities)?;
    refuse(5, found)
}

/// Items have values of `long`.
fn values<M: Meanings>(
    alloc: Global,
    all: &[M],
    values: &[&[Option<i128>]],
) -> Result<(), CheckError>
    requires values { map (λ v. v.now) values.now ≡ map values_told (map M.telling all.now) }
    ensures { (ds : List Declared) (reg : List uno.Entity) → IsAsked ds (map M.telling all.now) reg → NoneBelow 6 ds → IsJudged 6 ds result }
{
    let found = wrong_item(alloc, all, values)?;
    refuse(6, found)
}

/// Constants have values of their types.
fn constant_values<M: Meanings>(
    alloc: Global,
    all: &[M],
    values: &[&[Option<i128>]],
) -> Result<(), CheckError>
    requires classes { All (λ m. KeepsClasses (M.telling m).kept) all.now }
    requires values { map (λ v. v.now) values.now ≡ map values_told (map M.telling all.now) }
    ensures { (ds : List Declared) (reg : List uno.Entity) → IsAsked ds (map M.telling all.now) reg → NoneBelow 7 ds → IsJudged 7 ds result }
{
    let found = wrong_constant(alloc, all, values)?;
    refuse(7, found)
}

/// Services stand over interfaces and services.
fn services<M: Meanings>(alloc: Global, all: &[M], entities: &[Entity]) -> Result<(), CheckError>
    requires rising { IsRising (entities_of entities.now) }
    ensures { (ds : List Declared) → IsAsked ds (map M.telling all.now) (entities_of entities.now) → NoneBelow 8 ds → IsJudged 8 ds result }
{
    let found = wrong_part(alloc, all, entities)?;
    refuse(8, found)
}

/// Singletons are of interfaces and services.
fn singletons<M: Meanings>(alloc: Global, all: &[M], entities: &[Entity]) -> Result<(), CheckError>
    requires rising { IsRising (entities_of entities.now) }
    ensures { (ds : List Declared) → IsAsked ds (map M.telling all.now) (entities_of entities.now) → NoneBelow 9 ds → IsJudged 9 ds result }
{
    let found = wrong_target(alloc, all, entities)?;
    refuse(9, found)
}

/// Types stand where they may.
fn types<M: Meanings>(alloc: Global, all: &[M], entities: &[Entity]) -> Result<(), CheckError>
    requires rising { IsRising (entities_of entities.now) }
    requires classes { All (λ m. KeepsClasses (M.telling m).kept) all.now }
    ensures { (ds : List Declared) → IsAsked ds (map M.telling all.now) (entities_of entities.now) → NoneBelow 10 ds → IsJudged 10 ds result }
{
    let found = wrong_type(alloc, all, entities)?;
    refuse(10, found)
}

/// What may not be missing is there, and the limits hold.
fn whole(alloc: Global, resolved: &Resolved<'_>, entities: &[Entity]) -> Result<(), CheckError>
    requires rising { IsRising (entities_of entities.now) }
    requires no_circle { HasNoCircle (leads_to (entities_of entities.now)) }
    requires numbered { AreNumbered resolved.now }
    requires kept { AreKept (all_in resolved.now) (entities_of entities.now) }
    ensures { (ts : List Telling) → IsAsked (all_in resolved.now) ts (entities_of entities.now) → NoneBelow 11 (all_in resolved.now) → IsJudged 11 (all_in resolved.now) result }
{
    let mut places = Vec::new(alloc);
    let declared = resolved.declared.as_slice();
    add_past_limits(alloc, &resolved.paths, declared, entities, &mut places)?;
    refuse(11, least(places.as_slice()))
}

// ---- all of them

/// The first five, which ask no values.
fn judge_names<M: Meanings>(
    alloc: Global,
    resolved: &Resolved<'_>,
    all: &[M],
    graph: &Graph,
    registry: &Registry,
) -> Result<(), CheckError>
    requires classes { All (λ m. KeepsClasses (M.telling m).kept) all.now }
    requires numbered { AreNumbered resolved.now }
    requires identifiers { IsTrue (list_all has_identifiers (all_in resolved.now)) }
    requires graph { LeadsAmong (all_valued (all_in resolved.now)) graph.now }
    requires asked { IsAsked (all_in resolved.now) (map M.telling all.now) registry.now }
    ensures { IsJudged 5 (all_in resolved.now) result }
{
    let entities = registry.entities();
    bases(alloc, all, entities)?;
    circles(alloc, resolved, entities, graph)?;
    names(alloc, resolved, registry)?;
    one_way(alloc, all)?;
    raised(alloc, all, entities)
}

/// The others. The values are those of the constants or items of each declaration.
fn judge_types<M: Meanings>(
    alloc: Global,
    resolved: &Resolved<'_>,
    all: &[M],
    worth: &[&[Option<i128>]],
    entities: &[Entity],
) -> Result<(), CheckError>
    requires rising { IsRising (entities_of entities.now) }
    requires classes { All (λ m. KeepsClasses (M.telling m).kept) all.now }
    requires values { map (λ v. v.now) worth.now ≡ map values_told (map M.telling all.now) }
    requires numbered { AreNumbered resolved.now }
    requires asked { IsAsked (all_in resolved.now) (map M.telling all.now) (entities_of entities.now) }
    requires lesser { NoneBelow 6 (all_in resolved.now) }
    ensures { IsJudged 11 (all_in resolved.now) result }
{
    values(alloc, all, worth)?;
    constant_values(alloc, all, worth)?;
    services(alloc, all, entities)?;
    singletons(alloc, all, entities)?;
    types(alloc, all, entities)?;
    whole(alloc, resolved, entities)
}

/// The registry of declarations that are told so, or the rule that is broken first.
pub(crate) fn check_told<M: Meanings>(
    alloc: Global,
    resolved: &Resolved<'_>,
    all: &[M],
    worth: &[&[Option<i128>]],
    graph: &Graph,
) -> Result<Registry, CheckError>
    requires classes { All (λ m. KeepsClasses (M.telling m).kept) all.now }
    requires values { map (λ v. v.now) worth.now ≡ map values_told (map M.telling all.now) }
    requires numbered { AreNumbered resolved.now }
    requires identifiers { IsTrue (list_all has_identifiers (all_in resolved.now)) }
    requires graph { LeadsAmong (all_valued (all_in resolved.now)) graph.now }
    requires resolved { AreResolvedAmong (all_in resolved.now) }
    requires told { map M.telling all.now ≡ told_of (all_in resolved.now) }
    ensures kept { IfOk result (IsKeptAmong (all_in resolved.now)) }
    ensures refused { IfErr result (IsRefusedFor (all_in resolved.now)) }
{
    let registry = registry_told(alloc, all)?;
    let entities = registry.entities();
    judge_names(alloc, resolved, all, graph, &registry)?;
    judge_types(alloc, resolved, all, worth, entities)?;
    Ok(registry)
}
