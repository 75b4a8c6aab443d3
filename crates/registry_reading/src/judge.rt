//! The registry that was read, judged by the rules.
ghost use Rattle.std.specs.Prelude.{◌≡◌, ◌≢◌, Ok, Err, Some, None, IfErr, OnOk, false, not, option_map};
ghost use Rattle.std.specs.List.{list_any, position};
ghost use Rattle.uno_model.specs.Circles.{HasNoCircle};
ghost use Rattle.uno_model.specs.Registry.{IsRising, leads_to};
ghost use Rattle.uno_entities.specs.Entities.{entity_of, entities_of};
ghost use Rattle.registry_text_model.specs.BasesAreOfTheirKind.{bases_are_of_their_kind};
ghost use Rattle.registry_text_model.specs.Rules as r;
ghost use Rattle.registry_text_model.specs.Rules.{AllKeep};
ghost use Rattle.registry_reading_model.specs.Heads.{head_named};
ghost use Rattle.registry_reading.specs.Judging.{verdict, line_at, line_of_head, LesserKept, NoneBeyond, Refuses, KeepsAll};
ghost use Rattle.registry_reading.specs.declared.error.RegError.TheVariants as error;

use crate::RegError;
use crate::heads::Heads;
use registry_rules::{
    first_on_a_circle, first_out_of_range, first_two_way, first_with_wrong_base,
    first_with_wrong_parts, first_with_wrong_raises, first_with_wrong_types, first_without_target,
};
use rules_over_bases::{first_not_whole, first_with_twins};
use std::alloc::Global;
use uno_types::{Entity, Registry};

/// Refuses what breaks a rule: the least of those that are broken, at the first entity that breaks it.
pub(crate) fn judge(alloc: Global, heads: &Heads<'_>, registry: &Registry) -> Result<(), RegError>
    ensures kept { OnOk result (KeepsAll heads.now registry.now) }
    ensures refused { IfErr result (Refuses heads.now registry.now) }
{
    judge_entities(alloc, heads, registry.entities())
}

fn judge_entities(alloc: Global, heads: &Heads<'_>, entities: &[Entity]) -> Result<(), RegError>
    requires { IsRising (entities_of entities.now) }
    ensures kept { OnOk result (KeepsAll heads.now (entities_of entities.now)) }
    ensures refused { IfErr result (Refuses heads.now (entities_of entities.now)) }
{
    bases(heads, entities)?;
    circles(alloc, heads, entities)?;
    names(alloc, heads, entities)?;
    one_way(heads, entities)?;
    raised(heads, entities)?;
    values(heads, entities)?;
    constant_values(heads, entities)?;
    services(heads, entities)?;
    singletons(heads, entities)?;
    types(heads, entities)?;
    whole(alloc, heads, entities)
}

/// Bases are of the kind of what stands on them.
fn bases(heads: &Heads<'_>, entities: &[Entity]) -> Result<(), RegError>
    requires rising { IsRising (entities_of entities.now) }
    ensures kept { OnOk result (LesserKept (entities_of entities.now) r.circles) }
    ensures kinds { OnOk result (position (λ e. not (bases_are_of_their_kind (entities_of entities.now) (entity_of e))) entities.now ≡ None) }
    ensures refused { IfErr result (Refuses heads.now (entities_of entities.now)) }
{
    refuse(heads, entities, 1, first_with_wrong_base(entities))
}

/// Nothing leads back to itself.
fn circles(alloc: Global, heads: &Heads<'_>, entities: &[Entity]) -> Result<(), RegError>
    requires rising { IsRising (entities_of entities.now) }
    requires lesser { LesserKept (entities_of entities.now) r.circles }
    ensures kept { OnOk result (LesserKept (entities_of entities.now) r.names) }
    ensures refused { IfErr result (Refuses heads.now (entities_of entities.now)) }
{
    refuse(heads, entities, 2, first_on_a_circle(alloc, entities)?)
}

/// Names differ.
fn names(alloc: Global, heads: &Heads<'_>, entities: &[Entity]) -> Result<(), RegError>
    requires rising { IsRising (entities_of entities.now) }
    requires kinds { position (λ e. not (bases_are_of_their_kind (entities_of entities.now) (entity_of e))) entities.now ≡ None }
    requires lesser { LesserKept (entities_of entities.now) r.names }
    ensures kept { OnOk result (LesserKept (entities_of entities.now) r.one_way) }
    ensures refused { IfErr result (Refuses heads.now (entities_of entities.now)) }
{
    refuse(heads, entities, 3, first_with_twins(alloc, entities)?)
}

/// One-way methods give nothing back.
fn one_way(heads: &Heads<'_>, entities: &[Entity]) -> Result<(), RegError>
    requires rising { IsRising (entities_of entities.now) }
    requires lesser { LesserKept (entities_of entities.now) r.one_way }
    ensures kept { OnOk result (LesserKept (entities_of entities.now) r.raised) }
    ensures refused { IfErr result (Refuses heads.now (entities_of entities.now)) }
{
    refuse(heads, entities, 4, first_two_way(entities))
}

/// What is raised are exceptions.
fn raised(heads: &Heads<'_>, entities: &[Entity]) -> Result<(), RegError>
    requires rising { IsRising (entities_of entities.now) }
    requires lesser { LesserKept (entities_of entities.now) r.raised }
    ensures kept { OnOk result (LesserKept (entities_of entities.now) r.values) }
    ensures refused { IfErr result (Refuses heads.now (entities_of entities.now)) }
{
    refuse(heads, entities, 5, first_with_wrong_raises(entities))
}

/// The values of items are those of `long`: where the text has another, the header over it is marked.
fn values(heads: &Heads<'_>, entities: &[Entity]) -> Result<(), RegError>
    requires lesser { LesserKept (entities_of entities.now) r.values }
    ensures kept { OnOk result (NoneBeyond heads.now) }
    ensures lesser { OnOk result (LesserKept (entities_of entities.now) r.constant_values) }
    ensures refused { IfErr result (Refuses heads.now (entities_of entities.now)) }
{
    match heads.first_beyond() {
        Some(line) => Err(RegError::Rule(6, line)),
        None => Ok(()),
    }
}

/// Constants are in range.
fn constant_values(heads: &Heads<'_>, entities: &[Entity]) -> Result<(), RegError>
    requires rising { IsRising (entities_of entities.now) }
    requires lesser { LesserKept (entities_of entities.now) r.constant_values }
    requires long { NoneBeyond heads.now }
    ensures kept { OnOk result (LesserKept (entities_of entities.now) r.services) }
    ensures refused { IfErr result (Refuses heads.now (entities_of entities.now)) }
{
    refuse(heads, entities, 7, first_out_of_range(entities))
}

/// Services have interfaces and services.
fn services(heads: &Heads<'_>, entities: &[Entity]) -> Result<(), RegError>
    requires rising { IsRising (entities_of entities.now) }
    requires lesser { LesserKept (entities_of entities.now) r.services }
    requires long { NoneBeyond heads.now }
    ensures kept { OnOk result (LesserKept (entities_of entities.now) r.singletons) }
    ensures refused { IfErr result (Refuses heads.now (entities_of entities.now)) }
{
    refuse(heads, entities, 8, first_with_wrong_parts(entities))
}

/// Singletons are of interfaces or services.
fn singletons(heads: &Heads<'_>, entities: &[Entity]) -> Result<(), RegError>
    requires rising { IsRising (entities_of entities.now) }
    requires lesser { LesserKept (entities_of entities.now) r.singletons }
    requires long { NoneBeyond heads.now }
    ensures kept { OnOk result (LesserKept (entities_of entities.now) r.types) }
    ensures refused { IfErr result (Refuses heads.now (entities_of entities.now)) }
{
    refuse(heads, entities, 9, first_without_target(entities))
}

/// Types stand where they may.
fn types(heads: &Heads<'_>, entities: &[Entity]) -> Result<(), RegError>
    requires rising { IsRising (entities_of entities.now) }
    requires lesser { LesserKept (entities_of entities.now) r.types }
    requires long { NoneBeyond heads.now }
    ensures kept { OnOk result (LesserKept (entities_of entities.now) r.whole) }
    ensures refused { IfErr result (Refuses heads.now (entities_of entities.now)) }
{
    refuse(heads, entities, 10, first_with_wrong_types(entities))
}

/// Entities are whole and within the limits.
fn whole(alloc: Global, heads: &Heads<'_>, entities: &[Entity]) -> Result<(), RegError>
    requires rising { IsRising (entities_of entities.now) }
    requires lesser { LesserKept (entities_of entities.now) r.whole }
    requires long { NoneBeyond heads.now }
    ensures kept { OnOk result (KeepsAll heads.now (entities_of entities.now)) }
    ensures refused { IfErr result (Refuses heads.now (entities_of entities.now)) }
{
    refuse(heads, entities, 11, first_not_whole(alloc, entities)?)
}

/// Refuses by this rule, if an entity breaks it.
fn refuse(
    heads: &Heads<'_>,
    entities: &[Entity],
    rule: u8,
    place: Option<usize>,
) -> Result<(), RegError>
    ensures kept { OnOk result (verdict rule heads.now (entities_of entities.now) place ≡ None) }
    ensures refused { IfErr result (λ e. verdict rule heads.now (entities_of entities.now) place ≡ Some e) }
{
    match place {
        Some(place) => Err(RegError::Rule(rule, line_at(heads, entities, place))),
        None => Ok(()),
    }
}

/// The line of the header of the entity at a place.
#[tactic(auto, unfolding(crate::specs::Judging::line_at))]
fn line_at(heads: &Heads<'_>, entities: &[Entity], place: usize) -> u32
    ensures { result ≡ line_at heads.now (entities_of entities.now) place }
{
    let Some(entity) = entities.get(place) else {
        return 0;
    };
    line_named(heads, entity.name.as_str())
}

fn line_named(heads: &Heads<'_>, name: &str) -> u32
    ensures { result ≡ line_of_head (head_named name.now heads.now) }
{
    match heads.named(name) {
        Some(head) => head.line,
        None => 0,
    }
}
