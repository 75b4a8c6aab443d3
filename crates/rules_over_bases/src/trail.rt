//! A trail from an entity up to what stands on it alone, step by step, with the names that were seen on the way.
ghost use Rattle.std.specs.Prelude.{◌≡◌, ◌<◌, List, length, slice_get, OnOk, replicate, false};
ghost use Rattle.uno_model.specs.Entities as plain;
ghost use Rattle.uno_model.specs.Circles.{HasNoCircle};
ghost use Rattle.uno_model.specs.Registry.{IsRising, leads_to, stands_on_body};
ghost use Rattle.uno_entities.specs.Entities.{entities_of};
ghost use Rattle.rules_over_bases.specs.Known.{KnownToDiffer};
ghost use Rattle.rules_over_bases.specs.Standing.{IsOnlyBase};
ghost use Rattle.rules_over_bases.specs.Trail.{Follows, GoesBack, StandsAt};

use crate::over::{add_own, search};
use crate::seen::Seen;
use std::alloc::Global;
use uno_base::NoMemory;
use uno_entities::{Entity, Reach};

/// An entity, and how many names were seen when those that it declares were among them.
#[derive(Clone, Copy)]
pub(crate) struct Step {
    place: usize,
    names: usize,
}

#[derive(Drop)]
pub(crate) struct Trail<'a> {
    steps: Vec<Step>,
    seen: Seen<'a>,
}

impl<'a> Trail<'a> {
    /// It begins nowhere.
    pub(crate) fn new(alloc: Global) -> Trail<'a>
        ensures { (reg : List plain.Entity) → Follows reg result }
    {
        Trail {
            steps: Vec::new(alloc),
            seen: Seen::new(alloc),
        }
    }

    /// Goes back to the entity at a place, and answers whether it is on the trail.
    fn go_back(&mut self, place: usize) -> bool
        ensures { GoesBack self.old self.new place result }
    {
        while let Some(step) = self.steps.last().copied() {
            if step.place == place {
                self.seen.take_back(step.names);
                return true;
            }
            self.steps.pop();
        }
        false
    }
}

/// Begins anew at an entity, with the names that a search from it finds. Where none is found twice, it is known of all that the search reached.
pub(crate) fn begin<'a>(
    entities: &'a [Entity],
    place: usize,
    known: &mut [bool],
    trail: &mut Trail<'a>,
    reach: &mut Reach,
) -> Result<(), NoMemory>
    requires rising { IsRising (entities_of entities.now) }
    requires no_circle { HasNoCircle (leads_to (entities_of entities.now)) }
    requires place { place < length entities.now }
    requires before { KnownToDiffer (entities_of entities.now) known.old }
    requires follows { Follows (entities_of entities.now) trail.old }
    requires clear { reach.old.search.marks.items ≡ replicate (length entities.now) false }
    ensures after { OnOk result (KnownToDiffer (entities_of entities.now) known.new) }
    ensures follows { OnOk result (Follows (entities_of entities.now) trail.new) }
    ensures clear { OnOk result (reach.new.search.marks.items ≡ replicate (length entities.now) false) }
{
    trail.steps.clear();
    trail.seen.take_back(0);
    if !search(entities, place, known, &mut trail.seen, reach)? {
        return Ok(());
    }
    let names = trail.seen.len();
    trail.steps.push(Step { place, names })?;
    Ok(())
}

/// Goes on to an entity from the one on which it stands alone, if that one is on the trail. Where its own names are new, it is known to have no name twice.
pub(crate) fn go_on<'a>(
    entities: &'a [Entity],
    place: usize,
    base: usize,
    known: &mut [bool],
    trail: &mut Trail<'a>,
) -> Result<(), NoMemory>
    requires rising { IsRising (entities_of entities.now) }
    requires no_circle { HasNoCircle (leads_to (entities_of entities.now)) }
    requires place { place < length entities.now }
    requires base { IsOnlyBase (entities_of entities.now) (stands_on_body (slice_get (entities_of entities.now) place)) base }
    requires before { KnownToDiffer (entities_of entities.now) known.old }
    requires follows { Follows (entities_of entities.now) trail.old }
    ensures after { OnOk result (KnownToDiffer (entities_of entities.now) known.new) }
    ensures follows { OnOk result (Follows (entities_of entities.now) trail.new) }
{
    if !trail.go_back(base) {
        return Ok(());
    }
    if !add_own(&mut trail.seen, &entities[place].body)? {
        return Ok(());
    }
    let names = trail.seen.len();
    trail.steps.push(Step { place, names })?;
    known[place] = true;
    Ok(())
}
