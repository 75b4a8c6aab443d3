//! One walk over all entities, each behind the one on which it stands alone: what has no name twice over its bases is known then.
ghost use Rattle.std.specs.Prelude.{◌≡◌, ◌<◌, false, length, replicate, IfOk, OnOk};
ghost use Rattle.uno_model.specs.Circles.{HasNoCircle};
ghost use Rattle.uno_model.specs.Registry.{IsRising, leads_to};
ghost use Rattle.uno_entities.specs.Entities.{entities_of};
ghost use Rattle.rules_over_bases.specs.Known.{KnownToDiffer};
ghost use Rattle.rules_over_bases.specs.Trail.{Follows};

use crate::forest::{bases_first, under_tops};
use crate::standing::{Standing, standing_of};
use crate::trail::{Trail, begin, go_on};
use std::alloc::Global;
use uno_base::NoMemory;
use uno_entities::{Entity, Reach};

/// Marks at entities whose names differ over their bases.
pub(crate) fn known_to_differ(
    alloc: Global,
    entities: &[Entity],
    reach: &mut Reach,
) -> Result<Vec<bool>, NoMemory>
    requires rising { IsRising (entities_of entities.now) }
    requires no_circle { HasNoCircle (leads_to (entities_of entities.now)) }
    requires clear { reach.old.search.marks.items ≡ replicate (length entities.now) false }
    ensures known { IfOk result (λ known. KnownToDiffer (entities_of entities.now) known.items) }
    ensures clear { OnOk result (reach.new.search.marks.items ≡ replicate (length entities.now) false) }
{
    let order = bases_first(alloc, entities)?;
    let tops = under_tops(alloc, entities, order.as_slice())?;
    let mut known = vec![in alloc; false; entities.len()]?;
    let mut trail = Trail::new(alloc);
    for place in order.iter() {
        visit(
            entities,
            *place,
            tops.as_slice(),
            known.as_mut_slice(),
            &mut trail,
            reach,
        )?;
    }
    Ok(known)
}

/// Where an entity stands on several, a walk begins at it only if it leads up to one on which nothing stands: a search from such a one reaches all others.
fn visit<'a>(
    entities: &'a [Entity],
    place: usize,
    tops: &[bool],
    known: &mut [bool],
    trail: &mut Trail<'a>,
    reach: &mut Reach,
) -> Result<(), NoMemory>
    requires rising { IsRising (entities_of entities.now) }
    requires no_circle { HasNoCircle (leads_to (entities_of entities.now)) }
    requires tops { length tops.now ≡ length entities.now }
    requires before { KnownToDiffer (entities_of entities.now) known.old }
    requires follows { Follows (entities_of entities.now) trail.old }
    requires clear { reach.old.search.marks.items ≡ replicate (length entities.now) false }
    ensures after { OnOk result (KnownToDiffer (entities_of entities.now) known.new) }
    ensures follows { OnOk result (Follows (entities_of entities.now) trail.new) }
    ensures clear { OnOk result (reach.new.search.marks.items ≡ replicate (length entities.now) false) }
{
    if place >= entities.len() {
        return Ok(());
    }
    match standing_of(entities, &entities[place]) {
        Standing::OnNone => begin(entities, place, known, trail, reach),
        Standing::OnOne(base) => {
            if !known[base] {
                return Ok(());
            }
            go_on(entities, place, base, known, trail)
        }
        Standing::Otherwise => {
            if !tops[place] {
                return Ok(());
            }
            begin(entities, place, known, trail, reach)
        }
    }
}
