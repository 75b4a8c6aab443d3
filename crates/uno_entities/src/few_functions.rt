//! Whether each interface has few functions, those of its bases counted. Where one has few, so has all on which it stands.
ghost use Rattle.std.specs.Prelude.{◌≡◌, ◌<◌, ◌↔◌, length, IfOk, OnOk, IsTrue, replicate, false};
ghost use Rattle.uno_model.specs.Circles.{HasNoCircle};
ghost use Rattle.uno_model.specs.Registry.{IsRising, leads_to};
ghost use Rattle.uno_model.specs.Sound.{HasFewFunctions};
ghost use Rattle.uno_entities.specs.Counts.{FewAt, AllFewBut, KnownFew};
ghost use Rattle.uno_entities.specs.Entities.{entities_of};
ghost use Rattle.uno_entities.specs.Reaching.{AreWithin, MarksMore};

use crate::Entity;
use crate::bases::{Reach, all_bases, nothing_reached, reach_bases};
use crate::functions::{functions_of_all, functions_of_reached};
use std::alloc::Global;
use uno_base::NoMemory;

/// The most functions that an interface has.
const MOST: u64 = 65_536;

/// Whether no interface has more functions than the limit, where nothing leads back to itself. Where all entities together have no more, none has. Else those on
/// which another stands are put off: most are known to have few once the others are searched, and so cost no search.
pub fn all_have_few_functions(alloc: Global, entities: &[Entity]) -> Result<bool, NoMemory>
    requires rising { IsRising (entities_of entities.now) }
    requires circles { HasNoCircle (leads_to (entities_of entities.now)) }
    ensures { IfOk result (λ b. IsTrue b ↔ HasFewFunctions (entities_of entities.now)) }
{
    if functions_of_all(entities) <= MOST {
        return Ok(true);
    }
    let bases = all_bases(alloc, entities)?;
    let mut known = none_marked(alloc, entities.len())?;
    let mut reach = nothing_reached(alloc, entities.len())?;
    let first_few = others_have_few(entities, bases.as_slice(), known.as_mut_slice(), &mut reach)?;
    drop(bases);
    if !first_few {
        return Ok(false);
    }
    let none = none_marked(alloc, entities.len())?;
    others_have_few(entities, none.as_slice(), known.as_mut_slice(), &mut reach)
}

fn none_marked(alloc: Global, count: usize) -> Result<Vec<bool>, NoMemory>
    ensures { IfOk result (λ marks. marks.items ≡ replicate count false) }
{
    let marks = vec![in alloc; false; count]?;
    Ok(marks)
}

/// Whether all entities that are not put off have few functions.
fn others_have_few(
    entities: &[Entity],
    later: &[bool],
    known: &mut [bool],
    reach: &mut Reach,
) -> Result<bool, NoMemory>
    requires rising { IsRising (entities_of entities.now) }
    requires circles { HasNoCircle (leads_to (entities_of entities.now)) }
    requires long { length later.now ≡ length entities.now }
    requires before { KnownFew (entities_of entities.now) known.old }
    requires clear { reach.old.search.marks.items ≡ replicate (length entities.now) false }
    ensures few { IfOk result (λ b. IsTrue b ↔ AllFewBut later.now (entities_of entities.now)) }
    ensures after { OnOk result (KnownFew (entities_of entities.now) known.new) }
    ensures clear { OnOk result (reach.new.search.marks.items ≡ replicate (length entities.now) false) }
{
    for place in 0..entities.len() {
        if !waits_or_has_few(entities, place, later[place], known, reach)? {
            return Ok(false);
        }
    }
    Ok(true)
}

/// Whether the entity at a place is put off, or has few functions.
fn waits_or_has_few(
    entities: &[Entity],
    place: usize,
    later: bool,
    known: &mut [bool],
    reach: &mut Reach,
) -> Result<bool, NoMemory>
    requires rising { IsRising (entities_of entities.now) }
    requires circles { HasNoCircle (leads_to (entities_of entities.now)) }
    requires place { place < length entities.now }
    requires before { KnownFew (entities_of entities.now) known.old }
    requires clear { reach.old.search.marks.items ≡ replicate (length entities.now) false }
    ensures few { IfOk result (λ b. IsTrue b ↔ (later ≡ false → FewAt (entities_of entities.now) place)) }
    ensures after { OnOk result (KnownFew (entities_of entities.now) known.new) }
    ensures clear { OnOk result (reach.new.search.marks.items ≡ replicate (length entities.now) false) }
{
    if later {
        return Ok(true);
    }
    has_few_functions(entities, place, known, reach)
}

/// Whether the entity at a place has few functions, searched only where it is not known.
pub fn has_few_functions(
    entities: &[Entity],
    place: usize,
    known: &mut [bool],
    reach: &mut Reach,
) -> Result<bool, NoMemory>
    requires rising { IsRising (entities_of entities.now) }
    requires circles { HasNoCircle (leads_to (entities_of entities.now)) }
    requires place { place < length entities.now }
    requires before { KnownFew (entities_of entities.now) known.old }
    requires clear { reach.old.search.marks.items ≡ replicate (length entities.now) false }
    ensures few { IfOk result (λ b. IsTrue b ↔ FewAt (entities_of entities.now) place) }
    ensures after { OnOk result (KnownFew (entities_of entities.now) known.new) }
    ensures clear { OnOk result (reach.new.search.marks.items ≡ replicate (length entities.now) false) }
{
    if known[place] {
        return Ok(true);
    }
    few_are_found(entities, place, known, reach)
}

/// Whether a search from a place finds few functions. Where it does, so it is known of all that it reaches.
fn few_are_found(
    entities: &[Entity],
    place: usize,
    known: &mut [bool],
    reach: &mut Reach,
) -> Result<bool, NoMemory>
    requires rising { IsRising (entities_of entities.now) }
    requires circles { HasNoCircle (leads_to (entities_of entities.now)) }
    requires place { place < length entities.now }
    requires before { KnownFew (entities_of entities.now) known.old }
    requires clear { reach.old.search.marks.items ≡ replicate (length entities.now) false }
    ensures few { IfOk result (λ b. IsTrue b ↔ FewAt (entities_of entities.now) place) }
    ensures after { OnOk result (KnownFew (entities_of entities.now) known.new) }
    ensures clear { OnOk result (reach.new.search.marks.items ≡ replicate (length entities.now) false) }
{
    reach_bases(entities, place, reach)?;
    if functions_of_reached(entities, reach) > MOST {
        return Ok(false);
    }
    mark_places(reach.places.as_slice(), known);
    Ok(true)
}

/// Marks these places too.
pub fn mark_places(places: &[usize], known: &mut [bool])
    requires { AreWithin places.now (length known.old) }
    ensures { MarksMore places.now known.old known.new }
{
    for place in places {
        known[*place] = true;
    }
}
