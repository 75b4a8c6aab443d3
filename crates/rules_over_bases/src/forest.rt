//! An order in which what stands on one entity alone comes behind that one, with nothing in between but what stands on the same one. No promise
//! rests on this order, only the time that a walk takes.
ghost use Rattle.std.specs.Prelude.{◌≡◌, ◌<◌, length, IfOk};
ghost use Rattle.uno_model.specs.Registry.{IsRising};
ghost use Rattle.uno_entities.specs.Entities.{entities_of};
ghost use Rattle.rules_over_bases.specs.Standing.{IsWithin};

use crate::standing::{Standing, standing_of};
use std::alloc::Global;
use uno_base::NoMemory;
use uno_entities::{Entity, all_bases};

/// The first that stands on an entity alone, and the next beside the entity itself.
#[derive(Clone, Copy)]
struct Links {
    first: Option<usize>,
    next: Option<usize>,
}

/// What stands on no other alone is linked from the root.
#[derive(Drop)]
struct Forest {
    root: Option<usize>,
    links: Vec<Links>,
}

/// The places of all entities in that order.
pub fn bases_first(alloc: Global, entities: &[Entity]) -> Result<Vec<usize>, NoMemory>
    requires { IsRising (entities_of entities.now) }
{
    let forest = forest_of(alloc, entities)?;
    let mut order = Vec::new(alloc);
    let mut pending = Vec::new(alloc);
    push_link(&mut pending, forest.root)?;
    for _ in 0..entities.len() {
        let Some(place) = pending.pop() else {
            return Ok(order);
        };
        order.push(place)?;
        push_links(&mut pending, &forest, place)?;
    }
    Ok(order)
}

fn push_links(pending: &mut Vec<usize>, forest: &Forest, place: usize) -> Result<(), NoMemory> {
    let Some(links) = forest.links.get(place) else {
        return Ok(());
    };
    push_link(pending, links.next)?;
    push_link(pending, links.first)
}

fn push_link(pending: &mut Vec<usize>, link: Option<usize>) -> Result<(), NoMemory> {
    let Some(place) = link else {
        return Ok(());
    };
    pending.push(place)?;
    Ok(())
}

fn forest_of(alloc: Global, entities: &[Entity]) -> Result<Forest, NoMemory>
    requires { IsRising (entities_of entities.now) }
{
    let alone = Links {
        first: None,
        next: None,
    };
    let mut links = vec![in alloc; alone; entities.len()]?;
    let mut root = None;
    for place in 0..entities.len() {
        let standing = standing_of(entities, &entities[place]);
        root = plant(links.as_mut_slice(), root, place, standing);
    }
    Ok(Forest { root, links })
}

/// Links the entity at a place from the one on which it stands alone, or from the root. The answer is the root's link.
fn plant(
    links: &mut [Links],
    root: Option<usize>,
    place: usize,
    standing: Standing,
) -> Option<usize>
    requires place { place < length links.old }
    requires base { IsWithin (length links.old) standing }
    ensures { length links.new ≡ length links.old }
{
    match standing {
        Standing::OnOne(base) => {
            links[place].next = links[base].first;
            links[base].first = Some(place);
            root
        }
        Standing::OnNone | Standing::Otherwise => {
            links[place].next = root;
            Some(place)
        }
    }
}

/// Marks at the entities from which a way leads up to one on which nothing stands, where each stands on the one before it alone.
pub(crate) fn under_tops(
    alloc: Global,
    entities: &[Entity],
    order: &[usize],
) -> Result<Vec<bool>, NoMemory>
    requires { IsRising (entities_of entities.now) }
    ensures { IfOk result (λ marks. length marks.items ≡ length entities.now) }
{
    let bases = all_bases(alloc, entities)?;
    let mut marks = vec![in alloc; false; entities.len()]?;
    for index in (0..order.len()).rev() {
        mark_under_top(
            entities,
            order[index],
            bases.as_slice(),
            marks.as_mut_slice(),
        );
    }
    Ok(marks)
}

/// Marks the entity at a place, if nothing stands on it, and the one on which it stands alone, if it is marked itself.
fn mark_under_top(entities: &[Entity], place: usize, bases: &[bool], marks: &mut [bool])
    requires rising { IsRising (entities_of entities.now) }
    requires bases { length bases.now ≡ length entities.now }
    requires marks { length marks.old ≡ length entities.now }
    ensures { length marks.new ≡ length marks.old }
{
    if place >= entities.len() {
        return;
    }
    if bases[place] && !marks[place] {
        return;
    }
    marks[place] = true;
    if let Standing::OnOne(base) = standing_of(entities, &entities[place]) {
        marks[base] = true;
    }
}
