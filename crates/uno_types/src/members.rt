//! The members of structs and exceptions, those of their bases before their own.
ghost use Rattle.std.specs.Prelude.{◌≡◌, [], None, ◌≤◌, ◌<◌, ◌^◌, ◌↔◌, length, map, IfSome, IsNone, MatchOption, Some, slice_get};
ghost use Rattle.uno_model.specs.Registry.{find_entity, at_most_one, members_within, all_members};
ghost use Rattle.uno_entities.specs.Entities.{field_of, entity_of};
ghost use Rattle.uno_types.specs.Members.{IsLevel, base_named};

use crate::{Body, Entity, Field, Name, Registry};

/// One level of bases: the members that are declared there, and the name of the next level.
pub struct Level<'a> {
    pub own: &'a [Field],
    pub base: Option<&'a str>,
}

impl Registry {
    /// The member of a struct or an exception at a place; a name that is neither has none.
    pub fn member(&self, name: &str, place: u32) -> Option<&Field>
        ensures absent { IsNone result ↔ (length (all_members self.now name.now) ≤ place) }
        ensures found { IfSome result (λ f. slice_get (all_members self.now name.now) place ≡ Some (field_of f.now)) }
    {
        let levels = self.entities().len() as u128 + 1;
        let count = count_within(self, name, levels);
        if count <= place as u128 {
            return None;
        }
        member_within(self, name, levels, count, place)
    }

    /// The level of bases that a name stands at: what it declares itself, and its base. A name that is neither a struct nor an
    /// exception has neither.
    pub fn level(&self, name: &str) -> Level<'_>
        ensures { IsLevel result (find_entity name.now self.now) }
    {
        match self.find(name) {
            Some(entity) => level_of(entity),
            None => no_level(),
        }
    }
}

/// How many members a name has over so many levels of bases.
fn count_within(registry: &Registry, name: &str, levels: u128) -> u128
    requires { levels ≤ 2 ^ 64 }
    ensures { result ≡ length (members_within levels registry.now name.now) }
{
    let mut at = name;
    let mut left = levels;
    let mut count: u128 = 0;
    while left > 0 {
        let Level { own, base } = registry.level(at);
        count += own.len() as u128;
        let Some(base) = base else { return count };
        at = base;
        left -= 1;
    }
    count
}

/// The member at a place, where there are so many over so many levels of bases.
fn member_within<'a>(
    registry: &'a Registry,
    name: &str,
    levels: u128,
    count: u128,
    place: u32,
) -> Option<&'a Field>
    requires all { count ≡ length (members_within levels registry.now name.now) }
    requires within { place < count }
    ensures { MatchOption result ⊥ (λ f. slice_get (members_within levels registry.now name.now) place ≡ Some (field_of f.now)) }
{
    let mut at = name;
    let mut left = levels;
    let mut end = count;
    while left > 0 {
        let Level { own, base } = registry.level(at);
        let before = end - own.len() as u128;
        if before <= place as u128 {
            return own.get((place as u128 - before) as usize);
        }
        at = base?;
        end = before;
        left -= 1;
    }
    None
}

/// What a struct or an exception declares, and the name that it has more members from.
fn level_of(entity: &Entity) -> Level<'_>
    ensures { IsLevel result (Some (entity_of entity.now)) }
{
    match &entity.body {
        Body::Struct { base, members } | Body::Exception { base, members } => Level {
            own: members.as_slice(),
            base: text_of(base),
        },
        _ => no_level(),
    }
}

/// The level of a name that has neither members nor a base.
fn no_level<'a>() -> Level<'a>
    ensures own { result.own.now ≡ [] }
    ensures base { result.base ≡ None }
{
    Level {
        own: &[],
        base: None,
    }
}

fn text_of(name: &Option<Name>) -> Option<&str>
    ensures { base_named result ≡ at_most_one name.now }
{
    Some(name.as_ref()?.as_str())
}
