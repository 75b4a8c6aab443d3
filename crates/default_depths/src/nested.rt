//! How deep one default is nested, by what is known of those that are nested in it. A depth past 1,024 is told as 1,025.
ghost use Rattle.std.specs.Prelude.{◌≡◌, length, map};
ghost use Rattle.uno_model.specs.Registry.{find_entity, member_bases, own_members};
ghost use Rattle.uno_model.specs.Sound.{IsSound};
ghost use Rattle.uno_entities.specs.Entities.{field_of};
ghost use Rattle.uno_entities.specs.TypeNames.{kind_of};
ghost use Rattle.uno_types.specs.Members.{base_named};
ghost use Rattle.default_depths.specs.Depths.{deepest, deepest_named, depth_named, depth_of, told, tuple_in, tuples_in};
ghost use Rattle.default_depths.specs.Table.{AreKnown, IsKnown};

use uno_entities::place_in;
use uno_types::{Field, Level, Registry, TypeName};

/// How deep a default may be nested.
pub(crate) const MOST: u32 = 1024;

/// How deep the default of a struct or an exception is nested.
pub(crate) fn tuple_depth(registry: &Registry, name: &str, depths: &[u32]) -> u32
    requires sound { IsSound registry.now }
    requires long { length depths.now ≡ length registry.now }
    requires bases { AreKnown registry.now depths.now (member_bases (find_entity name.now registry.now)) }
    requires members { AreKnown registry.now depths.now (tuples_in (own_members (find_entity name.now registry.now))) }
    ensures { result ≡ told (depth_named registry.now name.now) }
{
    let Level { own, base } = registry.level(name);
    let own = deepest(registry, own, depths);
    let base = base_depth(registry, base, depths);
    base.max(own + 1).min(MOST + 1)
}

/// How deep the default of a base is nested, or 0 where there is none.
fn base_depth(registry: &Registry, base: Option<&str>, depths: &[u32]) -> u32
    requires sound { IsSound registry.now }
    requires long { length depths.now ≡ length registry.now }
    requires known { AreKnown registry.now depths.now (base_named base) }
    ensures { result ≡ told (deepest_named registry.now (base_named base.entry)) }
{
    match base {
        Some(name) => named_depth(registry, name, depths),
        None => 0,
    }
}

/// The greatest depth among the defaults of members, or 0 where there are none.
pub(crate) fn deepest(registry: &Registry, members: &[Field], depths: &[u32]) -> u32
    requires sound { IsSound registry.now }
    requires long { length depths.now ≡ length registry.now }
    requires known { AreKnown registry.now depths.now (tuples_in (map field_of members.now)) }
    ensures { result ≡ told (deepest registry.now (map field_of members.now)) }
{
    let mut deepest: u32 = 0;
    for member in members {
        deepest = deepest.max(kind_depth(registry, &member.kind, depths));
    }
    deepest
}

/// How deep the default of a type is nested.
#[tactic(auto, unfolding(uno_model::specs::Defaults::default_of_kind, uno_model::specs::Defaults::default_within, uno_model::specs::Values::depth, crate::specs::Depths::depth_of, crate::specs::Depths::told))]
fn kind_depth(registry: &Registry, kind: &TypeName, depths: &[u32]) -> u32
    requires sound { IsSound registry.now }
    requires long { length depths.now ≡ length registry.now }
    requires known { AreKnown registry.now depths.now (tuple_in (kind_of kind.now)) }
    ensures { result ≡ told (depth_of registry.now (kind_of kind.now)) }
{
    match kind {
        TypeName::Struct(name) => named_depth(registry, name.as_str(), depths),
        TypeName::Exception(name) => named_depth(registry, name.as_str(), depths),
        TypeName::Any => 2,
        TypeName::Sequence(_) => 1,
        TypeName::Void
        | TypeName::Char
        | TypeName::Boolean
        | TypeName::Byte
        | TypeName::Short
        | TypeName::UnsignedShort
        | TypeName::Long
        | TypeName::UnsignedLong
        | TypeName::Hyper
        | TypeName::UnsignedHyper
        | TypeName::Str
        | TypeName::Kind
        | TypeName::Enum(_)
        | TypeName::Interface(_) => 1,
    }
}

/// How deep the default of the struct or the exception of a name is nested. What is not there has no members.
fn named_depth(registry: &Registry, name: &str, depths: &[u32]) -> u32
    requires sound { IsSound registry.now }
    requires long { length depths.now ≡ length registry.now }
    requires known { IsKnown registry.now depths.now name.now }
    ensures { result ≡ told (depth_named registry.now name.now) }
{
    match place_in(registry.entities(), name) {
        Ok(place) => depths[place],
        Err(_) => 1,
    }
}
