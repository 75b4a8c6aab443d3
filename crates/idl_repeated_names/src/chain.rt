//! A struct or an exception, and all on which it stands.
ghost use Rattle.std.specs.Prelude.{◌≡◌, ◌++◌, ◌∷◌, [], IfOk, MatchOption, OnOk, Some, reverse};
ghost use Rattle.idl_repeated_names.specs.Over.{chain_of};
ghost use Rattle.type_registry.specs.Met.{names_at};
ghost use Rattle.uno_entities.specs.Entities.{entity_of};
ghost use Rattle.uno_model.specs.Registry.{at_most_one, find_entity, member_bases};

use std::alloc::Global;
use uno_base::NoMemory;
use uno_types::{Body, Entity, Name, Registry};

/// The names of all of them, the last base first.
pub(crate) fn chain_of<'a>(
    alloc: Global,
    registry: &'a Registry,
    name: &'a str,
) -> Result<Vec<&'a str>, NoMemory>
    ensures { IfOk result (λ chain. names_at chain.items ≡ chain_of registry.now name.now) }
{
    let mut chain = Vec::new(alloc);
    push_chain(registry, name, &mut chain)?;
    chain.reverse();
    Ok(chain)
}

/// The last base last.
fn push_chain<'a>(
    registry: &'a Registry,
    name: &'a str,
    chain: &mut Vec<&'a str>,
) -> Result<(), NoMemory>
    ensures { OnOk result (reverse (names_at chain.new.items) ≡ chain_of registry.now name.now ++ reverse (names_at chain.old.items)) }
{
    chain.push(name)?;
    let mut last = name;
    let mut levels = registry.entities().len();
    while levels > 0 {
        let Some(base) = base_of(registry, last) else {
            return Ok(());
        };
        chain.push(base)?;
        last = base;
        levels -= 1;
    }
    Ok(())
}

/// The base of the struct or exception of a name.
pub(crate) fn base_of<'a>(registry: &'a Registry, name: &str) -> Option<&'a str>
    ensures { MatchOption result (member_bases (find_entity name.now registry.now) ≡ []) (λ n. member_bases (find_entity name.now registry.now) ≡ n.now ∷ []) }
{
    match registry.find(name) {
        Some(entity) => base_in(entity),
        None => None,
    }
}

fn base_in(entity: &Entity) -> Option<&str>
    ensures { MatchOption result (member_bases (Some (entity_of entity.now)) ≡ []) (λ n. member_bases (Some (entity_of entity.now)) ≡ n.now ∷ []) }
{
    match &entity.body {
        Body::Struct { base, .. } => name_in(base),
        Body::Exception { base, .. } => name_in(base),
        Body::Interface { .. } => None,
        Body::Enum { .. } => None,
        Body::Constants { .. } => None,
        Body::Typedef { .. } => None,
        Body::Service(_) => None,
        Body::Singleton(_) => None,
    }
}

fn name_in(base: &Option<Name>) -> Option<&str>
    ensures { MatchOption result (at_most_one base.now ≡ []) (λ n. at_most_one base.now ≡ n.now ∷ []) }
{
    match base {
        Some(name) => Some(name.as_str()),
        None => None,
    }
}
