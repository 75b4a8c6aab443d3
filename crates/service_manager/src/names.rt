//! The names of the services.
ghost use Rattle.std.specs.Prelude.{◌≡◌, ℕ, List, [], ◌∷◌, ◌++◌, map, IfOk, OnOk};
ghost use Rattle.std.specs.List.{filter, list_any};
ghost use Rattle.std.specs.BTreeSet.{contains_text};
ghost use Rattle.plan_model.specs.Services.{service_names, has_name};
ghost use Rattle.plan_types.specs.Plans.{plan_of, offer_of};

use plan_types::{Offer, Plan};
use std::alloc::Global;
use std::collections::BTreeSet;
use uno_base::NoMemory;
use uno_types::{Entity, Name, Registry, Text};

/// The names of the entities that the plan has services for, in the registry's order.
pub fn service_names(alloc: Global, plan: &Plan, registry: &Registry) -> Result<Vec<Text>, NoMemory>
    ensures { IfOk result (λ names. names.items ≡ service_names registry.now (plan_of plan.now)) }
{
    let offered = names_of(alloc, &plan.services)?;
    names_among(alloc, registry.entities(), &offered)
}

/// The names of services, found by a search.
fn names_of(alloc: Global, services: &[Offer]) -> Result<BTreeSet<String>, NoMemory>
    ensures { IfOk result (λ names. (q : List ℕ) → contains_text names q ≡ list_any (has_name q) (map offer_of services.now)) }
{
    let mut names = BTreeSet::new(alloc);
    for service in services {
        names.insert(String::from_str(alloc, service.name.as_str())?)?;
    }
    Ok(names)
}

/// The names of entities that are among the offered ones.
fn names_among(
    alloc: Global,
    entities: &[Entity],
    offered: &BTreeSet<String>,
) -> Result<Vec<Text>, NoMemory>
    ensures { IfOk result (λ names. names.items ≡ filter (contains_text offered.now) (map (λ e. e.name) entities.now)) }
{
    let mut names = Vec::new(alloc);
    for entity in entities {
        push_if_offered(alloc, &mut names, &entity.name, offered)?;
    }
    Ok(names)
}

/// Adds a name, if it is among the offered ones.
fn push_if_offered(
    alloc: Global,
    names: &mut Vec<Text>,
    name: &Name,
    offered: &BTreeSet<String>,
) -> Result<(), NoMemory>
    ensures { OnOk result (names.new.items ≡ names.old.items ++ filter (contains_text offered.now) (name.now ∷ [])) }
{
    if !offered.contains(name.as_str()) {
        return Ok(());
    }
    names.push(Text::of(alloc, name.as_str())?)?;
    Ok(())
}
