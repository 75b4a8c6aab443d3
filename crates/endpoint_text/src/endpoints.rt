//! Setting an endpoint up.
ghost use Rattle.std.specs.Prelude.{◌≡◌, ℕ, Err, IfOk, List};
ghost use Rattle.bridge_endpoint.specs.Journals.{opening_endpoint, setting_at};
ghost use Rattle.plan_model.specs.Keeps.{IsTextOf, IsVerdict};
ghost use Rattle.plan_model.specs.declared.line_reason.LineReason.{LineReason};
ghost use Rattle.plan_typing.specs.Effects.{NamesDiffer};
ghost use Rattle.registry_reading.specs.Verdicts.{IsAccepted};
ghost use Rattle.uno_model.specs.Sound.{IsSound};

use behaviour_text::{PlanError, read_plan};
use bridge_endpoint::Endpoint;
use std::alloc::Global;
use uno_base::NoMemory;
use uno_types::{Registry, Tag};

/// What is known of each registry whose text was accepted: names tell its functions and parameters apart. It does nothing.
pub fn know_names(registry: &Registry)
    ensures { (text : List ℕ) → IsAccepted text registry.now → NamesDiffer registry.now }
{
    registry.entities();
}

/// An endpoint with this tag, a registry whose text was accepted, and the plan of a text; or the first line of the text that is wrong. Nothing has happened at it.
pub fn set_up(
    alloc: Global,
    tag: Tag,
    registry: Registry,
    plan: &[u8],
) -> Result<Endpoint, PlanError>
    requires sound { IsSound registry }
    requires names { NamesDiffer registry }
    ensures tag { IfOk result (λ e. (setting_at e).tag ≡ tag) }
    ensures registry { IfOk result (λ e. (setting_at e).registry ≡ registry) }
    ensures plan { IfOk result (λ e. IsTextOf registry plan.now (setting_at e).plan) }
    ensures opening { IfOk result (λ e. e ≡ opening_endpoint e.configured) }
    ensures wrong { (n : ℕ) (why : LineReason) → result ≡ Err (PlanError.BadLine n why) → IsVerdict registry plan.now (Err (record { line = n; reason = why })) }
{
    match read_plan(alloc, &registry, plan) {
        Ok(plan) => match Endpoint::new(alloc, registry, plan, tag) {
            Ok(endpoint) => Ok(endpoint),
            Err(NoMemory) => Err(PlanError::NoMemory),
        },
        Err(error) => {
            drop(registry);
            drop(tag);
            Err(error)
        }
    }
}
