//! An endpoint of the text of a plan, if no default that it makes is nested too deep.
ghost use Rattle.std.specs.Prelude.{◌≡◌, ◌↔◌, ℕ, IfOk, Err, true};
ghost use Rattle.bridge_endpoint.specs.Journals.{opening_endpoint, setting_at};
ghost use Rattle.plan_model.specs.declared.line_reason.LineReason.{LineReason as Why};
ghost use Rattle.plan_typing.specs.Effects.{NamesDiffer};
ghost use Rattle.uno_model.specs.Sound.{IsSound};
ghost use Rattle.uno_run.specs.Plans.{IsPlan, IsRefusedPlan, IsShallow};

use bridge_endpoint::Endpoint;
use default_depths::are_defaults_shallow;
use endpoint_text::{PlanError, set_up};
use plan_model::LineReason;
use std::alloc::Global;
use uno_base::NoMemory;
use uno_types::{Registry, Tag};

/// The endpoint with this tag, in a registry, of the text of a plan. A plan of which a default is nested more than 1,024 deep is refused at line 0; so no
/// default is deeper than the stack allows to make.
pub(crate) fn shallow_end(
    alloc: Global,
    tag: Tag,
    registry: Registry,
    plan: &[u8],
) -> Result<Endpoint, PlanError>
    requires sound { IsSound registry }
    requires names { NamesDiffer registry }
    ensures tag { IfOk result (λ e. (setting_at e).tag ≡ tag) }
    ensures registry { IfOk result (λ e. (setting_at e).registry ≡ registry) }
    ensures plan { IfOk result (λ e. IsPlan registry plan.now (setting_at e).plan) }
    ensures opening { IfOk result (λ e. e ≡ opening_endpoint e.configured) }
    ensures wrong { (line : ℕ) (why : Why) → result ≡ Err (PlanError.BadLine line why) → IsRefusedPlan registry plan.now line why }
{
    match set_up(alloc, tag, registry, plan) {
        Ok(end) => if_shallow(alloc, end),
        Err(error) => Err(error),
    }
}

/// An endpoint, if its plan is shallow.
fn if_shallow(alloc: Global, end: Endpoint) -> Result<Endpoint, PlanError>
    ensures same { IfOk result (λ e. e ≡ end) }
    ensures shallow { IfOk result (λ e. IsShallow (setting_at end).registry (setting_at end).plan) }
    ensures deep { (line : ℕ) (why : Why) → result ≡ Err (PlanError.BadLine line why) → (line ≡ 0) × (why ≡ LineReason.Limit) × (¬ IsShallow (setting_at end).registry (setting_at end).plan) }
{
    match is_shallow(alloc, &end) {
        Ok(true) => Ok(end),
        Ok(false) => {
            end.close();
            Err(PlanError::BadLine(0, LineReason::Limit))
        }
        Err(NoMemory) => {
            end.close();
            Err(PlanError::NoMemory)
        }
    }
}

/// Whether the plan of an endpoint is shallow.
fn is_shallow(alloc: Global, end: &Endpoint) -> Result<bool, NoMemory>
    ensures { IfOk result (λ shallow. (shallow ≡ true) ↔ IsShallow (setting_at end.now).registry (setting_at end.now).plan) }
{
    are_defaults_shallow(alloc, end.registry())
}
