//! Whether a root may give what a statement gives.
ghost use Rattle.std.specs.Prelude.{◌≡◌, ◌≢◌, ◌↔◌, ℕ, IsTrue, List, map, slice_get};
ghost use Rattle.bridge_model.specs.Calls.{query_args};
ghost use Rattle.bridge_model.specs.Entries as entry;
ghost use Rattle.bridge_model.specs.Settings.{Setting, root_tid};
ghost use Rattle.bridge_laws.specs.Giving.{MayBeCalled, MayGive};
ghost use Rattle.message_model.specs.Calls.{argument_kinds, goes, kinds_on};
ghost use Rattle.message_model.specs.Messages.{request};
ghost use Rattle.message_model.specs.Sayable.{IsThread, MayBeSaid};
ghost use Rattle.plan_model.specs.Plans.{manager};
ghost use Rattle.plan_typing.specs.Effects.{MakingFits};
ghost use Rattle.plan_types.specs.Plans.{plan_of};
ghost use Rattle.type_registry.specs.Functions.{lent_function};
ghost use Rattle.type_registry.specs.Own.{one_or_none};
ghost use Rattle.uno_model.specs.BuiltIn.{HasBuiltIn};
ghost use Rattle.uno_model.specs.Fits.{FitEach};
ghost use Rattle.uno_model.specs.Sound.{IsSound};
ghost use Rattle.uno_values.specs.Values.{plain_of, plains_of};
ghost use Rattle.bridge_core.specs.Giving.{kind_or_none};

use crate::naming::is_export_name;
use bridge_setting::supports;
use plan_types::Plan;
use type_registry::{FunctionRef, function_numbered};
use uno_types::{Name, Registry, Text, TypeName, Way};
use uno_values::{Value, fits};

/// The first function of an interface behind the three that each one has, which are no calls like others.
const FIRST_CALL: u16 = 3;

/// The number that stands for the service manager in the place of a behaviour's.
const MANAGER: u32 = 256;

/// The interface under which the peer is asked for a name.
pub const X_INTERFACE: &str = "com.sun.star.uno.XInterface";

/// Whether a root may ask the peer for a name: it has the form of an export's, and what is asked is a query of `X_INTERFACE`.
pub fn may_ask(registry: &Registry, name: &Text, wanted: &Name) -> bool
    requires sound { IsSound registry.now }
    requires built_in { HasBuiltIn registry.now }
    ensures { (g : Setting) (root : ℕ) → g.registry ≡ registry.now → IsThread (root_tid g root) → (IsTrue result ↔ MayGive g (entry.asked root name.now wanted.now)) }
{
    if !is_export_name(name.as_str()) {
        return false;
    }
    may_query(registry, name, X_INTERFACE, wanted)
}

/// Whether a root may ask an object for an interface.
pub fn may_query(registry: &Registry, oid: &Text, face: &str, wanted: &Name) -> bool
    requires sound { IsSound registry.now }
    requires built_in { HasBuiltIn registry.now }
    ensures { (tid : List ℕ) → IsThread tid → (IsTrue result ↔ MayBeSaid registry.now (request tid oid.now face.now 0 (query_args wanted.now))) }
{
    if !oid.is_identity() {
        return false;
    }
    if !registry.has_interface(face) {
        return false;
    }
    registry.has_interface(wanted.as_str())
}

/// Whether a root may call this function with these arguments, as far as the registry tells: what a call weighs and how deep its arguments are nested, it tests itself.
pub fn may_call(registry: &Registry, oid: &Text, face: &Name, number: u16, args: &[Value]) -> bool
    requires { IsSound registry.now }
    ensures { (g : Setting) (root : ℕ) → g.registry ≡ registry.now → IsThread (root_tid g root) → (IsTrue result ↔ MayBeCalled g root oid.now face.now number (map plain_of args.now)) }
{
    if !oid.is_identity() {
        return false;
    }
    if number < FIRST_CALL {
        return false;
    }
    if !registry.has_interface(face.as_str()) {
        return false;
    }
    let Some(function) = function_numbered(registry, face.as_str(), number) else {
        return false;
    };
    arguments_fit(registry, &function, args)
}

/// Whether values fit the parameters of a function that go with a call.
fn arguments_fit(registry: &Registry, function: &FunctionRef, args: &[Value]) -> bool
    requires { IsSound registry.now }
    ensures { IsTrue result ↔ FitEach registry.now (plains_of args.now) (argument_kinds (lent_function function.now)) }
{
    let mut rest = args;
    for place in 0..function.param_count() {
        let Some(kind) = given_kind(function, place) else {
            continue;
        };
        let Some((value, behind)) = rest.split_first() else {
            return false;
        };
        if !fits(registry, value, kind) {
            return false;
        }
        rest = behind;
    }
    rest.is_empty()
}

/// The type of the parameter at a place, where its value goes with a call.
#[tactic(auto, unfolding(message_model::specs::Calls::kinds_on))]
fn given_kind<'a>(function: &FunctionRef<'a>, place: usize) -> Option<&'a TypeName>
    ensures { kind_or_none result ≡ kinds_on goes (one_or_none (slice_get (lent_function function.now).params place)) }
{
    let param = function.param(place)?;
    if !goes(param.way) {
        return None;
    }
    Some(param.kind)
}

/// Whether a parameter's value goes with the call.
fn goes(way: Way) -> bool
    ensures { result ≡ goes way }
{
    match way {
        Way::Into | Way::Both => true,
        Way::Out => false,
    }
}

/// Whether a root may make an object of a behaviour, which it holds under an interface.
pub fn may_make(registry: &Registry, plan: &Plan, behaviour: u32, wanted: &Name) -> bool
    requires { IsSound registry.now }
    ensures { IsTrue result ↔ ((behaviour ≢ manager) × MakingFits registry.now (plan_of plan.now) behaviour wanted.now) }
{
    if behaviour == MANAGER {
        return false;
    }
    if !registry.has_interface(wanted.as_str()) {
        return false;
    }
    supports(registry, plan, behaviour, wanted.as_str())
}
