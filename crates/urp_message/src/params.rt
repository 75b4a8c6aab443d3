//! The parameters whose values a request carries, and those whose values a reply carries (Developer's Guide, methods).
ghost use Rattle.std.specs.Prelude.{◌≡◌, slice_get};
ghost use Rattle.message_model.specs.Calls.{kinds_on};
ghost use Rattle.type_registry.specs.Functions.{lent_function, lent_param};
ghost use Rattle.type_registry.specs.Own.{one_or_none};
ghost use Rattle.urp_message.specs.Params.{carries, kind_or_none};

use type_registry::FunctionRef;
use uno_types::{TypeName, Way};

/// A request or the reply to it.
#[derive(Clone, Copy)]
pub(crate) enum Phase {
    Request,
    Reply,
}

/// Whether the value of a parameter goes with the request, or comes with the reply.
fn carries(phase: Phase, way: Way) -> bool
    ensures { result ≡ carries phase way }
{
    match phase {
        Phase::Request => matches!(way, Way::Into | Way::Both),
        Phase::Reply => matches!(way, Way::Out | Way::Both),
    }
}

/// The type of the parameter at a place, where a request or a reply carries its value.
#[tactic(auto, unfolding(message_model::specs::Calls::kinds_on))]
pub(crate) fn carried_kind<'a>(
    phase: Phase,
    function: &FunctionRef<'a>,
    place: usize,
) -> Option<&'a TypeName>
    ensures { kind_or_none result ≡ kinds_on (carries phase) (one_or_none (slice_get (lent_function function.now).params place)) }
{
    let param = function.param(place)?;
    if !carries(phase, param.way) {
        return None;
    }
    Some(param.kind)
}
