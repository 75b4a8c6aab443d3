//! The values of a request or a reply, one after the other.
ghost use Rattle.std.specs.Prelude.{◌≡◌, map};
ghost use Rattle.message_model.specs.Calls.{kinds_on};
ghost use Rattle.uno_model.specs.Sound.{IsSound};
ghost use Rattle.type_registry.specs.Functions.{lent_function};
ghost use Rattle.uno_values.specs.Values.{plain_of};
ghost use Rattle.urp_message.specs.Params.{carries};
ghost use Rattle.urp_model.specs.Reading.{members_at, value_at};
ghost use Rattle.urp_wire.specs.Gives.{Gives, tables_of};

use crate::params::{Phase, carried_kind};
use std::alloc::Global;
use type_registry::FunctionRef;
use uno_types::Registry;
use uno_values::Value;
use urp_cache::ReadCaches;
use urp_wire::{WireError, read_value_within};

/// How many levels of a value may stand in one another.
pub(crate) const MOST_LEVELS: u32 = 64;

/// The values that a request or a reply carries for the parameters of a function, in order.
pub(crate) fn parameter_values<'a>(
    alloc: Global,
    registry: &Registry,
    phase: Phase,
    function: &FunctionRef,
    caches: &mut ReadCaches,
    bytes: &'a [u8],
) -> Result<(Vec<Value>, &'a [u8]), WireError>
    requires { IsSound registry.now }
    ensures { Gives (λ x. (map plain_of x.0.items, tables_of caches.new, x.1.now)) result
        (members_at (value_at 64 registry.now) (kinds_on (carries phase) (lent_function function.now).params) (tables_of caches.old) bytes.now) }
{
    let mut values = Vec::new(alloc);
    let mut rest = bytes;
    for place in 0..function.param_count() {
        let Some(kind) = carried_kind(phase, function, place) else {
            continue;
        };
        let (value, behind) = read_value_within(alloc, registry, caches, kind, MOST_LEVELS, rest)?;
        values.push(value)?;
        rest = behind;
    }
    Ok((values, rest))
}
