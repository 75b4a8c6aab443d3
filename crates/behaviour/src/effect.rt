//! What a statement can ask.

use plan_types::{Job, Variable};
use uno_types::{Name, Text};
use uno_values::{AnyValue, Reference, Value};

/// What the statement of a job asks, or how its frame ends.
#[derive(Drop)]
pub enum Effect {
    /// A variable begins.
    Lets(Variable),
    /// A variable gets another value.
    Sets(Variable),
    /// A field of the own object gets another value.
    SetsField(Variable),
    /// A variable goes.
    Drops(Name),
    Skips,
    /// A call of a function by its number in the table of the target's interface, with the values that go with it, and the variable that the result
    /// becomes, where it is named. The number is past the table where the function is none of it.
    Calls {
        target: Reference,
        function: u32,
        args: Vec<Value>,
        to: Option<Name>,
    },
    /// A query, and the variable that its answer becomes.
    Queries {
        target: Reference,
        wanted: Name,
        to: Name,
    },
    /// A new object of a behaviour, held under an interface, which becomes a variable.
    Makes {
        behaviour: u32,
        face: Name,
        to: Name,
    },
    /// The end of the bridge.
    Disposes,
    /// What the service manager is asked to make, and from what.
    Creates {
        name: Text,
        args: Vec<Value>,
    },
    /// The frame ends: what is returned, and the values of the parameters that come out.
    Returns {
        value: Value,
        outs: Vec<Value>,
    },
    /// The frame ends with an exception.
    Raises(AnyValue),
}

/// A job, and its effect.
#[derive(Drop)]
pub struct Done {
    pub job: Job,
    pub effect: Effect,
}
