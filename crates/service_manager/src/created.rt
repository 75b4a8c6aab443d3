//! What is created, and why nothing is.

use uno_base::NoMemory;
use uno_values::Value;

/// What the name of a service or a singleton creates.
#[derive(Drop)]
pub enum Created {
    /// A new object of this behaviour, with the values of its fields in their order.
    Fresh { behaviour: u32, fields: Vec<Value> },
    /// The singleton at this place among the plan's, from 0.
    Singleton(u32),
}

/// Why nothing is created.
#[derive(Clone, Copy, Debug, PartialEq, Eq)]
pub enum CreateError {
    NoMemory,
    /// The plan has no service and no singleton of that name.
    UnknownService,
    /// No constructor takes the arguments.
    BadArguments,
}

impl From<NoMemory> for CreateError {
    ghost use Rattle.std.specs.Prelude.{◌≡◌};
    ghost use Rattle.service_manager.specs.declared.created.CreateError.TheVariants as create_error;

    ghost from_gives = { λ _ e. e ≡ create_error.NoMemory };

    fn from(_: NoMemory) -> CreateError {
        CreateError::NoMemory
    }
}
