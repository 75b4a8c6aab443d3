//! Whether the names of a plan's line are known where it stands, whether all in it fits, and the statement that it is.
#![tactic(auto)]

mod arguments;
mod behaviours;
mod checker;
mod context;
mod fields;
mod fitting;
mod functions;
mod kinds;
mod known;
mod line_error;
mod scope;
mod statements;
mod typing;
mod words;

pub use behaviours::{behaviour_number, is_behaviour_known, number_of, open_behaviour};
pub use checker::Checker;
pub use context::{Block, Context, OpenBehaviour, OpenMethod};
pub use fields::Fields;
pub use functions::declared_function;
pub use kinds::type_named;
pub use line_error::LineError;
pub use scope::{Scope, Scoped};
