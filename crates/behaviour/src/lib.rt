//! What a statement of a plan asks: the effect of a job, which another one carries out.
#![tactic(auto)]

mod calling;
mod comparison;
mod effect;
mod ending;
mod evaluation;
mod exceptions;
mod functions;
mod jobs;
mod leaving;
mod limits;
mod manager;
mod names;
mod operation;
mod root;
mod running;
mod statements;
mod target;
mod threads;
mod values;
mod words;

pub use calling::why_too_much;
pub use comparison::same_value;
pub use effect::{Done, Effect};
pub use exceptions::caused;
pub use functions::number_in;
pub use jobs::{effect_of_job, method_of, next};
pub use leaving::leaving_exception;
pub use root::{RootRun, root_target, root_values};
pub use running::Target;
