//! The top call: what the command's words ask, over the outside that is handed in.
#![tactic(auto)]

mod compile;
mod drill;
mod drill_plans;
mod files;
mod idl;
mod joining;
mod laws;
mod lines;
mod own;
mod pair;
mod reason;
mod running;
mod serving;
mod setting_up;
mod shallow;
mod status;
mod top;

pub use laws::{
    a_run_that_nothing_hinders_compiles_its_files,
    a_run_that_nothing_hinders_ends_as_the_order_of_work, an_input_ends_in_one_way,
    the_order_of_work_has_one_end, what_compile_writes_is_read_as_that_registry,
};
pub use lines::report;
pub use reason::RegistryReason;
pub use status::Status;
pub use top::run;
