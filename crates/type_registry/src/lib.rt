//! The functions of interfaces, in the order of their numbers.
#![tactic(auto)]

mod bases;
mod frames;
mod function;
mod in_line;
mod met;
mod numbered;
mod own;
mod table;
mod threads;
mod walk;

pub use function::{Function, FunctionRef, ParamRef};
pub use met::Met;
pub use numbered::function_numbered;
pub use table::{TableError, function_table};
pub use walk::interfaces_of;
