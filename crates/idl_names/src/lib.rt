//! What UNOIDL files declare, and which names they use.
#![tactic(auto)]

mod collecting;
mod declaration;
mod error;
mod fault;
mod floats;
mod forward;
mod least;
mod lookup;
mod marks;
mod opening;
mod paths;
mod refused;
mod resolving;
mod tables;
mod telling;
mod twice;
mod used;

pub use collecting::{Collected, collect};
pub use declaration::Declared;
pub use error::NameError;
pub use fault::{Fault, NameFault, earliest};
pub use floats::floats_in;
pub use opening::Opened;
pub use paths::{OUTERMOST, Paths};
pub use refused::add_refused_types;
pub use resolving::{Resolved, resolve};
pub use used::{Used, names_in, used_in};
