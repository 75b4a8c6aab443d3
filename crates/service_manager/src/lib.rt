//! The service manager: what the name of a service creates from arguments, and the names of the services.
#![tactic(auto)]

mod arguments;
mod created;
mod creating;
mod fields;
mod names;
mod offers;

pub use created::{CreateError, Created};
pub use creating::create;
pub use names::service_names;
