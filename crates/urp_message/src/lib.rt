//! The messages of the URP: what is said, to whom, and on which chain of calls.
#![tactic(auto)]

mod error;
mod expects;
mod flags;
mod listener;
mod message;
mod params;
mod raising;
mod remembered;
mod saying;
mod speaker;
mod weighing;

pub use error::ReadError;
pub use expects::Expects;
pub use listener::Listener;
pub use message::{Answer, Message};
pub use saying::may_be_said;
pub use speaker::Speaker;
pub use uno_types::{Tag, TagError, Tid};
pub use urp_wire::Reason;
pub use weighing::weight_of;
