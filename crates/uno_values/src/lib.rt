//! The values of UNO: what fits a type, its default, the references in a value, and its weight on the wire.
#![tactic(auto)]

mod copy;
mod default;
mod depth;
mod fitting;
mod reference;
mod references;
mod spellable;
mod threads;
mod value;
mod weigh;

pub use copy::copy_all;
pub use default::default_of;
pub use depth::depth_of;
pub use fitting::fits;
pub use reference::Reference;
pub use references::refs_of;
pub use spellable::every_value_is_spellable;
pub use value::{AnyValue, Value};
pub use weigh::{any_weight, weight, weights};
