//! Where a declaration of UNOIDL breaks the rules.
#![tactic(auto)]

mod bases;
mod named;
mod one_way;
mod places;
mod raised;
mod services;
mod singletons;
mod types;
mod values;

pub use bases::add_wrong_bases;
pub use one_way::add_giving_one_way;
pub use places::{add_place, add_unless, is_before, least};
pub use raised::{add_wrong_raises, is_read_only};
pub use services::add_wrong_parts;
pub use singletons::add_wrong_targets;
pub use types::add_wrong_types;
pub use values::{add_wrong_constants, add_wrong_items};
