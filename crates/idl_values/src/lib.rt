//! The values of constants and items of UNOIDL files whose names are resolved.
#![tactic(auto)]

mod expression;
mod graph;
mod keyed;
mod origins;
mod table;
mod told;
mod working;

pub use graph::value_graph;
pub use origins::{Origin, declared_origins};
pub use table::first_places;
pub use told::{Told, places_told};
pub use working::values;
