//! The rules of a registry: of each, the first entity that breaks it.
#![tactic(auto)]

mod circles;
mod first;
mod one_way;
mod raised;
mod services;
mod values;

pub use circles::{first_on_a_circle, graph_of_places};
pub use first::{
    first_out_of_range, first_two_way, first_with_wrong_base, first_with_wrong_parts,
    first_with_wrong_raises, first_with_wrong_types, first_without_target,
};
