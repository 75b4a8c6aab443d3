//! The texts of a registry, as definitions: its lines, the rules that it keeps, and its canonical UNOIDL; and laws that hold of them.
#![tactic(auto)]

mod laws;

pub use laws::{a_registry_that_keeps_the_rules_is_sound, the_lines_of_a_registry_are_in_order};
