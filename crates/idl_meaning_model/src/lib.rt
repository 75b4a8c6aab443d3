//! What UNOIDL files mean: their declarations, what each name stands for, the values of constants, and the entities that are declared.
#![tactic(auto)]

mod laws;

pub use laws::{a_place_has_one_fault, the_names_of_files_have_one_verdict};
