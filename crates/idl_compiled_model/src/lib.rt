//! What comes of UNOIDL files that are compiled together: their registry, or the one refusal that counts.
#![tactic(auto)]

mod laws;

pub use laws::{
    every_list_of_files_has_a_verdict, files_have_one_verdict, read_trees_are_of_files,
};
