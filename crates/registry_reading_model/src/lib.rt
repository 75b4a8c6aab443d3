//! The reading of a registry's text as functions over whole lists, line by line, and the laws that tie it to the printed text.
#![tactic(auto)]

mod laws;

pub use laws::{
    a_bad_line_is_none_of_a_registry, a_line_out_of_order_is_none_of_a_registry,
    a_registry_that_keeps_the_rules_breaks_none, a_text_says_one_registry,
};
