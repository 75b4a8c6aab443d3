//! What a UNOIDL file says, as a tree: its grammar, its limits, and the values of its expressions.
#![tactic(auto)]

mod parse_laws;
mod value_laws;

pub use parse_laws::{the_tree_is_read, tokens_have_one_tree, tokens_have_one_verdict};
pub use value_laws::{
    a_quotient_and_its_remainder_make_the_dividend, a_value_has_128_bits,
    the_first_refusal_from_left_to_right_counts,
};
