//! The reading of plans: the line that a text says, and what comes of all lines of a text, as functions, and the laws that tie them to the grammar.
#![tactic(auto)]

mod text_laws;

pub use text_laws::{
    a_text_has_one_verdict, a_text_says_one_line, the_line_is_read, the_verdict_is_read,
};
