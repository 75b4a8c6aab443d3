//! What the tokens of a UNOIDL file are, as definitions over plain lists of bytes, and the laws that hold of them.
#![tactic(auto)]

mod laws;

pub use laws::{
    a_file_has_one_list_of_tokens, a_file_has_one_verdict, a_file_is_stuck_at_one_byte,
    a_text_begins_with_one_piece, each_token_is_its_slice_of_the_file, every_file_has_its_verdict,
    length_is_judged_before_utf8_and_utf8_before_tokens, tokens_stand_one_behind_the_other,
};
