//! A stream of bytes as blocks.
#![tactic(auto)]

mod block;
mod blocks;
mod error;
mod header;
mod laws;
mod threads;

pub use block::Block;
pub use blocks::Blocks;
pub use error::StreamError;
pub use laws::{
    a_feed_takes_one_number_of_bytes, a_header_is_refused_at_its_eighth_byte,
    blocks_with_nothing_behind_them_stand, bytes_stand_as_blocks_or_break,
    bytes_stand_as_one_list_of_blocks, bytes_that_break_stand_as_no_blocks,
    later_bytes_change_no_block, refusals_say_that_the_bytes_break, runs_give_what_they_took,
    runs_that_took_the_same_bytes_agree,
};
