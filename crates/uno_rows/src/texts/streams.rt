//! Bytes that come in pieces.

use crate::spelling::bytes_of;
use crate::texts::answer::Answer;
use std::alloc::Global;
use urp_stream::{Block, Blocks};

/// `stream PIECE PIECE ..`: of each piece how many bytes are taken, or why it is refused; the place that is then reached, how many
/// bytes are held, and the block that is then given, if one is.
pub(crate) fn stream(alloc: Global, row: &str, answer: &mut Answer) {
    let mut blocks = Blocks::new(alloc);
    for piece in row.split(' ') {
        feed(&mut blocks, &bytes_of(alloc, piece), answer);
        put_block(blocks.next_block(), answer);
    }
}

/// A stream that holds a block or has come to place 100 takes no more, and no piece of 100 bytes.
fn feed(blocks: &mut Blocks, piece: &[u8], answer: &mut Answer) {
    if blocks.holds_block() {
        return answer.word("not taken");
    }
    if blocks.place() > 99 || blocks.rest() > 99 || piece.len() > 99 {
        return answer.word("too far");
    }
    answer.show(&blocks.feed(piece));
    answer.show(&blocks.place());
    answer.show(&blocks.rest());
}

fn put_block(given: Option<Block>, answer: &mut Answer) {
    if let Some(block) = given {
        answer.word("block");
        answer.show(&block.place);
        answer.show(&block.count);
        answer.word("");
        answer.put(&block.body);
    }
}
