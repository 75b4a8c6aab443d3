//! The bytes that a row of runs names.
//!
//! A line of the file `blocks` has a name and the bytes of a block, spelled as in rows of texts. A name that none of its lines has stands for
//! itself.

use crate::spelling::{bytes_of, push_spread};
use std::alloc::Global;

/// The bytes of the blocks that are named, one behind the other, and behind them a text.
pub(crate) fn bytes_named(alloc: Global, blocks: &str, names: &str, text: &str) -> Vec<u8> {
    let mut bytes = Vec::new(alloc);
    for name in names.split(' ') {
        push_block(&mut bytes, block_of(blocks, name));
    }
    bytes.extend_from_slice(text.as_bytes()).ok();
    bytes
}

/// What the line of a name says.
fn block_of<'a>(blocks: &'a str, name: &'a str) -> &'a str {
    for line in blocks.lines() {
        if let Some((first, block)) = line.split_once(' ') {
            if first == name {
                return block;
            }
        }
    }
    name
}

fn push_block(to: &mut Vec<u8>, block: &str) {
    let alloc = *to.allocator();
    let mut spread = String::new(alloc);
    push_spread(&mut spread, block);
    to.extend_from_slice(&bytes_of(alloc, &spread)).ok();
}
