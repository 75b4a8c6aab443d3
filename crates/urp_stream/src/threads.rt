//! What may be sent to threads.

use crate::{Block, Blocks};

fn may_go_between_threads(blocks: &Blocks, block: &Block) {
    sent(blocks);
    shared(blocks);
    sent(block);
    shared(block);
}

fn sent<T: Send>(_: &T) {}

fn shared<T: Sync>(_: &T) {}
