//! What of a piece was taken.

use urp_message::Reason;
use urp_stream::Block;

/// Each variant begins with how many bytes of the piece were taken.
#[derive(Drop)]
pub enum Taken {
    /// All of them; they end nothing.
    Part(usize),
    /// The last of them ends a block.
    Whole(usize, Block),
    /// The last of them ends a header that is refused.
    Refused(usize, Reason),
}
