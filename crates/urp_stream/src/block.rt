//! A block of a stream.

/// A block (URP specification, blocks): how many messages its body holds, and the place of its first byte, counted from 0 in all bytes
/// of the stream.
#[derive(Drop)]
pub struct Block {
    pub place: u64,
    pub count: u32,
    pub body: Vec<u8>,
}
