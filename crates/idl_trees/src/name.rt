//! Names as they are declared and as they are used.

use crate::Place;
use uno_entities::Name;

/// A name that is declared, and where it stands.
#[derive(Drop)]
pub struct Id {
    pub name: Name,
    pub place: Place,
}

/// A name that is used: one identifier or more, from the outermost module where `::` stands before them. Its place is that of its
/// first token, which may be the `::`.
#[derive(Drop)]
pub struct Path {
    pub place: Place,
    pub absolute: bool,
    pub parts: Vec<Name>,
}
