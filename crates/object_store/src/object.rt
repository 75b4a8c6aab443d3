//! One object.

/// An object whose fields hold values of one type.
#[derive(Drop)]
pub struct Object<V> {
    pub behaviour: u32,
    pub fields: Vec<V>,
    pub may_go: bool,
}
