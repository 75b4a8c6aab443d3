//! What files declare.

use idl_trees::{Declaration, Id};

/// A declaration, with the numbers of the path of its modules and of its own.
#[derive(Clone, Copy)]
pub struct Declared<'a> {
    pub modules: u32,
    pub path: u32,
    pub published: bool,
    pub name: &'a Id,
    pub body: &'a Declaration,
}
