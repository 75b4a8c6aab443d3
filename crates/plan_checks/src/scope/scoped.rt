//! A variable that is known.

use uno_types::{Name, TypeName};

/// A variable, its type, and whether it is a parameter whose value comes out.
#[derive(Drop)]
pub struct Scoped {
    pub name: Name,
    pub kind: TypeName,
    pub comes_out: bool,
}
