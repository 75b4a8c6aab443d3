//! Types as they are written.

ghost use Rattle.std.specs.Prelude.{◌≡◌};
ghost use Rattle.idl_trees.specs.Names.{place_of};
ghost use Rattle.idl_trees.specs.Types.{type_of, place_in};

use crate::{Path, Place};

/// A simple type, by its words.
#[derive(Clone, Copy)]
pub enum Simple {
    Void,
    Char,
    Boolean,
    Byte,
    Short,
    UnsignedShort,
    Long,
    UnsignedLong,
    Hyper,
    UnsignedHyper,
    Float,
    Double,
    Str,
    Kind,
    Any,
}

/// A type, with the place of its first token.
pub enum WrittenType {
    Simple(Place, Simple),
    Named(Path),
    SequenceOf(Place, Box<WrittenType>),
}

impl Drop for WrittenType {
    /// Goes over the sequences in a loop.
    fn drop(mut self) {
        loop {
            match self {
                WrittenType::Simple(_, _) => return,
                WrittenType::Named(path) => {
                    drop(path);
                    return;
                }
                WrittenType::SequenceOf(_, inner) => self = Box::into_inner(inner),
            }
        }
    }
}

impl WrittenType {
    /// The place of its first token.
    pub fn place(&self) -> Place
        ensures { place_of result ≡ place_in (type_of self.now) }
    {
        match self {
            WrittenType::Simple(place, _) => *place,
            WrittenType::Named(path) => path.place,
            WrittenType::SequenceOf(place, _) => *place,
        }
    }
}
