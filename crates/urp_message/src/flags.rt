//! The flags in the first byte of a message (URP specification, messages).
ghost use Rattle.std.specs.Prelude.{◌≡◌};
ghost use Rattle.message_model.specs.Headers.{has};

/// A request's type, object or thread stands in its header; a reply's thread does.
pub(crate) const NEW_TYPE: u8 = 0x20;

pub(crate) const NEW_OID: u8 = 0x10;

pub(crate) const NEW_TID: u8 = 0x08;

/// A request's function has two bytes.
pub(crate) const WIDE: u8 = 0x04;

/// A second byte of flags follows.
pub(crate) const MORE: u8 = 0x01;

/// A reply is an exception.
pub(crate) const EXCEPTION: u8 = 0x20;

/// Whether a flag is set.
pub(crate) fn has(flag: u8, flags: u8) -> bool
    ensures { result ≡ has flag flags }
{
    flags & flag != 0
}
