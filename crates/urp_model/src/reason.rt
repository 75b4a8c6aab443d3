//! The reasons for which bytes or messages break the protocol.

/// What was met first, in the order of the bytes.
#[derive(Clone, Copy, Debug, PartialEq, Eq)]
pub enum Reason {
    /// The message runs past the block.
    ShortMessage,
    /// A class byte that is not accepted, or one of a simple type with the mark of a new name.
    BadClass,
    /// A slot from 256 to 65,534.
    BadSlot,
    /// A slot whose meaning is asked has none, or is 65,535.
    UnknownSlot,
    /// A type's name or an identity above 4,096 bytes, a thread's name above 1,024.
    LongName,
    /// A string, a type's name or an identity that is not UTF-8.
    BadText,
    /// The registry has no type of that name and class.
    UnknownType,
    /// A boolean that is neither 0 nor 1.
    BadBoolean,
    /// An any in an any.
    BadAny,
    /// A value that is nested deeper than 64.
    Deep,
    /// The second byte of flags has one of its two bits alone.
    BadFlags,
    /// A type, identity or thread is neither new nor was there one before.
    NoLast,
    /// The type of a request is no interface.
    NotInterface,
    /// The number of a request's function is past the interface's functions.
    UnknownFunction,
    /// The request is an `acquire`.
    Acquire,
    /// A one-way method is called as another one, or a release as a method that is not one-way.
    OneWay,
    /// A reply to a thread that waits for none.
    NobodyWaits,
    /// A reply's exception is none, or is not declared and derives from no RuntimeException.
    BadException,
    /// A release of what the peer does not hold.
    Unowed,
    /// A request to an identity that was not sent out, or such an identity in a value.
    UnknownOid,
    /// A request on a thread that does not wait.
    BusyThread,
    /// A request on a thread of this end that has no calls open.
    UnknownThread,
    /// An object of this end in a value does not support the type at its place.
    WrongInterface,
    /// A block with more bytes than are allowed.
    TooLarge,
    /// A block with no message.
    NoMessages,
    /// Bytes stand behind the last message of a block.
    LeftOver,
}
