//! What one end says to the other.

use uno_types::{Name, Text, Tid};
use uno_values::{AnyValue, Value};

/// A message. `face` is an interface, and `function` a number in its table (Developer's Guide, multiple-inheritance interfaces).
#[derive(Drop)]
pub enum Message {
    /// A call; `args` are the values of its `[in]` and `[inout]` parameters in order. The OID is empty where the bytes say null.
    Request {
        tid: Tid,
        oid: Text,
        face: Name,
        function: u16,
        args: Vec<Value>,
    },
    /// The sender holds the object under the interface once less.
    Release {
        tid: Tid,
        oid: Text,
        face: Name,
    },
    /// The answer to the call for which the thread waits.
    Reply {
        tid: Tid,
        face: Name,
        function: u16,
        answer: Answer,
    },
}

/// How a call ended.
#[derive(Drop)]
pub enum Answer {
    /// `outs` are the values of its `[out]` and `[inout]` parameters in order; a void result is `Value::Void`.
    Returned { value: Value, outs: Vec<Value> },
    /// An exception.
    Raised(AnyValue),
}
