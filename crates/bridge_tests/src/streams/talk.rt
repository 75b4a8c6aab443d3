//! A talk of five messages: a call of `twice` of the object `S;1` on the thread `T`, its answer, a release of the object on the thread
//! `U`, and answer and call once more.
ghost use Rattle.std.specs.Prelude.{◌≡◌};
ghost use Rattle.message_model.specs.Messages.{release};
ghost use Rattle.urp_message.specs.Messages.{message_of};

use crate::registries::NODE;
use crate::texts::{name_of, text_of, tid_of};
use std::alloc::Global;
use std::process::Abort;
use uno_values::Value;
use urp_message::{Answer, Message};

pub(crate) const TALK: &[&str] = &["call", "answer", "release", "answer", "call"];

/// The five blocks, of 38, 13, 14, 16 and 13 bytes.
pub(crate) const BYTES: &[u8] =
    b"\0\0\0\x1E\0\0\0\x01\xF8\x03\x96\0\0\x0Ademo.XNode\x03S;1\0\0\x01T\0\0\0\0\0\x15\
    \0\0\0\x05\0\0\0\x01\x80\0\0\0\x2A\
    \0\0\0\x06\0\0\0\x01\xC8\x02\x01U\0\x01\
    \0\0\0\x08\0\0\0\x01\x88\0\0\0\0\0\0\x2A\
    \0\0\0\x05\0\0\0\x01\x03\0\0\0\x15";

/// The block of the call alone.
pub(crate) const CALL: &[u8] =
    b"\0\0\0\x1E\0\0\0\x01\xF8\x03\x96\0\0\x0Ademo.XNode\x03S;1\0\0\x01T\0\0\0\0\0\x15";

/// A message of the talk.
pub(crate) fn message(rt: &impl Abort, alloc: Global, what: &str) -> Message {
    match what {
        "call" => call(rt, alloc),
        "release" => release(rt, alloc, b"U", "S;1", NODE),
        "answer" => answer(rt, alloc),
        _ => panic!(rt; "no message"),
    }
}

fn call(rt: &impl Abort, alloc: Global) -> Message {
    let mut args = Vec::new(alloc);
    args.push(Value::Long(21)).ok();
    Message::Request {
        tid: tid_of(rt, alloc, b"T"),
        oid: text_of(rt, alloc, "S;1"),
        face: name_of(rt, alloc, NODE),
        function: 3,
        args,
    }
}

/// A release on a thread.
pub(crate) fn release(
    rt: &impl Abort,
    alloc: Global,
    thread: &[u8],
    oid: &str,
    face: &str,
) -> Message
    ensures { message_of result ≡ release thread.now oid.now face.now }
{
    Message::Release {
        tid: tid_of(rt, alloc, thread),
        oid: text_of(rt, alloc, oid),
        face: name_of(rt, alloc, face),
    }
}

fn answer(rt: &impl Abort, alloc: Global) -> Message {
    Message::Reply {
        tid: tid_of(rt, alloc, b"T"),
        face: name_of(rt, alloc, NODE),
        function: 3,
        answer: Answer::Returned {
            value: Value::Long(42),
            outs: Vec::new(alloc),
        },
    }
}
