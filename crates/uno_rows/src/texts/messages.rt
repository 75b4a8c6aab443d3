//! Messages that are heard, and said again.
ghost use Rattle.std.specs.Prelude.{map};
ghost use Rattle.uno_model.specs.Sound.{IsSound};

use crate::spelling::{bytes_of, cut};
use crate::texts::answer::Answer;
use std::alloc::Global;
use uno_types::{Name, Registry, Tid};
use uno_values::Value;
use urp_message::{Answer as Reply, Expects, Listener, Message, Speaker, may_be_said, weight_of};

/// A call that waits for its answer.
#[derive(Drop)]
struct Call {
    tid: Tid,
    face: Name,
    function: u16,
}

/// The calls that wait.
#[derive(Drop)]
struct Waiting {
    calls: Vec<Call>,
}

impl Expects for Waiting {
    ghost calls = { λ w. map (λ c. (c.tid, record { face = c.face; function = c.function })) w.calls.items };

    fn waits(&self, tid: &[u8]) -> Option<(&Name, u16)> {
        for call in &self.calls {
            if tid == call.tid.as_bytes() {
                return Some((&call.face, call.function));
            }
        }
        None
    }
}

/// The calls of words `T demo.XNode 3`, with `, ` between them.
fn waiting_of(alloc: Global, words: &str) -> Waiting {
    let mut calls = Vec::new(alloc);
    for call in words.split(", ") {
        push_call(alloc, &mut calls, call);
    }
    Waiting { calls }
}

fn push_call(alloc: Global, calls: &mut Vec<Call>, words: &str) {
    let (tid, rest) = cut(words, " ");
    if let Ok(tid) = Tid::of(alloc, tid.as_bytes()) {
        push_call_of(alloc, calls, tid, rest);
    }
}

fn push_call_of(alloc: Global, calls: &mut Vec<Call>, tid: Tid, words: &str) {
    let (face, function) = cut(words, " ");
    let function = function.parse::<u16>().unwrap_or(0);
    match Name::of(alloc, face) {
        Ok(face) => {
            calls
                .push(Call {
                    tid,
                    face,
                    function,
                })
                .ok();
        }
        Err(_) => drop(tid),
    }
}

/// One who hears what comes while calls wait, and one who says it again.
#[derive(Drop)]
struct Echo {
    waiting: Waiting,
    listener: Listener,
    speaker: Speaker,
}

/// `listen CALLS | BODY | BODY ..`: while these calls wait, each message in the bodies with its length and the block in which it is said
/// again, or why one is refused.
pub(crate) fn listen(registry: &Registry, row: &str, answer: &mut Answer)
    requires { IsSound registry.now }
{
    match Listener::new(registry.allocator()) {
        Ok(listener) => listen_by(registry, listener, row, answer),
        Err(error) => answer.show(&error),
    }
}

fn listen_by(registry: &Registry, listener: Listener, row: &str, answer: &mut Answer)
    requires { IsSound registry.now }
{
    let (calls, bodies) = cut(row, " | ");
    match Speaker::new(registry.allocator()) {
        Ok(speaker) => {
            let mut echo = Echo {
                waiting: waiting_of(registry.allocator(), calls),
                listener,
                speaker,
            };
            hear_bodies(registry, &mut echo, bodies, answer);
            drop(echo);
        }
        Err(error) => {
            drop(listener);
            answer.show(&error);
        }
    }
}

fn hear_bodies(registry: &Registry, echo: &mut Echo, bodies: &str, answer: &mut Answer)
    requires { IsSound registry.now }
{
    for body in bodies.split(" | ") {
        let bytes = bytes_of(registry.allocator(), body);
        hear_all(registry, echo, &bytes, answer);
    }
}

/// Hears all that is in a body, at most so many messages as it has bytes, and at least one.
fn hear_all(registry: &Registry, echo: &mut Echo, body: &[u8], answer: &mut Answer)
    requires { IsSound registry.now }
{
    let mut from: usize = 0;
    for _ in 0..=body.len() {
        if let Some(rest) = body.get(from..) {
            if from == 0 || !rest.is_empty() {
                from = from.saturating_add(hear(registry, echo, rest, answer).max(1));
            }
        }
    }
}

/// Hears a message, and tells how many bytes it has.
fn hear(registry: &Registry, echo: &mut Echo, rest: &[u8], answer: &mut Answer) -> usize
    requires { IsSound registry.now }
{
    match echo.listener.read(registry, rest, &echo.waiting) {
        Ok((message, used)) => {
            answer.show(&used);
            tell(registry, &message, answer);
            say(registry, &mut echo.speaker, &message, answer);
            drop(message);
            answer.put(b";");
            used
        }
        Err(error) => {
            answer.show(&error);
            answer.put(b";");
            rest.len()
        }
    }
}

/// Puts the block in which a message is said.
fn say(registry: &Registry, speaker: &mut Speaker, message: &Message, answer: &mut Answer)
    requires { IsSound registry.now }
{
    if may_be_said(registry, message) && weight_of(registry, message) <= 16_777_216 {
        match speaker.write(registry, message) {
            Ok(block) => {
                answer.word("said ");
                answer.put(&block);
            }
            Err(error) => answer.show(&error),
        }
    }
}

fn tell(registry: &Registry, message: &Message, answer: &mut Answer) {
    match message {
        Message::Request {
            tid,
            oid,
            face,
            function,
            args,
        } => {
            tell_whose(tid, "calls", oid.as_str(), face, answer);
            answer.show(function);
            tell_values(registry, args, answer);
        }
        Message::Release { tid, oid, face } => {
            tell_whose(tid, "releases", oid.as_str(), face, answer);
        }
        Message::Reply {
            tid,
            face,
            function,
            answer: reply,
        } => {
            tell_whose(tid, "hears", "of", face, answer);
            answer.show(function);
            tell_reply(registry, reply, answer);
        }
    }
}

fn tell_whose(tid: &Tid, does: &str, what: &str, face: &Name, answer: &mut Answer) {
    answer.word("");
    answer.put(tid.as_bytes());
    answer.word(does);
    answer.word(what);
    answer.word(face.as_str());
}

fn tell_reply(registry: &Registry, reply: &Reply, answer: &mut Answer) {
    match reply {
        Reply::Returned { value, outs } => {
            answer.value(registry, value);
            tell_values(registry, outs, answer);
        }
        Reply::Raised(exception) => {
            answer.word("raised");
            answer.value(registry, &exception.value);
        }
    }
}

fn tell_values(registry: &Registry, values: &[Value], answer: &mut Answer) {
    for value in values {
        answer.value(registry, value);
    }
}
