//! A job, and what it asks.
ghost use Rattle.uno_model.specs.Sound.{IsSound};

use crate::plan_runs::FACE;
use crate::plan_runs::effects::showing::put_effect;
use crate::shown::Shown;
use crate::texts::{name_of, text_of, tid_of, value_of};
use behaviour::{Done, next};
use plan_types::{Body, Frame, Job, Plan, Variable};
use std::alloc::Global;
use std::process::Abort;
use uno_base::NoMemory;
use uno_types::{Registry, TypeName};
use uno_values::{AnyValue, Reference, Value};

/// A variable's name, the name of its type, and its literal; or the identity of an object of the peer's behind `@`, or what an any weighs
/// behind `*`.
pub(crate) type Word<'a> = (&'a str, &'a str, &'a str);

/// The called function, by its interface and number, the place of the statement, the frames of the stack, and the number of the behaviour
/// and the fields of the object.
#[derive(Clone, Copy)]
pub(crate) struct Called {
    pub(crate) face: &'static str,
    pub(crate) function: u16,
    pub(crate) place: u32,
    pub(crate) frames: u32,
    pub(crate) behaviour: u32,
    pub(crate) fields: &'static [Word<'static>],
}

fn object(rt: &impl Abort, alloc: Global, oid: &str) -> Value {
    Value::Ref(Reference::Remote {
        oid: text_of(rt, alloc, oid),
        face: name_of(rt, alloc, FACE),
    })
}

/// An any that weighs so much: a string of bytes, with its type in one byte and its length in five.
fn heavy(rt: &impl Abort, alloc: Global, weight: usize) -> Value {
    let bytes = weight.saturating_sub(6);
    let front = "sixteen of those".repeat(alloc, bytes / 16);
    let back = "x".repeat(alloc, bytes % 16);
    let mut text = front.expect(rt, "no memory");
    text.push_str(&back.expect(rt, "no memory"))
        .expect(rt, "no memory");
    let value = Value::Str(text_of(rt, alloc, &text));
    let kind = TypeName::Str;
    match Box::new(alloc, AnyValue { kind, value }) {
        Ok(any) => Value::Any(any),
        Err(_) => panic!(rt; "no memory"),
    }
}

fn value(rt: &impl Abort, alloc: Global, registry: &Registry, kind: &str, word: &str) -> Value
    requires { IsSound registry.now }
{
    if let Some(oid) = word.strip_prefix("@") {
        return object(rt, alloc, oid);
    }
    if let Some(weight) = word.strip_prefix("*") {
        return heavy(rt, alloc, weight.parse().expect(rt, word));
    }
    value_of(rt, alloc, registry, kind, word)
}

fn variable(rt: &impl Abort, alloc: Global, registry: &Registry, word: &Word<'_>) -> Variable
    requires { IsSound registry.now }
{
    let (name, kind, value) = *word;
    Variable {
        name: name_of(rt, alloc, name),
        value: self::value(rt, alloc, registry, kind, value),
    }
}

fn variables(
    rt: &impl Abort,
    alloc: Global,
    registry: &Registry,
    words: &[Word<'_>],
) -> Vec<Variable>
    requires { IsSound registry.now }
{
    let mut all = Vec::new(alloc);
    for word in words {
        all.push(variable(rt, alloc, registry, word)).ok();
    }
    all
}

fn job(
    rt: &impl Abort,
    alloc: Global,
    registry: &Registry,
    called: &Called,
    words: &[Word<'_>],
) -> Job
    requires { IsSound registry.now }
{
    Job {
        tid: tid_of(rt, alloc, b"T"),
        frame: Frame::Body(Body {
            number: 0,
            object: 1,
            face: name_of(rt, alloc, called.face),
            function: called.function,
            from_peer: true,
            variables: variables(rt, alloc, registry, words),
            place: called.place,
        }),
        fields: variables(rt, alloc, registry, called.fields),
        depth: called.frames,
        behaviour: called.behaviour,
        own: text_of(rt, alloc, "S;1"),
    }
}

fn put_done(said: &mut Shown, registry: &Registry, done: &Result<Done, NoMemory>) {
    match done {
        Ok(done) => put_effect(said, registry, &done.effect),
        Err(NoMemory) => said.put("no memory"),
    }
}

/// What the statement asks where the variables of the frame are these.
pub(crate) fn asked(
    rt: &impl Abort,
    alloc: Global,
    registry: &Registry,
    plan: &Plan,
    called: &Called,
    words: &[Word<'_>],
) -> String
    requires { IsSound registry.now }
{
    let mut said = Shown::new(alloc);
    let job = job(rt, alloc, registry, called, words);
    let done = next(alloc, plan, registry, job);
    put_done(&mut said, registry, &done);
    drop(done);
    said.text
}
