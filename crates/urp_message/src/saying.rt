//! Whether a message may be said, its weight apart.
ghost use Rattle.std.specs.Prelude.{◌↔◌, ◌≤◌, IsTrue, map};
ghost use Rattle.message_model.specs.Calls.{kinds_on};
ghost use Rattle.message_model.specs.Sayable.{IsThread, Fill, AnswerFits, MayBeSaid};
ghost use Rattle.type_registry.specs.Functions.{lent_function};
ghost use Rattle.uno_model.specs.Fits.{Fits, IsIdentity};
ghost use Rattle.uno_model.specs.Sound.{IsSound};
ghost use Rattle.uno_model.specs.Values.{depth};
ghost use Rattle.uno_entities.specs.TypeNames.{kind_of};
ghost use Rattle.uno_values.specs.Values.{plain_of};
ghost use Rattle.urp_message.specs.Messages.{answer_of, message_of};
ghost use Rattle.message_model.specs.Messages.{raised};
ghost use Rattle.urp_message.specs.Params.{carries};
ghost use Rattle.urp_message.specs.Saying.{IsCalledWith, IsAnsweredWith, FindsCalled, ExceptionFits};

use crate::params::{Phase, carried_kind};
use crate::raising::may_raise;
use crate::{Answer, Message};
use type_registry::{FunctionRef, function_numbered};
use uno_types::{Name, Registry, Text, Tid, TypeName};
use uno_values::{AnyValue, Value, depth_of, fits};

/// The most bytes of the identity of a thread, and the most levels of a value.
const MOST_TID: usize = 1024;

const MOST_LEVELS: u64 = 64;

/// The functions that are no calls like others.
const ACQUIRE: u16 = 1;

const RELEASE: u16 = 2;

/// Whether a message may be said, its weight apart: its names have the bytes that they may have, it calls or answers a function of the
/// interface other than acquire and release, and its values fit and are nested at most 64 deep.
pub fn may_be_said(registry: &Registry, message: &Message) -> bool
    requires { IsSound registry.now }
    ensures { IsTrue result ↔ MayBeSaid registry.now (message_of message.now) }
{
    match message {
        Message::Request {
            tid,
            oid,
            face,
            function,
            args,
        } => {
            if !are_names(tid, oid) {
                return false;
            }
            request_fits(registry, face, *function, args)
        }
        Message::Release { tid, oid, face } => {
            if !are_names(tid, oid) {
                return false;
            }
            registry.has_interface(face.as_str())
        }
        Message::Reply {
            tid,
            face,
            function,
            answer,
        } => {
            if !is_thread(tid) {
                return false;
            }
            reply_fits(registry, face, *function, answer)
        }
    }
}

/// Whether a thread and an object have the bytes that they may have.
fn are_names(tid: &Tid, oid: &Text) -> bool
    ensures { IsTrue result ↔ (IsThread tid.now × IsIdentity oid.now) }
{
    if !is_thread(tid) {
        return false;
    }
    oid.is_identity()
}

fn is_thread(tid: &Tid) -> bool
    ensures { IsTrue result ↔ IsThread tid.now }
{
    let count = tid.as_bytes().len();
    count > 0 && count <= MOST_TID
}

/// Whether a request calls a function like others, with arguments that fit.
fn request_fits(registry: &Registry, face: &Name, number: u16, args: &[Value]) -> bool
    requires { IsSound registry.now }
    ensures { IsTrue result ↔ IsCalledWith registry.now face.now number (map plain_of args.now) }
{
    let Some(function) = called(registry, face, number) else {
        return false;
    };
    values_fit(registry, Phase::Request, &function, args)
}

/// Whether values are those that a request or a reply carries for the parameters of a function.
fn values_fit(registry: &Registry, phase: Phase, function: &FunctionRef, values: &[Value]) -> bool
    requires { IsSound registry.now }
    ensures { IsTrue result ↔ Fill registry.now (map plain_of values.now) (kinds_on (carries phase) (lent_function function.now).params) }
{
    let mut rest = values;
    for place in 0..function.param_count() {
        let Some(kind) = carried_kind(phase, function, place) else {
            continue;
        };
        let Some((value, behind)) = rest.split_first() else {
            return false;
        };
        if !fits_within(registry, value, kind) {
            return false;
        }
        rest = behind;
    }
    rest.is_empty()
}

/// The function of an interface at a number, where it is called like others.
fn called<'a>(registry: &'a Registry, face: &Name, number: u16) -> Option<FunctionRef<'a>>
    ensures { FindsCalled registry.now face.now number result }
{
    if number == ACQUIRE {
        return None;
    }
    if number == RELEASE {
        return None;
    }
    if !registry.has_interface(face.as_str()) {
        return None;
    }
    function_numbered(registry, face.as_str(), number)
}

/// Whether an answer is one to a function like others.
fn reply_fits(registry: &Registry, face: &Name, number: u16, answer: &Answer) -> bool
    requires { IsSound registry.now }
    ensures { IsTrue result ↔ IsAnsweredWith registry.now face.now number (answer_of answer.now) }
{
    let Some(function) = called(registry, face, number) else {
        return false;
    };
    answer_fits(registry, &function, answer)
}

/// Whether an answer is one to this function.
fn answer_fits(registry: &Registry, function: &FunctionRef, answer: &Answer) -> bool
    requires { IsSound registry.now }
    ensures { IsTrue result ↔ AnswerFits registry.now (lent_function function.now) (answer_of answer.now) }
{
    match answer {
        Answer::Returned { value, outs } => {
            if !result_fits(registry, function, value) {
                return false;
            }
            values_fit(registry, Phase::Reply, function, outs)
        }
        Answer::Raised(exception) => exception_fits(registry, function, exception),
    }
}

/// Whether a value fits the result of this function.
fn result_fits(registry: &Registry, function: &FunctionRef, value: &Value) -> bool
    requires { IsSound registry.now }
    ensures { IsTrue result ↔ (Fits registry.now (plain_of value.now) (lent_function function.now).result_kind × (depth (plain_of value.now) ≤ 64)) }
{
    match function.result() {
        Some(kind) => fits_within(registry, value, kind),
        None => fits_within(registry, value, &TypeName::Void),
    }
}

/// Whether an exception is one that the function may raise. As what an any holds it is one level further in.
fn exception_fits(registry: &Registry, function: &FunctionRef, exception: &AnyValue) -> bool
    requires { IsSound registry.now }
    ensures { IsTrue result ↔ AnswerFits registry.now (lent_function function.now) (raised (kind_of exception.now.kind) (plain_of exception.now.value)) }
{
    exception_holds(registry, function, exception)
}

/// The same, said of the exception itself.
fn exception_holds(registry: &Registry, function: &FunctionRef, exception: &AnyValue) -> bool
    requires { IsSound registry.now }
    ensures { IsTrue result ↔ ExceptionFits registry.now (lent_function function.now) (kind_of exception.now.kind) (plain_of exception.now.value) }
{
    if !may_raise(registry, function, &exception.kind) {
        return false;
    }
    if !registry.has_type(&exception.kind) {
        return false;
    }
    if !fits(registry, &exception.value, &exception.kind) {
        return false;
    }
    depth_of(&exception.value) < MOST_LEVELS
}

/// Whether a value fits a type and is nested no deeper than allowed.
fn fits_within(registry: &Registry, value: &Value, kind: &TypeName) -> bool
    requires { IsSound registry.now }
    ensures { IsTrue result ↔ (Fits registry.now (plain_of value.now) (kind_of kind.now) × (depth (plain_of value.now) ≤ 64)) }
{
    if !fits(registry, value, kind) {
        return false;
    }
    depth_of(value) <= MOST_LEVELS
}
