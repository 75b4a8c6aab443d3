//! Replies (URP specification, messages).
ghost use Rattle.std.specs.Prelude.{◌≡◌, IfOk, option_map, Some};
ghost use Rattle.message_model.specs.Calls.{numbered, waiting};
ghost use Rattle.message_model.specs.Messages as plain;
ghost use Rattle.message_model.specs.ReadingMessages.{new_or_last_at, returned_at, raised_at, answer_at, awaited, hearing_tid, reply_at};
ghost use Rattle.type_registry.specs.Functions.{lent_function};
ghost use Rattle.uno_model.specs.Sound.{IsSound};
ghost use Rattle.uno_entities.specs.TypeNames.{kind_of};
ghost use Rattle.uno_values.specs.Values.{plain_of};
ghost use Rattle.urp_message.specs.Messages.{message_of, answer_of, heard_of, last_of};
ghost use Rattle.urp_message.specs.Waiting.{awaited_of, answered_at, misplaced};
ghost use Rattle.urp_model.specs.Reading.{value_at};
ghost use Rattle.urp_model.specs.ReadingNames.{tid_at};
ghost use Rattle.urp_wire.specs.Gives.{Gives, tables_of};

use super::part::new_or_last;
use super::values::{MOST_LEVELS, parameter_values};
use crate::flags::{EXCEPTION, NEW_TID, has};
use crate::params::Phase;
use crate::raising::may_raise;
use crate::remembered::{Heard, Last};
use crate::{Answer, Expects, Message};
use std::alloc::Global;
use type_registry::{FunctionRef, function_numbered};
use uno_base::NoMemory;
use uno_types::{Name, Registry, Tid, TypeName};
use uno_values::{AnyValue, Value};
use urp_cache::{ReadCache, ReadCaches};
use urp_wire::{Reason, WireError, read_kind, read_value_within};

/// A call that waits: its interface, its number, and the function that it calls.
#[derive(Drop)]
pub(crate) struct Awaited<'a> {
    pub(crate) face: Name,
    pub(crate) number: u16,
    pub(crate) function: FunctionRef<'a>,
}

/// The answer to a call that waited: its interface and its number.
#[derive(Drop)]
pub(crate) struct Answered {
    pub(crate) face: Name,
    pub(crate) number: u16,
    pub(crate) answer: Answer,
}

/// A reply with these flags, and the bytes behind it. The last type and object are still those of a request.
#[tactic(auto, unfolding(message_model::specs::ReadingMessages::reply_at))]
pub(crate) fn reply<'a, E: Expects>(
    alloc: Global,
    registry: &Registry,
    heard: &mut Heard,
    expect: &E,
    flags: u8,
    bytes: &'a [u8],
) -> Result<(Message, &'a [u8]), WireError>
    requires { IsSound registry.now }
    ensures { Gives (λ x. (message_of x.0, heard_of heard.new, x.1.now)) result (reply_at registry.now (E.calls expect.now) (heard_of heard.old) flags bytes.now) }
{
    let (tid, rest) = thread_of_reply(
        alloc,
        registry,
        has(NEW_TID, flags),
        &mut heard.last,
        &mut heard.caches.tids,
        bytes,
    )?;
    match answer_awaited(
        alloc,
        registry,
        heard,
        expect,
        &tid,
        has(EXCEPTION, flags),
        rest,
    ) {
        Ok((answered, rest)) => Ok((reply_of(tid, answered), rest)),
        Err(error) => {
            drop(tid);
            Err(error)
        }
    }
}

/// The thread of a reply, which is the last one from now on; the last type and object are still those of a request.
#[tactic(auto, using(std::proofs::lemmas::Iterator::Adapters::option_map_id))]
fn thread_of_reply<'a>(
    alloc: Global,
    registry: &Registry,
    is_new: bool,
    last: &mut Last,
    tids: &mut ReadCache<Tid>,
    bytes: &'a [u8],
) -> Result<(Tid, &'a [u8]), WireError>
    requires { IsSound registry.now }
    ensures named { Gives (λ x. (x.0, tids.new, x.1.now)) result (new_or_last_at is_new last.old.tid tid_at tids.old bytes.now) }
    ensures tid { IfOk result (λ x. last.new.tid ≡ Some x.0) }
    ensures kind { last.new.kind ≡ last.old.kind }
    ensures oid { last.new.oid ≡ last.old.oid }
{
    let (tid, rest) = new_or_last(alloc, registry, is_new, &mut last.tid, tids, bytes)?;
    Ok((tid, rest))
}

/// A reply on a thread.
fn reply_of(tid: Tid, answered: Answered) -> Message
    ensures { message_of result ≡ plain.reply tid answered.face answered.number (answer_of answered.answer) }
{
    let Answered {
        face,
        number,
        answer,
    } = answered;
    Message::Reply {
        tid,
        face,
        function: number,
        answer,
    }
}

/// The answer to the call for which a thread waits.
fn answer_awaited<'a, E: Expects>(
    alloc: Global,
    registry: &Registry,
    heard: &mut Heard,
    expect: &E,
    tid: &Tid,
    is_raised: bool,
    bytes: &'a [u8],
) -> Result<(Answered, &'a [u8]), WireError>
    requires { IsSound registry.now }
    ensures answer { Gives (λ x. (plain.reply tid.now x.0.face x.0.number (answer_of x.0.answer), hearing_tid (heard_of heard.old) tid.now (tables_of heard.new.caches), x.1.now)) result
        (answered_at registry.now (E.calls expect.now) (heard_of heard.old) tid.now is_raised bytes.now) }
    ensures last { last_of heard.new.last ≡ last_of heard.old.last }
{
    let Some(call) = call_awaited(registry, expect, tid.as_bytes())? else {
        return Err(WireError::Bad(Reason::NobodyWaits));
    };
    let Awaited {
        face,
        number,
        function,
    } = call;
    let read = answer(
        alloc,
        registry,
        is_raised,
        &function,
        &mut heard.caches,
        bytes,
    );
    match read {
        Ok((answer, rest)) => Ok((
            Answered {
                face,
                number,
                answer,
            },
            rest,
        )),
        Err(error) => {
            drop(face);
            Err(error)
        }
    }
}

/// The call for which a thread waits.
#[tactic(auto, unfolding(message_model::specs::Calls::numbered))]
fn call_awaited<'a, E: Expects>(
    registry: &'a Registry,
    expect: &E,
    tid: &[u8],
) -> Result<Option<Awaited<'a>>, NoMemory>
    ensures { IfOk result (λ found. option_map awaited_of found ≡ awaited registry.now (waiting tid.now (E.calls expect.now))) }
{
    let Some((face, number)) = expect.waits(tid) else {
        return Ok(None);
    };
    let Some(function) = function_numbered(registry, face.as_str(), number) else {
        return Ok(None);
    };
    let face = face.copy()?;
    Ok(Some(Awaited {
        face,
        number,
        function,
    }))
}

/// The answer to a call of a function.
#[tactic(auto, unfolding(message_model::specs::ReadingMessages::answer_at))]
fn answer<'a>(
    alloc: Global,
    registry: &Registry,
    is_raised: bool,
    function: &FunctionRef,
    caches: &mut ReadCaches,
    bytes: &'a [u8],
) -> Result<(Answer, &'a [u8]), WireError>
    requires { IsSound registry.now }
    ensures { Gives (λ x. (answer_of x.0, tables_of caches.new, x.1.now)) result (answer_at is_raised registry.now (lent_function function.now) (tables_of caches.old) bytes.now) }
{
    if is_raised {
        return raised(alloc, registry, function, caches, bytes);
    }
    returned(alloc, registry, function, caches, bytes)
}

/// The result, and the values of the parameters that come back.
#[tactic(auto, unfolding(message_model::specs::ReadingMessages::returned_at))]
fn returned<'a>(
    alloc: Global,
    registry: &Registry,
    function: &FunctionRef,
    caches: &mut ReadCaches,
    bytes: &'a [u8],
) -> Result<(Answer, &'a [u8]), WireError>
    requires { IsSound registry.now }
    ensures { Gives (λ x. (answer_of x.0, tables_of caches.new, x.1.now)) result (returned_at registry.now (lent_function function.now) (tables_of caches.old) bytes.now) }
{
    let (value, rest) = result_value(alloc, registry, function, caches, bytes)?;
    match parameter_values(alloc, registry, Phase::Reply, function, caches, rest) {
        Ok((outs, rest)) => Ok((Answer::Returned { value, outs }, rest)),
        Err(error) => {
            drop(value);
            Err(error)
        }
    }
}

/// A value of the type that the function returns.
fn result_value<'a>(
    alloc: Global,
    registry: &Registry,
    function: &FunctionRef,
    caches: &mut ReadCaches,
    bytes: &'a [u8],
) -> Result<(Value, &'a [u8]), WireError>
    requires { IsSound registry.now }
    ensures { Gives (λ x. (plain_of x.0, tables_of caches.new, x.1.now)) result (value_at 64 registry.now (lent_function function.now).result_kind (tables_of caches.old) bytes.now) }
{
    match function.result() {
        Some(kind) => read_value_within(alloc, registry, caches, kind, MOST_LEVELS, bytes),
        None => read_value_within(alloc, registry, caches, &TypeName::Void, MOST_LEVELS, bytes),
    }
}

/// An exception in an any, one level further in. Its type is judged before its value is read.
#[tactic(auto, unfolding(message_model::specs::ReadingMessages::raised_at))]
fn raised<'a>(
    alloc: Global,
    registry: &Registry,
    function: &FunctionRef,
    caches: &mut ReadCaches,
    bytes: &'a [u8],
) -> Result<(Answer, &'a [u8]), WireError>
    requires { IsSound registry.now }
    ensures { Gives (λ x. (answer_of x.0, tables_of caches.new, x.1.now)) result (raised_at registry.now (lent_function function.now) (tables_of caches.old) bytes.now) }
{
    let (kind, rest) = read_kind(alloc, registry, &mut caches.types, bytes)?;
    if let Some(reason) = misplaced(registry, function, &kind) {
        drop(kind);
        return Err(WireError::Bad(reason));
    }
    match read_value_within(alloc, registry, caches, &kind, MOST_LEVELS - 1, rest) {
        Ok((value, rest)) => Ok((Answer::Raised(AnyValue { kind, value }), rest)),
        Err(error) => {
            drop(kind);
            Err(error)
        }
    }
}

/// Why a type is none of an exception that the function may raise. An any holds no any, and that is judged first.
fn misplaced(registry: &Registry, function: &FunctionRef, kind: &TypeName) -> Option<Reason>
    requires { IsSound registry.now }
    ensures { result ≡ misplaced registry.now (lent_function function.now) (kind_of kind.now) }
{
    if matches!(kind, TypeName::Any) {
        return Some(Reason::BadAny);
    }
    if !may_raise(registry, function, kind) {
        return Some(Reason::BadException);
    }
    None
}
