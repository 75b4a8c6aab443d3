//! Requests: calls and releases (URP specification, messages).
ghost use Rattle.std.specs.Prelude.{◌≡◌, ◌&&◌, not, map, IfOk};
ghost use Rattle.message_model.specs.Headers as header;
ghost use Rattle.message_model.specs.Messages.{request};
ghost use Rattle.message_model.specs.ReadingMessages.{release_at, call_at, asked_at, request_at};
ghost use Rattle.type_registry.specs.Functions.{lent_function};
ghost use Rattle.uno_model.specs.Kinds.{interface_of};
ghost use Rattle.uno_model.specs.Sound.{IsSound};
ghost use Rattle.uno_entities.specs.TypeNames.{kind_of};
ghost use Rattle.uno_values.specs.Values.{plain_of};
ghost use Rattle.urp_message.specs.Headers.{opening_of, target_of, called_of};
ghost use Rattle.urp_message.specs.Messages.{message_of, heard_of};
ghost use Rattle.urp_model.specs.Parts.{judged};
ghost use Rattle.urp_model.specs.declared.reason.Reason.TheVariants.{NotInterface};
ghost use Rattle.urp_wire.specs.Gives.{Gives};

use super::opening::{Opening, read_opening};
use super::target::{Target, read_target};
use super::values::parameter_values;
use crate::Message;
use crate::params::Phase;
use crate::remembered::Heard;
use std::alloc::Global;
use type_registry::{FunctionRef, function_numbered};
use uno_types::{Name, Registry, Text, Tid};
use uno_values::Value;
use urp_wire::{Reason, WireError};

/// The functions that are no calls like others.
const ACQUIRE: u16 = 1;

const RELEASE: u16 = 2;

/// An object under an interface, on a thread.
#[derive(Drop)]
pub(crate) struct Called {
    pub(crate) tid: Tid,
    pub(crate) oid: Text,
    pub(crate) face: Name,
}

/// A request of which this byte is the first, and the bytes behind it.
#[tactic(auto, unfolding(message_model::specs::ReadingMessages::request_at))]
pub(crate) fn request<'a>(
    alloc: Global,
    registry: &Registry,
    heard: &mut Heard,
    first: u8,
    bytes: &'a [u8],
) -> Result<(Message, &'a [u8]), WireError>
    requires { IsSound registry.now }
    ensures { Gives (λ x. (message_of x.0, heard_of heard.new, x.1.now)) result (request_at registry.now (heard_of heard.old) first bytes.now) }
{
    let (opening, rest) = read_opening(first, bytes)?;
    let (target, rest) = read_target(alloc, registry, &opening, heard, rest)?;
    let called = called_in(target)?;
    asked(alloc, registry, &opening, called, heard, rest)
}

/// What a header names, where its type is an interface.
fn called_in(target: Target) -> Result<Called, WireError>
    ensures face { Gives (λ called. called.face) result (judged NotInterface (interface_of (kind_of target.kind))) }
    ensures same { IfOk result (λ called. called_of called ≡ target_of target) }
{
    let Target { kind, oid, tid } = target;
    let Some(face) = kind.into_interface() else {
        return Err(WireError::Bad(Reason::NotInterface));
    };
    Ok(Called { tid, oid, face })
}

/// What stands behind the header of a request.
#[tactic(auto, unfolding(message_model::specs::ReadingMessages::asked_at))]
fn asked<'a>(
    alloc: Global,
    registry: &Registry,
    opening: &Opening,
    called: Called,
    heard: &mut Heard,
    bytes: &'a [u8],
) -> Result<(Message, &'a [u8]), WireError>
    requires { IsSound registry.now }
    ensures { Gives (λ x. (message_of x.0, heard_of heard.new, x.1.now)) result (asked_at registry.now (opening_of opening.now) called.face (called_of called) (heard_of heard.old) bytes.now) }
{
    if opening.function == RELEASE {
        return release(opening.answered, called, bytes);
    }
    if opening.function == ACQUIRE {
        drop(called);
        return Err(WireError::Bad(Reason::Acquire));
    }
    call(alloc, registry, opening, called, heard, bytes)
}

/// A release, which is never sent as one that has an answer.
#[tactic(auto, unfolding(message_model::specs::ReadingMessages::release_at))]
fn release(answered: bool, called: Called, bytes: &[u8]) -> Result<(Message, &[u8]), WireError>
    ensures { (heard : _) → Gives (λ x. (message_of x.0, heard, x.1.now)) result (release_at answered called.face (called_of called) heard bytes.now) }
{
    if answered {
        drop(called);
        return Err(WireError::Bad(Reason::OneWay));
    }
    let Called { tid, oid, face } = called;
    Ok((Message::Release { tid, oid, face }, bytes))
}

/// A call of a function of the interface.
fn call<'a>(
    alloc: Global,
    registry: &Registry,
    opening: &Opening,
    called: Called,
    heard: &mut Heard,
    bytes: &'a [u8],
) -> Result<(Message, &'a [u8]), WireError>
    requires { IsSound registry.now }
    ensures { Gives (λ x. (message_of x.0, heard_of heard.new, x.1.now)) result (call_at registry.now (opening_of opening.now) called.face (called_of called) (heard_of heard.old) bytes.now) }
{
    match arguments(alloc, registry, opening, &called.face, heard, bytes) {
        Ok((args, rest)) => Ok((request_of(called, opening.function, args), rest)),
        Err(error) => {
            drop(called);
            Err(error)
        }
    }
}

/// A call of a function with these arguments.
fn request_of(called: Called, function: u16, args: Vec<Value>) -> Message
    ensures { message_of result ≡ request called.tid called.oid called.face function (map plain_of args.items) }
{
    let Called { tid, oid, face } = called;
    Message::Request {
        tid,
        oid,
        face,
        function,
        args,
    }
}

/// The arguments of a call of a function of the interface, whatever its object and its thread; a one-way one is sent as one that
/// has an answer.
#[tactic(auto, unfolding(message_model::specs::ReadingMessages::call_at, message_model::specs::ReadingMessages::arguments_at, message_model::specs::Calls::numbered))]
fn arguments<'a>(
    alloc: Global,
    registry: &Registry,
    opening: &Opening,
    face: &Name,
    heard: &mut Heard,
    bytes: &'a [u8],
) -> Result<(Vec<Value>, &'a [u8]), WireError>
    requires { IsSound registry.now }
    ensures { (target : header.Target) → Gives (λ x. (request target.tid target.oid face.now opening.now.function (map plain_of x.0.items), heard_of heard.new, x.1.now)) result
        (call_at registry.now (opening_of opening.now) face.now target (heard_of heard.old) bytes.now) }
{
    let Some(function) = function_numbered(registry, face.as_str(), opening.function) else {
        return Err(WireError::Bad(Reason::UnknownFunction));
    };
    if lacks_answer(&function, opening) {
        return Err(WireError::Bad(Reason::OneWay));
    }
    let (args, rest) = parameter_values(
        alloc,
        registry,
        Phase::Request,
        &function,
        &mut heard.caches,
        bytes,
    )?;
    Ok((args, rest))
}

/// Whether a function is one-way and its call is not sent as one that has an answer.
fn lacks_answer(function: &FunctionRef, opening: &Opening) -> bool
    ensures { result ≡ (lent_function function.now).oneway && not opening.now.answered }
{
    function.is_oneway() && !opening.answered
}
