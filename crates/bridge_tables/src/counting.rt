//! The stubs count each sending of an own object.
ghost use Rattle.std.specs.Prelude.{◌≡◌, ◌++◌, List, [], Option, IfOk, IsTrue, OnOk, OnErr, map, option_map};
ghost use Rattle.message_model.specs.Calls.{kinds_on, numbered};
ghost use Rattle.message_model.specs.MessageNamings.{message_namings, answer_namings};
ghost use Rattle.message_model.specs.Sayable.{result_of};
ghost use Rattle.type_registry.specs.Functions.{lent_function, lent_param};
ghost use Rattle.uno_entities.specs.TypeNames.{kind_of};
ghost use Rattle.uno_model.specs.Entities.{Entity, Param};
ghost use Rattle.uno_model.specs.Fits.{member_kinds};
ghost use Rattle.uno_model.specs.Functions.{Function};
ghost use Rattle.uno_model.specs.Kinds.{Kind};
ghost use Rattle.uno_model.specs.Sound.{IsSound};
ghost use Rattle.uno_values.specs.Fitting.{kinds_at};
ghost use Rattle.uno_values.specs.References.{ref_of};
ghost use Rattle.uno_values.specs.Values.{plain_of, plains_of};
ghost use Rattle.urp_message.specs.Messages.{answer_of, message_of};
ghost use Rattle.urp_model.specs.Namings.{face_at, namings, namings_each, namings_all, naming};
ghost use Rattle.bridge_tables.specs.Counted.{counted, with_stubs, carries, carried_by, one_or_none};

use bridge_objects::Objects;
use std::alloc::Global;
use type_registry::{FunctionRef, ParamRef, function_numbered};
use uno_base::NoMemory;
use uno_types::{Field, Name, Registry, TypeName, Way};
use uno_values::{AnyValue, Reference, Value};
use urp_message::{Answer, Message};

/// A request or the reply to it.
#[derive(Clone, Copy)]
enum Phase {
    Request,
    Reply,
}

/// Counts what the values of a message name.
#[tactic(auto, unfolding(message_model::specs::MessageNamings::message_namings, message_model::specs::Calls::numbered))]
pub(crate) fn count_message(
    alloc: Global,
    registry: &Registry,
    objects: &mut Objects,
    message: &Message,
) -> Result<(), NoMemory>
    requires { IsSound registry.now }
    ensures counted { OnOk result (objects.new ≡ counted (message_namings registry.now (message_of message.now)) objects.old) }
    ensures kept { with_stubs objects.old.stubs objects.new ≡ objects.old }
{
    match message {
        Message::Request {
            face,
            function,
            args,
            ..
        } => {
            let function = function_numbered(registry, face.as_str(), *function);
            count_carried(alloc, registry, objects, &function, Phase::Request, args)
        }
        Message::Release { .. } => Ok(()),
        Message::Reply {
            face,
            function,
            answer,
            ..
        } => {
            if is_simple_answer(answer) {
                return Ok(());
            }
            let function = function_numbered(registry, face.as_str(), *function);
            count_answer(alloc, registry, objects, &function, answer)
        }
    }
}

/// Whether an answer is a result alone that can hold no reference.
fn is_simple_answer(answer: &Answer) -> bool
    ensures { IsTrue result → (reg : List Entity) (f : Option Function) → answer_namings reg f (answer_of answer.now) ≡ [] }
{
    let Answer::Returned { value, outs } = answer else {
        return false;
    };
    if !outs.is_empty() {
        return false;
    }
    is_simple(value)
}

/// Whether a value is of a kind that can hold no reference.
#[tactic(auto, unfolding(urp_model::specs::Namings::namings))]
fn is_simple(value: &Value) -> bool
    ensures { IsTrue result → (reg : List Entity) (k : Kind) → namings reg (plain_of value.now) k ≡ [] }
{
    match value {
        Value::Any(_) | Value::Tuple(_, _) | Value::List(_, _) | Value::Ref(_) => false,
        Value::Void
        | Value::Char(_)
        | Value::Boolean(_)
        | Value::Byte(_)
        | Value::Short(_)
        | Value::UnsignedShort(_)
        | Value::Long(_)
        | Value::UnsignedLong(_)
        | Value::Hyper(_)
        | Value::UnsignedHyper(_)
        | Value::Str(_)
        | Value::Kind(_)
        | Value::Enum(_, _)
        | Value::Bytes(_) => true,
    }
}

/// What an answer to a function names.
fn count_answer(
    alloc: Global,
    registry: &Registry,
    objects: &mut Objects,
    function: &Option<FunctionRef>,
    answer: &Answer,
) -> Result<(), NoMemory>
    requires { IsSound registry.now }
    ensures counted { OnOk result (objects.new ≡ counted (answer_namings registry.now (option_map lent_function function.now) (answer_of answer.now)) objects.old) }
    ensures kept { with_stubs objects.old.stubs objects.new ≡ objects.old }
{
    match answer {
        Answer::Returned { value, outs } => {
            count_result(alloc, registry, objects, function, value)?;
            count_carried(alloc, registry, objects, function, Phase::Reply, outs)
        }
        Answer::Raised(AnyValue { kind, value }) => {
            count_value(alloc, registry, objects, value, kind)
        }
    }
}

/// What a result names; a function that is not there has none, and a setter neither.
fn count_result(
    alloc: Global,
    registry: &Registry,
    objects: &mut Objects,
    function: &Option<FunctionRef>,
    value: &Value,
) -> Result<(), NoMemory>
    requires { IsSound registry.now }
    ensures counted { OnOk result (objects.new ≡ counted (namings registry.now (plain_of value.now) (result_of (option_map lent_function function.now))) objects.old) }
    ensures kept { with_stubs objects.old.stubs objects.new ≡ objects.old }
{
    let Some(function) = function else {
        return count_value(alloc, registry, objects, value, &TypeName::Void);
    };
    match function.result() {
        Some(kind) => count_value(alloc, registry, objects, value, kind),
        None => count_value(alloc, registry, objects, value, &TypeName::Void),
    }
}

/// The values of the parameters that a request or a reply carries.
fn count_carried(
    alloc: Global,
    registry: &Registry,
    objects: &mut Objects,
    function: &Option<FunctionRef>,
    phase: Phase,
    values: &[Value],
) -> Result<(), NoMemory>
    requires { IsSound registry.now }
    ensures counted { OnOk result (objects.new ≡ counted (namings_each registry.now (plains_of values.now) (carried_by phase (option_map lent_function function.now))) objects.old) }
    ensures kept { with_stubs objects.old.stubs objects.new ≡ objects.old }
{
    match function {
        Some(function) => count_params(alloc, registry, objects, function, phase, values),
        None => Ok(()),
    }
}

/// The same for a function.
fn count_params(
    alloc: Global,
    registry: &Registry,
    objects: &mut Objects,
    function: &FunctionRef,
    phase: Phase,
    values: &[Value],
) -> Result<(), NoMemory>
    requires { IsSound registry.now }
    ensures counted { OnOk result (objects.new ≡ counted (namings_each registry.now (plains_of values.now) (kinds_on (carries phase) (lent_function function.now).params)) objects.old) }
    ensures kept { with_stubs objects.old.stubs objects.new ≡ objects.old }
{
    let mut rest = values;
    for place in 0..function.param_count() {
        rest = count_param(alloc, registry, objects, function.param(place), phase, rest)?;
    }
    Ok(())
}

/// Counts the value of a parameter, where there is one that is carried, and gives the values behind it.
#[tactic(auto, unfolding(message_model::specs::Calls::kinds_on, urp_model::specs::Namings::namings_each))]
fn count_param<'a>(
    alloc: Global,
    registry: &Registry,
    objects: &mut Objects,
    param: Option<ParamRef>,
    phase: Phase,
    values: &'a [Value],
) -> Result<&'a [Value], NoMemory>
    requires { IsSound registry.now }
    ensures counted { (ps : List Param) → IfOk result (λ rest. counted (namings_each registry.now (plains_of rest.now) (kinds_on (carries phase) ps)) objects.new
        ≡ counted (namings_each registry.now (plains_of values.now) (kinds_on (carries phase) (one_or_none (option_map lent_param param.entry) ++ ps))) objects.old) }
    ensures kept { with_stubs objects.old.stubs objects.new ≡ objects.old }
{
    let Some(param) = param else {
        return Ok(values);
    };
    if !carries(phase, param.way) {
        return Ok(values);
    }
    let Some((value, rest)) = values.split_first() else {
        return Ok(values);
    };
    count_value(alloc, registry, objects, value, param.kind)?;
    Ok(rest)
}

/// Whether the value of a parameter goes with the request, or comes with the reply.
fn carries(phase: Phase, way: Way) -> bool
    ensures { result ≡ carries phase way }
{
    match phase {
        Phase::Request => matches!(way, Way::Into | Way::Both),
        Phase::Reply => matches!(way, Way::Out | Way::Both),
    }
}

/// What a value names at a type.
#[cycle(count)]
#[tactic(auto, unfolding(urp_model::specs::Namings::namings, urp_model::specs::Namings::namings_each, urp_model::specs::Namings::namings_all, bridge_model::specs::References::counts_sent))]
fn count_value(
    alloc: Global,
    registry: &Registry,
    objects: &mut Objects,
    value: &Value,
    kind: &TypeName,
) -> Result<(), NoMemory>
    requires { IsSound registry.now }
    ensures counted { OnOk result (objects.new ≡ counted (namings registry.now (plain_of value.now) (kind_of kind.now)) objects.old) }
    ensures kept { with_stubs objects.old.stubs objects.new ≡ objects.old }
{
    match value {
        Value::Any(any) => count_any(alloc, registry, objects, any),
        Value::Tuple(name, members) => count_members(alloc, registry, objects, name, members),
        Value::List(element, elements) => count_all(alloc, registry, objects, elements, element),
        Value::Ref(reference) => count_reference(objects, reference, kind),
        Value::Void
        | Value::Char(_)
        | Value::Boolean(_)
        | Value::Byte(_)
        | Value::Short(_)
        | Value::UnsignedShort(_)
        | Value::Long(_)
        | Value::UnsignedLong(_)
        | Value::Hyper(_)
        | Value::UnsignedHyper(_)
        | Value::Str(_)
        | Value::Kind(_)
        | Value::Enum(_, _)
        | Value::Bytes(_) => Ok(()),
    }
}

/// What an any holds is of its own type.
#[cycle(count)]
fn count_any(
    alloc: Global,
    registry: &Registry,
    objects: &mut Objects,
    any: &AnyValue,
) -> Result<(), NoMemory>
    requires { IsSound registry.now }
    ensures counted { OnOk result (objects.new ≡ counted (namings registry.now (plain_of any.now.value) (kind_of any.now.kind)) objects.old) }
    ensures kept { with_stubs objects.old.stubs objects.new ≡ objects.old }
{
    count_value(alloc, registry, objects, &any.value, &any.kind)
}

/// Members are of the types of their places.
#[cycle(count)]
fn count_members(
    alloc: Global,
    registry: &Registry,
    objects: &mut Objects,
    name: &Name,
    members: &[Value],
) -> Result<(), NoMemory>
    requires { IsSound registry.now }
    ensures counted { OnOk result (objects.new ≡ counted (namings_each registry.now (plains_of members.now) (member_kinds registry.now name.now)) objects.old) }
    ensures kept { with_stubs objects.old.stubs objects.new ≡ objects.old }
{
    let fields = registry.members(alloc, name.as_str())?;
    count_each(alloc, registry, objects, members, &fields)
}

/// Values of the types of these fields.
#[cycle(count)]
#[tactic(auto, unfolding(urp_model::specs::Namings::namings_each, bridge_model::specs::References::counts_sent))]
fn count_each(
    alloc: Global,
    registry: &Registry,
    objects: &mut Objects,
    members: &[Value],
    fields: &[&Field],
) -> Result<(), NoMemory>
    requires { IsSound registry.now }
    ensures counted { OnOk result (objects.new ≡ counted (namings_each registry.now (plains_of members.now) (kinds_at fields.now)) objects.old) }
    ensures kept { with_stubs objects.old.stubs objects.new ≡ objects.old }
{
    for place in 0..members.len().min(fields.len()) {
        count_value(
            alloc,
            registry,
            objects,
            &members[place],
            &fields[place].kind,
        )?;
    }
    Ok(())
}

/// Elements of one type.
#[cycle(count)]
#[tactic(auto, unfolding(urp_model::specs::Namings::namings_all, bridge_model::specs::References::counts_sent))]
fn count_all(
    alloc: Global,
    registry: &Registry,
    objects: &mut Objects,
    elements: &[Value],
    kind: &TypeName,
) -> Result<(), NoMemory>
    requires { IsSound registry.now }
    ensures counted { OnOk result (objects.new ≡ counted (namings_all registry.now (plains_of elements.now) (kind_of kind.now)) objects.old) }
    ensures kept { with_stubs objects.old.stubs objects.new ≡ objects.old }
{
    for element in elements {
        count_value(alloc, registry, objects, element, kind)?;
    }
    Ok(())
}

/// An own object is counted under the interface that its place writes.
#[tactic(auto, unfolding(bridge_model::specs::References::counts_sent))]
fn count_reference(
    objects: &mut Objects,
    reference: &Reference,
    kind: &TypeName,
) -> Result<(), NoMemory>
    ensures counted { OnOk result (objects.new ≡ counted (naming (ref_of reference.now) (kind_of kind.now)) objects.old) }
    ensures kept { with_stubs objects.old.stubs objects.new ≡ objects.old }
{
    let Reference::Local { oid, face } = reference else {
        return Ok(());
    };
    objects.sent_one(oid, face_at(kind, face))
}

/// The interface that a place writes: that of its type, and at another type the one that is held.
fn face_at<'a>(kind: &'a TypeName, held: &'a Name) -> &'a Name
    ensures { result.now ≡ face_at (kind_of kind.now) held.now }
{
    match kind {
        TypeName::Interface(written) => written,
        TypeName::Void
        | TypeName::Char
        | TypeName::Boolean
        | TypeName::Byte
        | TypeName::Short
        | TypeName::UnsignedShort
        | TypeName::Long
        | TypeName::UnsignedLong
        | TypeName::Hyper
        | TypeName::UnsignedHyper
        | TypeName::Str
        | TypeName::Kind
        | TypeName::Any
        | TypeName::Enum(_)
        | TypeName::Struct(_)
        | TypeName::Exception(_)
        | TypeName::Sequence(_) => held,
    }
}
