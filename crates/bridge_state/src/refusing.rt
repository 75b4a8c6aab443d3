//! Why a message of the peer breaks the protocol: all tests stand before anything is taken.
ghost use Rattle.std.specs.Prelude.{◌≡◌, map};
ghost use Rattle.bridge_model.specs.Receiving.{refusal, refs_refusal, ref_refusal, named_refusal, is_target};
ghost use Rattle.bridge_model.specs.References.{refs_of_values, refs_of_answer};
ghost use Rattle.bridge_setting.specs.Settings.{setting_of};
ghost use Rattle.bridge_tables.specs.EndTables.{IsOf};
ghost use Rattle.uno_model.specs.Sound.{IsSound};
ghost use Rattle.uno_model.specs.Values.{refs, refs_in};
ghost use Rattle.uno_values.specs.References.{ref_of};
ghost use Rattle.uno_values.specs.Values.{plain_of, plains_of};
ghost use Rattle.urp_message.specs.Messages.{message_of, answer_of};
ghost use Rattle.bridge_state.specs.EndSides.{IsEndOf};
ghost use Rattle.bridge_state.specs.Threads.{thread_refusal};

use crate::State;
use bridge_setting::Setting;
use bridge_tables::Tables;
use call_stacks::Stacks;
use plan_types::Frame;
use uno_types::{Name, Text, Tid};
use uno_values::{AnyValue, Reference, Value};
use urp_message::{Answer, Message, Reason};

impl State {
    /// Why a message breaks the protocol, where it does.
    #[tactic(auto, unfolding(bridge_model::specs::Receiving::refusal))]
    pub(crate) fn refusal(&self, setting: &Setting, message: &Message) -> Option<Reason>
        requires of { IsEndOf (setting_of setting.now) self.now }
        requires sound { IsSound setting.now.registry }
        ensures { result ≡ refusal (setting_of setting.now) self.now.side (message_of message.now) }
    {
        match message {
            Message::Release { tid: _, oid, face } => {
                if self.tables.has_stub(oid, face) {
                    None
                } else {
                    Some(Reason::Unowed)
                }
            }
            Message::Request {
                tid,
                oid,
                face,
                function,
                args,
            } => {
                if !is_target(setting, &self.tables, oid, face, *function) {
                    return Some(Reason::UnknownOid);
                }
                if let Some(why) = thread_refusal(setting, &self.stacks, tid) {
                    return Some(why);
                }
                values_refusal(setting, &self.tables, args)
            }
            Message::Reply {
                tid: _,
                face: _,
                function: _,
                answer,
            } => answer_refusal(setting, &self.tables, answer),
        }
    }
}

/// Whether an object may be called, or a name asked for, which is no object of this end.
fn is_target(setting: &Setting, tables: &Tables, oid: &Text, face: &Name, function: u16) -> bool
    requires { IsSound setting.now.registry }
    ensures { result ≡ is_target (setting_of setting.now) oid.now face.now function tables.now.tables.stubs }
{
    if setting.is_own(oid.as_str().as_bytes()) {
        return tables.is_called_out(setting, oid, face);
    }
    function == 0 && !oid.as_str().is_empty()
}

/// Why a request may not come on a thread: something runs on it, or this end gave its name and nothing waits there.
fn thread_refusal(setting: &Setting, stacks: &Stacks, tid: &Tid) -> Option<Reason>
    ensures { result ≡ thread_refusal (setting_of setting.now) tid.now stacks.now }
{
    match stacks.top(tid) {
        Some(Frame::Out(_)) => None,
        Some(Frame::Body(_)) | Some(Frame::Base { root: _ }) => Some(Reason::BusyThread),
        None => {
            if setting.is_own(tid.as_bytes()) {
                Some(Reason::UnknownThread)
            } else {
                None
            }
        }
    }
}

/// Why what an answer refers to breaks the protocol.
#[tactic(auto, unfolding(bridge_model::specs::References::refs_of_answer))]
fn answer_refusal(setting: &Setting, tables: &Tables, answer: &Answer) -> Option<Reason>
    requires of { IsOf (setting_of setting.now) tables.now }
    requires sound { IsSound setting.now.registry }
    ensures { result ≡ refs_refusal (setting_of setting.now) tables.now.tables (refs_of_answer (answer_of answer.now)) }
{
    match answer {
        Answer::Returned { value, outs } => match value_refusal(setting, tables, value) {
            Some(why) => Some(why),
            None => values_refusal(setting, tables, outs),
        },
        Answer::Raised(exception) => value_refusal(setting, tables, &exception.value),
    }
}

/// Why what values refer to breaks the protocol.
fn values_refusal(setting: &Setting, tables: &Tables, values: &[Value]) -> Option<Reason>
    requires of { IsOf (setting_of setting.now) tables.now }
    requires sound { IsSound setting.now.registry }
    ensures { result ≡ refs_refusal (setting_of setting.now) tables.now.tables (refs_of_values (map plain_of values.now)) }
{
    each_refusal(setting, tables, values)
}

#[cycle(refusal)]
#[tactic(auto, unfolding(uno_model::specs::Values::refs_in))]
fn each_refusal(setting: &Setting, tables: &Tables, values: &[Value]) -> Option<Reason>
    requires of { IsOf (setting_of setting.now) tables.now }
    requires sound { IsSound setting.now.registry }
    ensures { result ≡ refs_refusal (setting_of setting.now) tables.now.tables (refs_in (plains_of values.now)) }
{
    for value in values {
        if let Some(why) = value_refusal(setting, tables, value) {
            return Some(why);
        }
    }
    None
}

#[cycle(refusal)]
fn any_refusal(setting: &Setting, tables: &Tables, any: &AnyValue) -> Option<Reason>
    requires of { IsOf (setting_of setting.now) tables.now }
    requires sound { IsSound setting.now.registry }
    ensures { result ≡ refs_refusal (setting_of setting.now) tables.now.tables (refs (plain_of any.now.value)) }
{
    value_refusal(setting, tables, &any.value)
}

#[cycle(refusal)]
#[tactic(auto, unfolding(bridge_model::specs::Receiving::refs_refusal, uno_model::specs::Values::refs, uno_model::specs::Values::refs_in))]
fn value_refusal(setting: &Setting, tables: &Tables, value: &Value) -> Option<Reason>
    requires of { IsOf (setting_of setting.now) tables.now }
    requires sound { IsSound setting.now.registry }
    ensures { result ≡ refs_refusal (setting_of setting.now) tables.now.tables (refs (plain_of value.now)) }
{
    match value {
        Value::Any(any) => any_refusal(setting, tables, any),
        Value::Tuple(_, members) => each_refusal(setting, tables, members),
        Value::List(_, elements) => each_refusal(setting, tables, elements),
        Value::Ref(reference) => reference_refusal(setting, tables, reference),
        Value::Void
        | Value::Char(_)
        | Value::Boolean(_)
        | Value::Byte(_)
        | Value::Short(_)
        | Value::UnsignedShort(_)
        | Value::Long(_)
        | Value::UnsignedLong(_)
        | Value::Hyper(_)
        | Value::UnsignedHyper(_)
        | Value::Str(_)
        | Value::Kind(_)
        | Value::Enum(_, _)
        | Value::Bytes(_) => None,
    }
}

fn reference_refusal(setting: &Setting, tables: &Tables, reference: &Reference) -> Option<Reason>
    requires of { IsOf (setting_of setting.now) tables.now }
    requires sound { IsSound setting.now.registry }
    ensures { result ≡ ref_refusal (setting_of setting.now) tables.now.tables (ref_of reference.now) }
{
    match reference {
        Reference::Null => None,
        Reference::Local { oid, face } => named_refusal(setting, tables, oid, face),
        Reference::Remote { oid, face } => named_refusal(setting, tables, oid, face),
    }
}

/// An object of this end that a value names was sent out, and supports the interface at its place.
fn named_refusal(setting: &Setting, tables: &Tables, oid: &Text, face: &Name) -> Option<Reason>
    requires of { IsOf (setting_of setting.now) tables.now }
    requires sound { IsSound setting.now.registry }
    ensures { result ≡ named_refusal (setting_of setting.now) tables.now.tables oid.now face.now }
{
    if !setting.is_own(oid.as_str().as_bytes()) {
        return None;
    }
    if !tables.any_stub(oid) {
        return Some(Reason::UnknownOid);
    }
    if !tables.object_supports(setting, oid, face) {
        return Some(Reason::WrongInterface);
    }
    None
}
