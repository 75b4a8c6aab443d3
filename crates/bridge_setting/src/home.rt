//! Values that came: each reference is told by its identity as one of this end or of the peer's.
ghost use Rattle.std.specs.Prelude.{◌≡◌, map};
ghost use Rattle.bridge_model.specs.References.{home_value, home_values, each_home, home_answer};
ghost use Rattle.bridge_model.specs.Settings.{at_home, ref_of as plain_ref_of};
ghost use Rattle.bridge_setting.specs.Settings.{setting_of};
ghost use Rattle.uno_values.specs.References.{ref_of};
ghost use Rattle.uno_values.specs.Values.{plain_of, plains_of};
ghost use Rattle.urp_message.specs.Messages.{answer_of};

use crate::Setting;
use std::mem;
use uno_types::{Name, Text};
use uno_values::{AnyValue, Reference, Value};
use urp_message::Answer;

/// An answer as it is here.
#[tactic(auto, unfolding(bridge_model::specs::References::home_answer))]
pub fn home_answer(setting: &Setting, answer: Answer) -> Answer
    ensures { answer_of result ≡ home_answer (setting_of setting.now) (answer_of answer) }
{
    match answer {
        Answer::Returned { value, outs } => {
            let mut value = value;
            home_value(setting, &mut value);
            let outs = home_each(setting, outs);
            Answer::Returned { value, outs }
        }
        Answer::Raised(any) => {
            let mut any = any;
            home_value(setting, &mut any.value);
            Answer::Raised(any)
        }
    }
}

/// Each value as it is here.
pub fn home_each(setting: &Setting, values: Vec<Value>) -> Vec<Value>
    ensures each { map plain_of result.items ≡ each_home (setting_of setting.now) (map plain_of values.items) }
    ensures all { plains_of result.items ≡ home_values (setting_of setting.now) (plains_of values.items) }
{
    let mut values = values;
    home_all(setting, &mut values);
    values
}

/// A value becomes what it is here.
#[cycle(home)]
#[tactic(auto, unfolding(bridge_model::specs::References::home_value))]
fn home_value(setting: &Setting, value: &mut Value)
    ensures { plain_of value.new ≡ home_value (setting_of setting.now) (plain_of value.old) }
{
    match value {
        Value::Any(any) => home_any(setting, any),
        Value::Tuple(_, members) => home_all(setting, members),
        Value::List(_, elements) => home_all(setting, elements),
        Value::Ref(reference) => {
            let held = mem::replace(reference, Reference::Null);
            *reference = at_home(setting, held);
        }
        Value::Void
        | Value::Char(_)
        | Value::Boolean(_)
        | Value::Byte(_)
        | Value::Short(_)
        | Value::UnsignedShort(_)
        | Value::Long(_)
        | Value::UnsignedLong(_)
        | Value::Hyper(_)
        | Value::UnsignedHyper(_)
        | Value::Str(_)
        | Value::Kind(_)
        | Value::Enum(_, _)
        | Value::Bytes(_) => {}
    }
}

/// What an any holds becomes what it is here.
#[cycle(home)]
fn home_any(setting: &Setting, any: &mut Box<AnyValue>)
    ensures kind { any.new.value.kind ≡ any.old.value.kind }
    ensures value { plain_of any.new.value.value ≡ home_value (setting_of setting.now) (plain_of any.old.value.value) }
{
    home_value(setting, &mut any.value);
}

/// Each value becomes what it is here.
#[cycle(home)]
fn home_all(setting: &Setting, values: &mut Vec<Value>)
    ensures each { map plain_of values.new.items ≡ each_home (setting_of setting.now) (map plain_of values.old.items) }
    ensures all { plains_of values.new.items ≡ home_values (setting_of setting.now) (plains_of values.old.items) }
{
    for place in 0..values.len() {
        home_value(setting, &mut values[place]);
    }
}

/// A reference is told by its identity.
#[tactic(auto, unfolding(bridge_model::specs::Settings::ref_of))]
fn at_home(setting: &Setting, reference: Reference) -> Reference
    ensures { ref_of result ≡ at_home (setting_of setting.now) (ref_of reference) }
{
    match reference {
        Reference::Null => Reference::Null,
        Reference::Local { oid, face } => told(setting, oid, face),
        Reference::Remote { oid, face } => told(setting, oid, face),
    }
}

/// An object by its identity, under an interface: one of this end, or one of the peer's.
#[tactic(auto, unfolding(bridge_model::specs::Settings::ref_of))]
pub fn told(setting: &Setting, oid: Text, face: Name) -> Reference
    ensures { ref_of result ≡ plain_ref_of (setting_of setting.now) oid face }
{
    if setting.is_own(oid.as_str().as_bytes()) {
        Reference::Local { oid, face }
    } else {
        Reference::Remote { oid, face }
    }
}
