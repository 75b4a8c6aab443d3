//! The references in values: they are listed where memory may be wanted, and let go where it may not.
ghost use Rattle.std.specs.Prelude.{◌≡◌, ◌++◌, true, IfOk, OnOk, map};
ghost use Rattle.bridge_model.specs.References.{refs_of_values, refs_of_answer, lets_go_all, loses_all};
ghost use Rattle.bridge_setting.specs.Settings.{setting_of};
ghost use Rattle.uno_model.specs.Values.{refs, refs_in};
ghost use Rattle.uno_values.specs.References.{ref_of};
ghost use Rattle.uno_values.specs.Values.{plain_of, plains_of};
ghost use Rattle.urp_message.specs.Messages.{answer_of};
ghost use Rattle.bridge_tables.specs.EndTables.{IsOf, on_tables};

use crate::Tables;
use bridge_setting::Setting;
use std::alloc::Global;
use table_model::Holder;
use uno_base::NoMemory;
use uno_values::{AnyValue, Reference, Value, refs_of};
use urp_message::Answer;

/// The references in values, in order.
#[tactic(auto, unfolding(bridge_model::specs::References::refs_of_values))]
pub fn refs_of_values(alloc: Global, values: &[Value]) -> Result<Vec<Reference>, NoMemory>
    ensures { IfOk result (λ rs. map ref_of rs.items ≡ refs_of_values (map plain_of values.now)) }
{
    let mut all = Vec::new(alloc);
    push_all(alloc, values, &mut all)?;
    Ok(all)
}

#[tactic(auto, unfolding(bridge_model::specs::References::refs_of_values))]
fn push_all(alloc: Global, values: &[Value], all: &mut Vec<Reference>) -> Result<(), NoMemory>
    ensures { OnOk result (map ref_of all.new.items ≡ map ref_of all.old.items ++ refs_of_values (map plain_of values.now)) }
{
    for value in values {
        push_refs(alloc, value, all)?;
    }
    Ok(())
}

fn push_refs(alloc: Global, value: &Value, all: &mut Vec<Reference>) -> Result<(), NoMemory>
    ensures { OnOk result (map ref_of all.new.items ≡ map ref_of all.old.items ++ refs (plain_of value.now)) }
{
    let mut found = refs_of(alloc, value)?;
    all.append(&mut found)?;
    Ok(())
}

/// The references in an answer, in the order of its bytes.
#[tactic(auto, unfolding(bridge_model::specs::References::refs_of_answer))]
pub fn refs_of_answer(alloc: Global, answer: &Answer) -> Result<Vec<Reference>, NoMemory>
    ensures { IfOk result (λ rs. map ref_of rs.items ≡ refs_of_answer (answer_of answer.now)) }
{
    match answer {
        Answer::Returned { value, outs } => {
            let mut all = refs_of(alloc, value)?;
            push_all(alloc, outs, &mut all)?;
            Ok(all)
        }
        Answer::Raised(exception) => refs_of(alloc, &exception.value),
    }
}

impl Tables {
    /// Lets go of each reference in a value.
    #[cycle(letting)]
    #[tactic(auto, unfolding(bridge_model::specs::References::lets_go_all, uno_model::specs::Values::refs, uno_model::specs::Values::refs_in))]
    pub fn let_value_go(&mut self, setting: &Setting, holder: Holder, value: &Value)
        requires of { IsOf (setting_of setting.now) self.old }
        requires stands { self.old.stands ≡ true }
        ensures { self.new ≡ on_tables (lets_go_all (setting_of setting.now) holder (refs (plain_of value.now))) self.old }
    {
        match value {
            Value::Any(any) => self.let_any_go(setting, holder, any),
            Value::Tuple(_, members) => self.let_each_go(setting, holder, members),
            Value::List(_, elements) => self.let_each_go(setting, holder, elements),
            Value::Ref(reference) => self.let_go(setting, holder, reference),
            Value::Void
            | Value::Char(_)
            | Value::Boolean(_)
            | Value::Byte(_)
            | Value::Short(_)
            | Value::UnsignedShort(_)
            | Value::Long(_)
            | Value::UnsignedLong(_)
            | Value::Hyper(_)
            | Value::UnsignedHyper(_)
            | Value::Str(_)
            | Value::Kind(_)
            | Value::Enum(_, _)
            | Value::Bytes(_) => {}
        }
    }

    /// The same of what an any holds.
    #[cycle(letting)]
    fn let_any_go(&mut self, setting: &Setting, holder: Holder, any: &AnyValue)
        requires of { IsOf (setting_of setting.now) self.old }
        requires stands { self.old.stands ≡ true }
        ensures { self.new ≡ on_tables (lets_go_all (setting_of setting.now) holder (refs (plain_of any.now.value))) self.old }
    {
        self.let_value_go(setting, holder, &any.value)
    }

    /// The same of each value.
    #[cycle(letting)]
    #[tactic(auto, unfolding(bridge_model::specs::References::lets_go_all, uno_model::specs::Values::refs_in))]
    fn let_each_go(&mut self, setting: &Setting, holder: Holder, values: &[Value])
        requires of { IsOf (setting_of setting.now) self.old }
        requires stands { self.old.stands ≡ true }
        ensures { self.new ≡ on_tables (lets_go_all (setting_of setting.now) holder (refs_in (plains_of values.now))) self.old }
    {
        for value in values {
            self.let_value_go(setting, holder, value);
        }
    }

    /// The same of values.
    pub fn let_values_go(&mut self, setting: &Setting, holder: Holder, values: &[Value])
        requires of { IsOf (setting_of setting.now) self.old }
        requires stands { self.old.stands ≡ true }
        ensures { self.new ≡ on_tables (lets_go_all (setting_of setting.now) holder (refs_of_values (map plain_of values.now))) self.old }
    {
        self.let_each_go(setting, holder, values);
    }

    /// An occurrence less of each reference in a value, and no message.
    #[cycle(losing)]
    #[tactic(auto, unfolding(bridge_model::specs::References::loses_all, uno_model::specs::Values::refs, uno_model::specs::Values::refs_in))]
    pub fn lose_value(&mut self, holder: Holder, value: &Value)
        ensures { self.new ≡ on_tables (loses_all holder (refs (plain_of value.now))) self.old }
    {
        match value {
            Value::Any(any) => self.lose_any(holder, any),
            Value::Tuple(_, members) => self.lose_each(holder, members),
            Value::List(_, elements) => self.lose_each(holder, elements),
            Value::Ref(reference) => self.lose(holder, reference),
            Value::Void
            | Value::Char(_)
            | Value::Boolean(_)
            | Value::Byte(_)
            | Value::Short(_)
            | Value::UnsignedShort(_)
            | Value::Long(_)
            | Value::UnsignedLong(_)
            | Value::Hyper(_)
            | Value::UnsignedHyper(_)
            | Value::Str(_)
            | Value::Kind(_)
            | Value::Enum(_, _)
            | Value::Bytes(_) => {}
        }
    }

    /// The same of what an any holds.
    #[cycle(losing)]
    fn lose_any(&mut self, holder: Holder, any: &AnyValue)
        ensures { self.new ≡ on_tables (loses_all holder (refs (plain_of any.now.value))) self.old }
    {
        self.lose_value(holder, &any.value)
    }

    /// The same of each value.
    #[cycle(losing)]
    #[tactic(auto, unfolding(bridge_model::specs::References::loses_all, uno_model::specs::Values::refs_in))]
    fn lose_each(&mut self, holder: Holder, values: &[Value])
        ensures { self.new ≡ on_tables (loses_all holder (refs_in (plains_of values.now))) self.old }
    {
        for value in values {
            self.lose_value(holder, value);
        }
    }

    /// The same of values.
    pub fn lose_values(&mut self, holder: Holder, values: &[Value])
        ensures { self.new ≡ on_tables (loses_all holder (refs_of_values (map plain_of values.now))) self.old }
    {
        self.lose_each(holder, values);
    }
}
