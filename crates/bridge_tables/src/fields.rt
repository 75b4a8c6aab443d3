//! Fields that get other values, and an object that is taken back.
ghost use Rattle.std.specs.Prelude.{◌≡◌, ◌≤◌, ℕ, suc, true, List, [], None, OnOk, OnErr, map, length, unwrap_or};
ghost use Rattle.std.specs.List.{position};
ghost use Rattle.std.specs.Str.{bytes_eq};
ghost use Rattle.bridge_model.specs.Objects.{as_variables, field_values, makes_object, object_numbered};
ghost use Rattle.bridge_objects.specs.Kept as kept;
ghost use Rattle.bridge_setting.specs.Settings.{setting_of};
ghost use Rattle.plan_model.specs.Evaluation.{value_under};
ghost use Rattle.plan_model.specs.Holdings.{put};
ghost use Rattle.uno_entities.specs.Entities.{field_of};
ghost use Rattle.uno_entities.specs.declared.entity.Field.{Field};
ghost use Rattle.uno_model.specs.Values.{Plain, void};
ghost use Rattle.uno_values.specs.Values.{plain_of};
ghost use Rattle.bridge_tables.specs.EndTables.{EndTables, IsOf, on_tables, lasting};
ghost use Rattle.bridge_tables.specs.Fields.{sets_field_of, with_values};

use crate::Tables;
use crate::objects::fields_of;
use bridge_setting::Setting;
use std::mem;
use table_model::Holder;
use uno_base::NoMemory;
use uno_types::{Field, Name};
use uno_values::Value;

impl Tables {
    /// Takes back the object that was made last, with what it holds. What lasts is then as it was before that object.
    pub fn unmake(&mut self)
        ensures { (behaviour : ℕ) → (fields : List Plain) → (e : EndTables) → object_numbered (suc e.tables.objects_made) e.tables.objects ≡ None → lasting self.old ≡ lasting (on_tables (makes_object behaviour fields) e) → lasting self.new ≡ lasting e }
    {
        let number = self.objects.objects_made();
        if let Some(fields) = self.objects.unmake() {
            self.lose_values(Holder::Object(number), &fields);
        }
    }

    /// Gives a field of an object another value, which it holds from then on; the old one is let go.
    pub fn set_field(
        &mut self,
        setting: &Setting,
        number: u32,
        name: &Name,
        value: Value,
    ) -> Result<(), NoMemory>
        requires of { IsOf (setting_of setting.now) self.old }
        requires stands { self.old.stands ≡ true }
        ensures set { OnOk result (self.new ≡ on_tables (sets_field_of (setting_of setting.now) number name.now (plain_of value)) self.old) }
        ensures kept { OnErr result (self.new ≡ self.old) }
    {
        let Ok(references) = uno_values::refs_of(self.alloc, &value) else {
            drop(value);
            return Err(NoMemory);
        };
        let behaviour = self.behaviour_of(number);
        if let Err(error) = self.gain_all(setting, Holder::Object(number), &references) {
            drop(references);
            drop(value);
            return Err(error);
        }
        drop(references);
        let was = self.put_field(fields_of(&setting.plan, behaviour), number, name, value);
        self.let_value_go(setting, Holder::Object(number), &was);
        drop(was);
        Ok(())
    }

    /// Puts another value in a field, and gives the one that was there; void where there is none.
    fn put_field(&mut self, fields: &[Field], number: u32, name: &Name, value: Value) -> Value
        ensures was { plain_of result ≡ value_under name.now (as_variables (map field_of fields.now) (unwrap_or (kept.fields_of (object_numbered number self.old.tables.objects)) [])) }
        ensures put { self.new ≡ on_tables (with_values number (field_values (put name.now (plain_of value) (as_variables (map field_of fields.now) (unwrap_or (kept.fields_of (object_numbered number self.old.tables.objects)) []))))) self.old }
    {
        let mut values = self.take_fields(number);
        values.truncate(fields.len());
        let was = put(fields, &mut values, name, value);
        self.give_fields(number, values);
        was
    }

    /// Takes the values of the fields of an object out, none of one that does not live.
    fn take_fields(&mut self, number: u32) -> Vec<Value>
        ensures was { map plain_of result.items ≡ unwrap_or (kept.fields_of (object_numbered number self.old.tables.objects)) [] }
        ensures out { self.new ≡ on_tables (with_values number []) self.old }
    {
        self.objects.set_fields(number, Vec::new(self.alloc))
    }

    /// Gives an object these values of its fields.
    fn give_fields(&mut self, number: u32, values: Vec<Value>)
        ensures { self.new ≡ on_tables (with_values number (map plain_of values.items)) self.old }
    {
        self.objects.set_fields(number, values);
    }
}

/// Puts a value in the place of the one under a name, and gives that; void where the name is not there.
fn put(fields: &[Field], values: &mut Vec<Value>, name: &Name, value: Value) -> Value
    requires { length values.old.items ≤ length fields.now }
    ensures put { map plain_of values.new.items ≡ field_values (put name.now (plain_of value) (as_variables (map field_of fields.now) (map plain_of values.old.items))) }
    ensures was { plain_of result ≡ value_under name.now (as_variables (map field_of fields.now) (map plain_of values.old.items)) }
{
    let Some(place) = place_of(fields, name) else {
        drop(value);
        return no_value();
    };
    if place >= values.len() {
        drop(value);
        return no_value();
    }
    mem::replace(&mut values[place], value)
}

/// The value of a name that is not there.
fn no_value() -> Value
    ensures { plain_of result ≡ void }
{
    Value::Void
}

/// The place of the first field of a name.
fn place_of(fields: &[Field], name: &Name) -> Option<usize>
    ensures { result ≡ position (λ (f : Field). bytes_eq name.now f.name) fields.now }
{
    fields
        .iter()
        .position(|field| name.as_str() == field.name.as_str())
}
