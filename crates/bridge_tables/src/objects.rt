//! Objects that are made, that get other fields, and that go.
ghost use Rattle.std.specs.Prelude.{◌≡◌, suc, None, Some, IfOk, OnOk, OnErr, map};
ghost use Rattle.bridge_model.specs.Applying.{behaviour_number};
ghost use Rattle.bridge_model.specs.Going.{reaps_object};
ghost use Rattle.bridge_model.specs.Objects.{makes_object, makes_default, makes_all, object_numbered, fields_of};
ghost use Rattle.bridge_model.specs.Settings as plain;
ghost use Rattle.bridge_model.specs.Sides.{Object};
ghost use Rattle.bridge_setting.specs.Settings.{setting_of};
ghost use Rattle.plan_model.specs.Plans.{first_objects};
ghost use Rattle.plan_types.specs.Plans.{plan_of};
ghost use Rattle.uno_entities.specs.Entities.{field_of};
ghost use Rattle.uno_model.specs.Defaults.{default_of_kind};
ghost use Rattle.uno_model.specs.Sound.{IsSound};
ghost use Rattle.uno_values.specs.Values.{plain_of};
ghost use Rattle.bridge_tables.specs.EndTables.{IsOf, on_tables};

use crate::Tables;
use crate::values::refs_of_values;
use bridge_setting::{MANAGER, Setting, has_offers};
use plan_types::Plan;
use std::alloc::Global;
use table_model::Holder;
use uno_base::NoMemory;
use uno_types::{Field, Registry};
use uno_values::{Value, default_of};

impl Tables {
    /// Makes an object of a behaviour, with these values of its fields, which it holds, and gives its number.
    pub fn make(
        &mut self,
        setting: &Setting,
        behaviour: u32,
        fields: Vec<Value>,
    ) -> Result<u32, NoMemory>
        requires { IsOf (setting_of setting.now) self.old }
        ensures number { IfOk result (λ number. number ≡ suc self.old.tables.objects_made) }
        ensures made { OnOk result (self.new ≡ on_tables (makes_object behaviour (map plain_of fields.items)) self.old) }
        ensures fresh { OnOk result (object_numbered (suc self.old.tables.objects_made) self.old.tables.objects ≡ None) }
        ensures kept { OnErr result (self.new ≡ self.old) }
    {
        let references = refs_of_values(self.alloc, &fields)?;
        let number = self.objects.make(behaviour, fields)?;
        match self.gain_all(setting, Holder::Object(number), &references) {
            Ok(()) => Ok(number),
            Err(NoMemory) => {
                drop(self.objects.unmake());
                Err(NoMemory)
            }
        }
    }

    /// The same with the defaults of its fields.
    pub fn make_default(&mut self, setting: &Setting, behaviour: u32) -> Result<u32, NoMemory>
        requires of { IsOf (setting_of setting.now) self.old }
        requires sound { IsSound setting.now.registry }
        ensures number { IfOk result (λ number. number ≡ suc self.old.tables.objects_made) }
        ensures made { OnOk result (self.new ≡ on_tables (makes_default (setting_of setting.now) behaviour) self.old) }
        ensures fresh { OnOk result (object_numbered (suc self.old.tables.objects_made) self.old.tables.objects ≡ None) }
        ensures kept { OnErr result (self.new ≡ self.old) }
    {
        let fields = defaults_of(
            self.alloc,
            &setting.registry,
            fields_of(&setting.plan, behaviour),
        )?;
        self.make(setting, behaviour, fields)
    }

    /// Makes the objects that are there from the beginning.
    pub fn make_first(&mut self, setting: &Setting) -> Result<(), NoMemory>
        requires of { IsOf (setting_of setting.now) self.old }
        requires sound { IsSound setting.now.registry }
        ensures { OnOk result (self.new ≡ on_tables (makes_all (setting_of setting.now) (first_objects (plan_of setting.now.plan))) self.old) }
    {
        self.make_exported(setting)?;
        if has_offers(&setting.plan) {
            self.make_default(setting, MANAGER)?;
            self.make_singletons(setting)?;
        }
        Ok(())
    }

    /// Those that are exported.
    fn make_exported(&mut self, setting: &Setting) -> Result<(), NoMemory>
        requires of { IsOf (setting_of setting.now) self.old }
        requires sound { IsSound setting.now.registry }
        ensures { OnOk result (self.new ≡ on_tables (makes_all (setting_of setting.now) (map (λ e. e.behaviour) (plan_of setting.now.plan).exports)) self.old) }
    {
        for place in 0..setting.plan.exports.len() {
            self.make_default(setting, setting.plan.exports[place].behaviour)?;
        }
        Ok(())
    }

    /// The singletons.
    fn make_singletons(&mut self, setting: &Setting) -> Result<(), NoMemory>
        requires of { IsOf (setting_of setting.now) self.old }
        requires sound { IsSound setting.now.registry }
        ensures { OnOk result (self.new ≡ on_tables (makes_all (setting_of setting.now) (map (λ o. o.behaviour) (plan_of setting.now.plan).singletons)) self.old) }
    {
        for place in 0..setting.plan.singletons.len() {
            self.make_default(setting, setting.plan.singletons[place].behaviour)?;
        }
        Ok(())
    }

    /// The behaviour of an object; 0 where it does not live.
    pub fn behaviour_of(&self, number: u32) -> u32
        ensures { result ≡ behaviour_number (object_numbered number self.now.tables.objects) }
    {
        match self.objects.object(number) {
            Some((behaviour, _)) => behaviour,
            None => 0,
        }
    }

    /// Takes out the lowest object that may go, and lets its fields go.
    pub fn reap(&mut self, setting: &Setting, number: u32)
        requires { IsOf (setting_of setting.now) self.old }
        ensures { (o : Object) → object_numbered number self.old.tables.objects ≡ Some o → self.new ≡ on_tables (reaps_object (setting_of setting.now) self.old.stands o) self.old }
    {
        let fields = self.objects.remove(number);
        if self.stands {
            self.let_values_go(setting, Holder::Object(number), &fields);
        } else {
            self.lose_values(Holder::Object(number), &fields);
        }
    }
}

/// The fields of a behaviour; one that is not there has none.
pub fn fields_of(plan: &Plan, behaviour: u32) -> &[Field]
    ensures { (g : plain.Setting) → g.plan ≡ plan_of plan.now → map field_of result.now ≡ fields_of g behaviour }
{
    match plan.behaviours.get(behaviour as usize) {
        Some(behaviour) => &behaviour.fields,
        None => &[],
    }
}

/// The default of each field.
fn defaults_of(alloc: Global, registry: &Registry, fields: &[Field]) -> Result<Vec<Value>, NoMemory>
    requires { IsSound registry.now }
    ensures { IfOk result (λ values. map plain_of values.items ≡ map (λ f. default_of_kind registry.now f.kind) (map field_of fields.now)) }
{
    let mut values = Vec::new(alloc);
    for field in fields {
        let Ok(value) = default_of(alloc, registry, &field.kind) else {
            drop(values);
            return Err(NoMemory);
        };
        if let Err(failed) = values.push(value) {
            drop(failed);
            drop(values);
            return Err(NoMemory);
        }
    }
    Ok(values)
}
