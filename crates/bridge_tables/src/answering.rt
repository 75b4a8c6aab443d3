//! What objects support, whether the peer may call them, and what is answered for them.
ghost use Rattle.std.specs.Prelude.{◌≡◌, IfOk, option_map};
ghost use Rattle.std.specs.Option.{is_some};
ghost use Rattle.std.specs.Result.{result_ok};
ghost use Rattle.bridge_model.specs.Objects as plain_objects;
ghost use Rattle.bridge_model.specs.Objects.{number_of, object_named, object_supports, object_answer, name_answer, has_stub};
ghost use Rattle.bridge_model.specs.Receiving.{is_called_out};
ghost use Rattle.bridge_model.specs.Settings as plain;
ghost use Rattle.bridge_objects.specs.Kept as kept;
ghost use Rattle.bridge_setting.specs.Settings.{setting_of};
ghost use Rattle.plan_model.specs.Holdings.{no_object};
ghost use Rattle.table_model.specs.Holdings.{hold, holds};
ghost use Rattle.table_model.specs.Pair.{pair};
ghost use Rattle.table_model.specs.Stubs.{stub, is_last, released_one};
ghost use Rattle.uno_entities.specs.TypeNames.{kind_of};
ghost use Rattle.uno_model.specs.Sound.{IsSound};
ghost use Rattle.uno_model.specs.Values.{any};
ghost use Rattle.uno_values.specs.Values.{plain_of};
ghost use Rattle.bridge_tables.specs.Answering.{any_of_own};
ghost use Rattle.bridge_tables.specs.EndTables.{IsOf, on_tables};

use crate::Tables;
use bridge_objects::Unowed;
use bridge_setting::{Setting, exported, supports};
use std::alloc::Global;
use table_model::Holder;
use uno_base::NoMemory;
use uno_types::{Name, Text, TypeName};
use uno_values::{AnyValue, Reference, Value};

impl Tables {
    /// The number of the object of an identity; 0 is none's.
    pub fn number_of(&self, oid: &Text) -> u32
        ensures { (g : plain.Setting) → IsOf g self.now → result ≡ number_of (object_named g oid.now self.now.tables.objects) }
    {
        self.objects.number_named(oid.as_str()).unwrap_or(0)
    }

    /// Whether the object of an identity supports an interface.
    pub fn object_supports(&self, setting: &Setting, oid: &Text, wanted: &Name) -> bool
        requires of { IsOf (setting_of setting.now) self.now }
        requires sound { IsSound setting.now.registry }
        ensures { result ≡ object_supports (setting_of setting.now) oid.now wanted.now self.now.tables.objects }
    {
        let Some(number) = self.objects.number_named(oid.as_str()) else {
            return false;
        };
        let Some((behaviour, _)) = self.objects.object(number) else {
            return false;
        };
        supports(&setting.registry, &setting.plan, behaviour, wanted.as_str())
    }

    /// What the object of an identity answers to the question for an interface.
    pub fn object_answer(
        &self,
        setting: &Setting,
        oid: &Text,
        wanted: &TypeName,
    ) -> Result<Value, NoMemory>
        requires of { IsOf (setting_of setting.now) self.now }
        requires sound { IsSound setting.now.registry }
        ensures { IfOk result (λ answer. plain_of answer ≡ object_answer (setting_of setting.now) oid.now (kind_of wanted.now) self.now.tables.objects) }
    {
        let Some(face) = wanted.interface() else {
            return void_any(self.alloc);
        };
        if !self.object_supports(setting, oid, face) {
            return void_any(self.alloc);
        }
        any_of_local(self.alloc, oid, face)
    }

    /// What is answered for a name that the peer asks for.
    pub fn name_answer(
        &self,
        setting: &Setting,
        name: &Text,
        wanted: &TypeName,
    ) -> Result<Value, NoMemory>
        requires of { IsOf (setting_of setting.now) self.now }
        requires sound { IsSound setting.now.registry }
        ensures { IfOk result (λ answer. plain_of answer ≡ name_answer (setting_of setting.now) name.now (kind_of wanted.now) self.now.tables.objects) }
    {
        let Some(number) = exported(&setting.plan, name.as_str()) else {
            return void_any(self.alloc);
        };
        let Ok(number) = u32::try_from(number) else {
            return Err(NoMemory);
        };
        let oid = setting.own_oid(self.alloc, number)?;
        self.object_answer(setting, &oid, wanted)
    }

    /// Whether the peer may call an own object under an interface: whether it was sent out under one that is assignable to it.
    pub fn is_called_out(&self, setting: &Setting, oid: &Text, face: &Name) -> bool
        requires { IsSound setting.now.registry }
        ensures { result ≡ is_called_out setting.now.registry oid.now face.now self.now.tables.stubs }
    {
        self.objects.is_called_out(&setting.registry, oid, face)
    }

    /// Whether a pair was sent out.
    pub fn has_stub(&self, oid: &Text, face: &Name) -> bool
        ensures { result ≡ is_some (stub (pair oid.now face.now) self.now.tables.stubs) }
    {
        self.objects.has_stub(oid, face)
    }

    /// Whether an own object was sent out.
    pub fn any_stub(&self, oid: &Text) -> bool
        ensures { result ≡ has_stub oid.now self.now.tables.stubs }
    {
        self.objects.any_stub(oid)
    }

    /// The peer holds a pair once less; the answer is whether its stub is gone.
    pub fn released_one(&mut self, oid: &Text, face: &Name) -> Result<bool, Unowed>
        ensures answer { result_ok result ≡ option_map is_last (stub (pair oid.now face.now) self.old.tables.stubs) }
        ensures released { self.new ≡ on_tables (λ t. record t { stubs = released_one (pair oid.now face.now) t.stubs }) self.old }
    {
        self.objects.released_one(oid, face)
    }

    /// Whether a holder has an occurrence of a pair.
    pub fn holds(&self, holder: Holder, oid: &Text, face: &Name) -> bool
        ensures { result ≡ holds (hold holder (pair oid.now face.now)) self.now.tables.holdings }
    {
        self.objects.holds(holder, oid, face)
    }

    /// The lowest object that may go.
    pub fn lowest(&self) -> Option<u32>
        ensures { (g : plain.Setting) → IsOf g self.now → result ≡ kept.number_of (plain_objects.lowest g self.now.tables) }
    {
        self.objects.lowest()
    }
}

/// An own object under an interface, in an any of that type.
fn any_of_local(alloc: Global, oid: &Text, face: &Name) -> Result<Value, NoMemory>
    ensures { IfOk result (λ answer. plain_of answer ≡ any_of_own oid.now face.now) }
{
    let oid = oid.copy()?;
    let Ok(held) = face.copy() else {
        drop(oid);
        return Err(NoMemory);
    };
    let Ok(face) = face.copy() else {
        drop(oid);
        drop(held);
        return Err(NoMemory);
    };
    let value = Value::Ref(Reference::Local { oid, face: held });
    any_of(alloc, TypeName::Interface(face), value)
}

/// An any of void.
fn void_any(alloc: Global) -> Result<Value, NoMemory>
    ensures { IfOk result (λ answer. plain_of answer ≡ no_object) }
{
    any_of(alloc, TypeName::Void, Value::Void)
}

/// A value in an any of its type.
fn any_of(alloc: Global, kind: TypeName, value: Value) -> Result<Value, NoMemory>
    ensures { IfOk result (λ answer. plain_of answer ≡ any (kind_of kind) (plain_of value)) }
{
    match Box::new(alloc, AnyValue { kind, value }) {
        Ok(any) => Ok(Value::Any(any)),
        Err(failed) => {
            drop(failed);
            Err(NoMemory)
        }
    }
}
