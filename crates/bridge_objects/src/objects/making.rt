//! Objects that are made, that get other fields, and that go.
ghost use Rattle.std.specs.Prelude.{◌≡◌, ◌<◌, ℕ, suc, [], None, Some, T, map, IfOk, IfSome, IfNone, OnOk, OnErr};
ghost use Rattle.std.specs.FinMap.{is_sorted};
ghost use Rattle.std.specs.Option.{is_some, unwrap_or};
ghost use Rattle.std.specs.Ordering.{nat_cmp};
ghost use Rattle.table_model.specs.Objects.{object};
ghost use Rattle.uno_values.specs.Values.{plain_of};
ghost use Rattle.bridge_objects.specs.Kept.{numbered, fields_of, with_made, unmade, with_object_fields, removed};

use crate::{Objects, marks, naming};
use object_store::ObjectStore;
use uno_base::NoMemory;
use uno_values::Value;

impl Objects {
    /// Makes an object, and gives its number. What its fields refer to is not held by it yet.
    pub fn make(&mut self, behaviour: u32, fields: Vec<Value>) -> Result<u32, NoMemory>
        ensures number { IfOk result (λ number. number ≡ suc self.old.objects_made) }
        ensures made { OnOk result (self.new ≡ with_made behaviour (map plain_of fields.items) self.old) }
        ensures back { OnOk result (unmade self.new ≡ self.old) }
        ensures kept { OnErr result (self.new ≡ self.old) }
    {
        let made = self.store.made();
        if made == u32::MAX {
            return Err(NoMemory);
        }
        let oid = naming::oid_of(self.alloc, &self.prefix, made + 1)?;
        self.store.make(behaviour, fields)?;
        marks::refresh(
            &mut self.store,
            &self.prefix,
            self.first,
            &self.environment,
            &self.stubs,
            &oid,
        );
        Ok(made + 1)
    }

    /// Takes back the last object that was made, where one was made and it lives, and gives its fields. What they refer to it holds still.
    pub fn unmake(&mut self) -> Option<Vec<Value>>
        ensures was { IfSome result (λ fields. fields_of (numbered self.old.objects_made self.old) ≡ Some (map plain_of fields.items)) }
        ensures unmade { IfSome result (λ fields. self.new ≡ unmade self.old) }
        ensures none { IfNone result (0 < self.old.objects_made → numbered self.old.objects_made self.old ≡ None) }
        ensures kept { IfNone result (self.new ≡ self.old) }
    {
        self.store.unmake()
    }

    /// Gives an object other fields, and gives back the old ones, or these where no such object lives.
    pub fn set_fields(&mut self, number: u32, fields: Vec<Value>) -> Vec<Value>
        ensures was { map plain_of result.items ≡ unwrap_or (fields_of (numbered number self.old)) (map plain_of fields.items) }
        ensures set { self.new ≡ with_object_fields number (map plain_of fields.items) self.old }
    {
        if !lives(&self.store, number) {
            return fields;
        }
        self.store.replace_fields(number, fields)
    }

    /// Takes out an object, and gives its fields. What they refer to it holds still.
    pub fn remove(&mut self, number: u32) -> Vec<Value>
        ensures was { map plain_of result.items ≡ unwrap_or (fields_of (numbered number self.old)) [] }
        ensures removed { self.new ≡ removed number self.old }
    {
        if !lives(&self.store, number) {
            return Vec::new(self.alloc);
        }
        self.store.remove(number)
    }
}

/// Whether an object lives.
fn lives(store: &ObjectStore, number: u32) -> bool
    ensures lives { result ≡ is_some (object number store.now) }
    ensures rises { T (is_sorted nat_cmp store.now.rows) }
{
    store.object(number).is_some()
}
