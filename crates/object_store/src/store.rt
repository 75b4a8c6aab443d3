//! The store of objects, which contracts see as rows in rising order of their numbers.
ghost use Rattle.std.specs.Prelude.{◌≡◌, ℕ, ◌+◌, ◌-◌, ◌<◌, ◌^◌, T, length, set, get_or, None, Some, IsSome, IfSome, IfNone, IfOk, OnOk, OnErr, option_map};
ghost use Rattle.std.specs.FinMap.{is_sorted};
ghost use Rattle.std.specs.Option.{IsSomeAnd};
ghost use Rattle.std.specs.Ordering.{nat_cmp};
ghost use Rattle.table_model.specs.Objects as model;
ghost use Rattle.table_model.specs.Objects.{no_objects, object, made_one, unmade, changed, removed, lowest};

use crate::object::Object;
use crate::objects;
use birth_index::BirthIndex;
use std::alloc::Global;
use std::collections::BTreeMap;
use std::marker::Model;
use uno_base::NoMemory;
use uno_values::Value;

/// The objects of an endpoint.
pub type ObjectStore = Store<Value>;

/// Objects whose fields hold values of one type.
#[derive(Drop)]
pub struct Store<V> {
    objects: BTreeMap<u32, Object<V>>,
    marks: BirthIndex,
    made: u32,
}

impl<V> Model for Store<V> {
    ghost use Rattle.table_model.specs.Objects.{Objects};
    ghost use Rattle.object_store.specs.Rows.{object_rows, IsKept};

    ghost Value = { Objects V };

    ghost view = { λ s. record { made = s.made; rows = object_rows s.objects.entries } };

    ghost invariant = { λ s. IsKept s.objects s.marks s.made };
}

impl<V: Drop> Store<V> {
    /// An empty store.
    pub fn new(alloc: Global) -> Store<V>
        ensures { result ≡ no_objects }
    {
        Store {
            objects: BTreeMap::new(alloc),
            marks: BirthIndex::new(alloc),
            made: 0,
        }
    }

    /// Makes an object, and gives its number.
    pub fn make(&mut self, behaviour: u32, fields: Vec<V>) -> Result<u32, NoMemory>
        requires { self.old.made < 2 ^ 32 - 1 }
        ensures number { IfOk result (λ number. number ≡ self.old.made + 1) }
        ensures made { OnOk result (self.new ≡ made_one behaviour fields.items self.old) }
        ensures back { OnOk result (unmade self.new ≡ self.old) }
        ensures kept { OnErr result (self.new ≡ self.old) }
    {
        let number = self.made + 1;
        self.marks.make_room(u64::from(number))?;
        self.objects.insert(
            number,
            Object {
                behaviour,
                fields,
                may_go: false,
            },
        )?;
        self.made = number;
        Ok(number)
    }

    /// Takes back the last object that was made, where one was made and it lives, and gives its fields.
    pub fn unmake(&mut self) -> Option<Vec<V>>
        ensures was { IfSome result (λ fields. option_map (λ o. o.fields) (object self.old.made self.old) ≡ Some fields.items) }
        ensures unmade { IfSome result (λ fields. self.new ≡ unmade self.old) }
        ensures none { IfNone result (0 < self.old.made → object self.old.made self.old ≡ None) }
        ensures kept { IfNone result (self.new ≡ self.old) }
    {
        if self.made == 0 {
            return None;
        }
        let object = self.objects.remove(&self.made)?;
        self.marks.clear(u64::from(self.made));
        self.made -= 1;
        Some(object.fields)
    }

    /// The behaviour and the fields of an object.
    pub fn object(&self, number: u32) -> Option<(u32, &[V])>
        ensures found { IfSome result (λ r. option_map (λ o. o.behaviour) (object number self.now) ≡ Some r.0) }
        ensures fields { IfSome result (λ r. option_map (λ o. o.fields) (object number self.now) ≡ Some r.1.now) }
        ensures none { IfNone result (object number self.now ≡ None) }
        ensures rises { T (is_sorted nat_cmp self.now.rows) }
    {
        let object = self.objects.get(&number)?;
        Some((object.behaviour, object.fields.as_slice()))
    }

    /// Sets a field of an object, and gives its old value.
    pub fn set_field(&mut self, number: u32, place: u32, value: V) -> V
        requires { IsSomeAnd (object number self.old) (λ o. place < length o.fields) }
        ensures was { (o : model.Object V) → object number self.old ≡ Some o → result ≡ get_or o.fields place result }
        ensures set { (o : model.Object V) → object number self.old ≡ Some o → self.new ≡ changed number (record o { fields = set o.fields place value }) self.old }
    {
        objects::set_field(&mut self.objects, number, place, value)
    }

    /// Gives an object other fields, and gives back the old ones.
    pub fn replace_fields(&mut self, number: u32, fields: Vec<V>) -> Vec<V>
        requires { IsSome (object number self.old) }
        ensures was { (o : model.Object V) → object number self.old ≡ Some o → result.items ≡ o.fields }
        ensures set { (o : model.Object V) → object number self.old ≡ Some o → self.new ≡ changed number (record o { fields = fields.items }) self.old }
    {
        objects::replace_fields(&mut self.objects, number, fields)
    }

    /// Says of an object whether it may go.
    pub fn set_may_go(&mut self, number: u32, may_go: bool)
        requires { IsSome (object number self.old) }
        ensures { (o : model.Object V) → object number self.old ≡ Some o → self.new ≡ changed number (record o { may_go = may_go }) self.old }
    {
        objects::set_may_go(&mut self.objects, number, may_go);
        self.marks.turn(u64::from(number), may_go);
    }

    /// Takes out an object, and gives its fields.
    pub fn remove(&mut self, number: u32) -> Vec<V>
        requires { IsSome (object number self.old) }
        ensures was { (o : model.Object V) → object number self.old ≡ Some o → result.items ≡ o.fields }
        ensures removed { self.new ≡ removed number self.old }
    {
        let Some(object) = self.objects.remove(&number) else {
            unreachable!()
        };
        self.marks.clear(u64::from(number));
        object.fields
    }

    /// The lowest marked object.
    pub fn lowest(&self) -> Option<u32>
        ensures lowest { result ≡ lowest self.now.rows }
        ensures rises { T (is_sorted nat_cmp self.now.rows) }
    {
        let number = self.marks.first_from(0)?;
        Some(number as u32)
    }

    /// How many objects were made.
    pub fn made(&self) -> u32
        ensures made { result ≡ self.now.made }
        ensures rises { T (is_sorted nat_cmp self.now.rows) }
        ensures given { (n : ℕ) → self.now.made < n → object n self.now ≡ None }
    {
        self.made
    }

    /// How many objects live.
    pub fn living(&self) -> u64
        ensures { result ≡ length self.now.rows }
    {
        self.objects.len() as u64
    }
}
