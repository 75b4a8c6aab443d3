//! The objects themselves.
ghost use Rattle.std.specs.Prelude.{◌≡◌, ◌++◌, [], Some, IfOk, IfSome, IfNone, None, map, codes, length};
ghost use Rattle.table_model.specs.Holdings.{hold, holders, holds};
ghost use Rattle.table_model.specs.Pair.{pair};
ghost use Rattle.table_model.specs.Stubs.{stub};
ghost use Rattle.std.specs.Option.{is_some};
ghost use Rattle.uno_values.specs.Values.{plain_of};
ghost use Rattle.bridge_model.specs.Objects.{has_stub, is_held_object};
ghost use Rattle.bridge_model.specs.Receiving.{is_called_out};
ghost use Rattle.uno_model.specs.Sound.{IsSound};
ghost use Rattle.bridge_objects.specs.Kept.{nothing_kept, numbered, named, behaviour_of, fields_of, number_of, lowest};

mod ending;
mod gaining;
mod holding;
mod making;
mod sending;

use crate::{calling, marks};
use env_table::Environment;
use object_store::ObjectStore;
use std::alloc::Global;
use std::marker::Model;
use stub_table::StubTable;
use table_model::Holder;
use uno_base::NoMemory;
use uno_entities::{Name, Tag, Text};
use uno_types::Registry;
use uno_values::Value;

/// What an end of a bridge has of objects and references.
#[derive(Drop)]
pub struct Objects {
    alloc: Global,
    prefix: Text,
    first: u64,
    store: ObjectStore,
    environment: Environment,
    stubs: StubTable,
}

impl Model for Objects {
    ghost use Rattle.std.specs.Coded.{codes};
    ghost use Rattle.call_stacks.specs.ValueCodes.{value_code};
    ghost use Rattle.bridge_objects.specs.Kept.{Kept};
    ghost use Rattle.bridge_objects.specs.Marks.{free_at, AreMarked};
    ghost use Rattle.bridge_objects.specs.Objects.{objects_of};
    ghost use Rattle.uno_values.specs.Values.{plain_of};

    ghost Value = { Kept };

    ghost coded = { Prim.hlevel (codes, value_code) };

    ghost view = { λ o. record { prefix = o.prefix; first = o.first; objects = objects_of plain_of o.store.rows; objects_made = o.store.made; holdings = o.environment; stubs = o.stubs } };

    ghost invariant = { λ o. AreMarked (free_at o.prefix o.first o.environment o.stubs) o.store.rows };
}

impl Objects {
    /// No objects, of an end with this tag; the first so many that are made never go.
    pub fn new(alloc: Global, tag: &Tag, first: u64) -> Result<Objects, NoMemory>
        ensures { IfOk result (λ objects. objects ≡ nothing_kept (tag.now ++ codes ";") first) }
    {
        let mut prefix = String::from_str(alloc, tag.as_str())?;
        prefix.push_str(";")?;
        Ok(Objects {
            alloc,
            prefix: Text::from_string(prefix)?,
            first,
            store: ObjectStore::new(alloc),
            environment: Environment::new(alloc),
            stubs: StubTable::new(alloc),
        })
    }

    /// The behaviour and the fields of an object.
    pub fn object(&self, number: u32) -> Option<(u32, &[Value])>
        ensures found { IfSome result (λ r. behaviour_of (numbered number self.now) ≡ Some r.0) }
        ensures fields { IfSome result (λ r. fields_of (numbered number self.now) ≡ Some (map plain_of r.1.now)) }
        ensures none { IfNone result (numbered number self.now ≡ None) }
    {
        self.store.object(number)
    }

    /// The number of the object that has an identity.
    pub fn number_named(&self, oid: &str) -> Option<u32>
        ensures { result ≡ number_of (named oid.now self.now) }
    {
        marks::living(&self.store, &self.prefix, oid)
    }

    /// The lowest object that may go.
    pub fn lowest(&self) -> Option<u32>
        ensures { result ≡ number_of (lowest self.now) }
    {
        self.store.lowest()
    }

    /// How many objects were made.
    pub fn objects_made(&self) -> u32
        ensures { result ≡ self.now.objects_made }
    {
        self.store.made()
    }

    /// How many objects live.
    pub fn living(&self) -> u64
        ensures { result ≡ length self.now.objects }
    {
        self.store.living()
    }

    /// How many occurrences a pair has.
    pub fn holders(&self, oid: &Text, face: &Name) -> u64
        ensures { result ≡ holders (pair oid.now face.now) self.now.holdings }
    {
        self.environment.holders(oid, face)
    }

    /// Whether a holder has an occurrence of a pair.
    pub fn holds(&self, holder: Holder, oid: &Text, face: &Name) -> bool
        ensures { result ≡ holds (hold holder (pair oid.now face.now)) self.now.holdings }
    {
        self.environment.holds(holder, oid, face)
    }

    /// Whether somebody holds a pair with this OID.
    #[tactic(auto, unfolding(bridge_model::specs::Objects::is_held_object))]
    pub fn any_holds(&self, oid: &Text) -> bool
        ensures { result ≡ is_held_object oid.now self.now.holdings }
    {
        self.environment.any_for(oid)
    }

    /// Whether a pair has a stub.
    pub fn has_stub(&self, oid: &Text, face: &Name) -> bool
        ensures { result ≡ is_some (stub (pair oid.now face.now) self.now.stubs) }
    {
        self.stubs.stub(oid, face).is_some()
    }

    /// Whether a pair with this OID has a stub.
    #[tactic(auto, unfolding(bridge_model::specs::Objects::has_stub))]
    pub fn any_stub(&self, oid: &Text) -> bool
        ensures { result ≡ has_stub oid.now self.now.stubs }
    {
        self.stubs.any_for(oid)
    }

    /// Whether the peer may call an own object under an interface: whether it was sent out under one that is assignable to it.
    pub fn is_called_out(&self, registry: &Registry, oid: &Text, face: &Name) -> bool
        requires { IsSound registry.now }
        ensures { result ≡ is_called_out registry.now oid.now face.now self.now.stubs }
    {
        let Some(faces) = self.stubs.faces(oid) else {
            return false
        };
        calling::is_reached(registry, faces, face.as_str())
    }

    /// How many pairs have a stub.
    pub fn stubs(&self) -> u64
        ensures { result ≡ length self.now.stubs }
    {
        self.stubs.len()
    }
}
