//! The end of the bridge.
ghost use Rattle.std.specs.Prelude.{◌≡◌, []};
ghost use Rattle.std.specs.List.{filter};
ghost use Rattle.table_model.specs.Holdings.{outlasts};
ghost use Rattle.bridge_objects.specs.Kept.{ended};
ghost use Rattle.bridge_objects.specs.Marks.{free_at, AreMarked};
ghost use Rattle.bridge_objects.specs.Objects.{objects_of};
ghost use Rattle.uno_values.specs.Values.{plain_of};

use crate::{Objects, marks};
use env_table::Environment;
use object_store::ObjectStore;
use stub_table::StubTable;
use uno_entities::Text;

impl Objects {
    /// Lets go what frames hold, and drops the stubs.
    pub fn end(&mut self)
        ensures { self.new ≡ ended self.old }
    {
        end_frames(
            &mut self.store,
            &self.prefix,
            self.first,
            &mut self.environment,
            &self.stubs,
        );
        end_stubs(
            &mut self.store,
            &self.prefix,
            self.first,
            &self.environment,
            &mut self.stubs,
        );
    }
}

/// Lets go what frames hold.
fn end_frames(
    store: &mut ObjectStore,
    prefix: &Text,
    first: u64,
    environment: &mut Environment,
    stubs: &StubTable,
)
    requires { AreMarked (free_at prefix.now first environment.old stubs.now) store.old.rows }
    ensures marked { AreMarked (free_at prefix.now first environment.new stubs.now) store.new.rows }
    ensures objects { objects_of plain_of store.new.rows ≡ objects_of plain_of store.old.rows }
    ensures made { store.new.made ≡ store.old.made }
    ensures gone { environment.new ≡ filter outlasts environment.old }
{
    while let Some(oid) = environment.let_frames_go() {
        marks::refresh(store, prefix, first, environment, stubs, &oid);
    }
}

/// Drops the stubs.
fn end_stubs(
    store: &mut ObjectStore,
    prefix: &Text,
    first: u64,
    environment: &Environment,
    stubs: &mut StubTable,
)
    requires { AreMarked (free_at prefix.now first environment.now stubs.old) store.old.rows }
    ensures marked { AreMarked (free_at prefix.now first environment.now stubs.new) store.new.rows }
    ensures objects { objects_of plain_of store.new.rows ≡ objects_of plain_of store.old.rows }
    ensures made { store.new.made ≡ store.old.made }
    ensures gone { stubs.new ≡ [] }
{
    while let Some(oid) = stubs.take_oid() {
        marks::refresh(store, prefix, first, environment, stubs, &oid);
    }
}
