//! The stubs: which own pairs the peer was sent, and has not released as often.
ghost use Rattle.std.specs.Prelude.{◌≡◌, ◌<◌, ◌-◌, ◌^◌, false, OnOk, OnErr, option_map};
ghost use Rattle.std.specs.Result.{result_ok};
ghost use Rattle.table_model.specs.Pair.{pair};
ghost use Rattle.table_model.specs.Stubs.{stub, sent_count, is_last};
ghost use Rattle.bridge_objects.specs.Kept.{with_sent, with_release};

use crate::{Objects, marks};
use stub_table::{StubTable, Unowed};
use uno_base::NoMemory;
use uno_entities::{Name, Text};

impl Objects {
    /// Counts a sending of a pair.
    pub fn sent_one(&mut self, oid: &Text, face: &Name) -> Result<(), NoMemory>
        ensures sent { OnOk result (self.new ≡ with_sent (pair oid.now face.now) self.old) }
        ensures kept { OnErr result (self.new ≡ self.old) }
    {
        if is_full(&self.stubs, oid, face) {
            return Err(NoMemory);
        }
        self.stubs.sent_one(oid, face)?;
        marks::refresh(
            &mut self.store,
            &self.prefix,
            self.first,
            &self.environment,
            &self.stubs,
            oid,
        );
        Ok(())
    }

    /// Counts a release of a pair, and tells whether its stub is gone.
    pub fn released_one(&mut self, oid: &Text, face: &Name) -> Result<bool, Unowed>
        ensures answer { result_ok result ≡ option_map is_last (stub (pair oid.now face.now) self.old.stubs) }
        ensures released { self.new ≡ with_release (pair oid.now face.now) self.old }
    {
        let gone = self.stubs.released_one(oid, face);
        marks::refresh(
            &mut self.store,
            &self.prefix,
            self.first,
            &self.environment,
            &self.stubs,
            oid,
        );
        gone
    }
}

/// Whether no more sendings of a pair can be counted.
fn is_full(stubs: &StubTable, oid: &Text, face: &Name) -> bool
    ensures { result ≡ false → sent_count (stub (pair oid.now face.now) stubs.now) < 2 ^ 64 - 1 }
{
    match stubs.stub(oid, face) {
        Some(stub) => stub.sent == u64::MAX,
        None => false,
    }
}
