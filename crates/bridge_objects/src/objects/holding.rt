//! Who holds which pair.
ghost use Rattle.std.specs.Prelude.{◌≡◌, if◌then◌else◌, None, Some, nat_eq, IfOk, OnOk, OnErr};
ghost use Rattle.std.specs.Result.{result_ok};
ghost use Rattle.table_model.specs.Holdings.{hold, holders, holds};
ghost use Rattle.table_model.specs.Pair.{pair};
ghost use Rattle.bridge_objects.specs.Kept.{with_hold, without_hold};

use crate::{Objects, marks};
use env_table::NotHeld;
use table_model::Holder;
use uno_base::NoMemory;
use uno_entities::{Name, Text};

impl Objects {
    /// Adds an occurrence of a pair, and tells whether it is its first.
    pub fn hold(&mut self, holder: Holder, oid: &Text, face: &Name) -> Result<bool, NoMemory>
        ensures held { OnOk result (self.new ≡ with_hold (hold holder (pair oid.now face.now)) self.old) }
        ensures first { IfOk result (λ first. first ≡ nat_eq (holders (pair oid.now face.now) self.old.holdings) 0) }
        ensures kept { OnErr result (self.new ≡ self.old) }
    {
        let first = self.environment.hold(holder, oid, face)?;
        marks::refresh(
            &mut self.store,
            &self.prefix,
            self.first,
            &self.environment,
            &self.stubs,
            oid,
        );
        Ok(first)
    }

    /// Takes out an occurrence of a pair, and tells whether it was its last.
    pub fn let_go(&mut self, holder: Holder, oid: &Text, face: &Name) -> Result<bool, NotHeld>
        ensures answer { result_ok result ≡ (if holds (hold holder (pair oid.now face.now)) self.old.holdings then Some (nat_eq (holders (pair oid.now face.now) self.old.holdings) 1) else None) }
        ensures gone { self.new ≡ without_hold (hold holder (pair oid.now face.now)) self.old }
    {
        let last = self.environment.let_go(holder, oid, face);
        marks::refresh(
            &mut self.store,
            &self.prefix,
            self.first,
            &self.environment,
            &self.stubs,
            oid,
        );
        last
    }
}
