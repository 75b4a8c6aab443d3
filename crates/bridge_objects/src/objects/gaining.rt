//! Occurrences of several references at once.
ghost use Rattle.std.specs.Prelude.{◌≡◌, ◌≤◌, take, length, map, OnOk, OnErr};
ghost use Rattle.uno_values.specs.References.{ref_of};
ghost use Rattle.bridge_objects.specs.Kept.{Kept};
ghost use Rattle.bridge_objects.specs.Tables.{gained, gained_all, lost, lost_all};

use crate::Objects;
use table_model::Holder;
use uno_base::NoMemory;
use uno_values::Reference;

impl Objects {
    /// Adds an occurrence of each of these references, or of none where memory is wanting.
    pub fn gain_all(&mut self, holder: Holder, references: &[Reference]) -> Result<(), NoMemory>
        ensures gained { OnOk result (self.new ≡ gained_all holder (map ref_of references.now) self.old) }
        ensures kept { OnErr result (self.new ≡ self.old) }
    {
        for place in 0..references.len() {
            if self.gain(holder, &references[place]).is_err() {
                self.lose_back(holder, references, place);
                return Err(NoMemory);
            }
        }
        Ok(())
    }

    /// Takes out an occurrence of each of these references, in their order; what is not held stays so.
    pub fn lose_all(&mut self, holder: Holder, references: &[Reference])
        ensures { self.new ≡ lost_all holder (map ref_of references.now) self.old }
    {
        for place in 0..references.len() {
            self.lose(holder, &references[place]);
        }
    }

    /// Adds an occurrence of a reference.
    pub fn gain(&mut self, holder: Holder, reference: &Reference) -> Result<(), NoMemory>
        ensures gained { OnOk result (self.new ≡ gained holder (ref_of reference.now) self.old) }
        ensures kept { OnErr result (self.new ≡ self.old) }
    {
        match reference {
            Reference::Null => Ok(()),
            Reference::Local { oid, face } => {
                self.hold(holder, oid, face)?;
                Ok(())
            }
            Reference::Remote { oid, face } => {
                self.hold(holder, oid, face)?;
                Ok(())
            }
        }
    }

    /// Takes out an occurrence of a reference, where there is one.
    pub fn lose(&mut self, holder: Holder, reference: &Reference)
        ensures { self.new ≡ lost holder (ref_of reference.now) self.old }
    {
        match reference {
            Reference::Null => {}
            Reference::Local { oid, face } => {
                let _last = self.let_go(holder, oid, face);
            }
            Reference::Remote { oid, face } => {
                let _last = self.let_go(holder, oid, face);
            }
        }
    }

    /// Takes out the occurrences of the first so many references, which were added last, the last one first.
    fn lose_back(&mut self, holder: Holder, references: &[Reference], count: usize)
        requires { count ≤ length references.now }
        ensures { (k : Kept) → self.old ≡ gained_all holder (map ref_of (take count references.now)) k → self.new ≡ k }
    {
        for place in (0..count).rev() {
            self.lose(holder, &references[place]);
        }
    }
}
