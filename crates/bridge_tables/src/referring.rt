//! References: occurrences that are gained, taken, lost and let go.
ghost use Rattle.std.specs.Prelude.{◌≡◌, ◌≤◌, true, OnOk, OnErr, map, take, length};
ghost use Rattle.uno_model.specs.Values.{own, peer};
ghost use Rattle.uno_values.specs.References.{ref_of};
ghost use Rattle.bridge_model.specs.References.{gains, gains_all, takes, takes_all, loses, lets_go, lets_go_all};
ghost use Rattle.bridge_setting.specs.Settings.{setting_of};
ghost use Rattle.bridge_tables.specs.EndTables.{EndTables, IsOf, on_tables, quiet};

use crate::{Tables, covering};
use bridge_setting::Setting;
use table_model::Holder;
use uno_base::NoMemory;
use uno_types::{Name, Text};
use uno_values::Reference;

impl Tables {
    /// An occurrence more of what is here already.
    pub fn gain(
        &mut self,
        setting: &Setting,
        holder: Holder,
        reference: &Reference,
    ) -> Result<(), NoMemory>
        requires { IsOf (setting_of setting.now) self.old }
        ensures gained { OnOk result (self.new ≡ on_tables (gains holder (ref_of reference.now)) self.old) }
        ensures kept { OnErr result (self.new ≡ self.old) }
    {
        match reference {
            Reference::Null => Ok(()),
            Reference::Local { oid, face } => self.hold(setting, holder, oid, face),
            Reference::Remote { oid, face } => self.hold(setting, holder, oid, face),
        }
    }

    /// The same of each of these references, or of none where memory is wanting.
    pub fn gain_all(
        &mut self,
        setting: &Setting,
        holder: Holder,
        references: &[Reference],
    ) -> Result<(), NoMemory>
        requires { IsOf (setting_of setting.now) self.old }
        ensures gained { OnOk result (self.new ≡ on_tables (gains_all holder (map ref_of references.now)) self.old) }
        ensures kept { OnErr result (self.new ≡ self.old) }
    {
        for place in 0..references.len() {
            if self.gain(setting, holder, &references[place]).is_err() {
                self.lose_back(holder, references, place);
                return Err(NoMemory);
            }
        }
        Ok(())
    }

    /// An occurrence more of what arrives: a pair of the peer's that is held already is released once.
    pub fn take(
        &mut self,
        setting: &Setting,
        holder: Holder,
        reference: &Reference,
    ) -> Result<(), NoMemory>
        requires { IsOf (setting_of setting.now) self.old }
        ensures taken { OnOk result (self.new ≡ on_tables (takes (setting_of setting.now) holder (ref_of reference.now)) self.old) }
        ensures kept { OnErr result (quiet self.new ≡ quiet self.old) }
    {
        match reference {
            Reference::Null => Ok(()),
            Reference::Local { oid, face } => {
                self.hold(setting, holder, oid, face)?;
                Ok(())
            }
            Reference::Remote { oid, face } => self.take_remote(setting, holder, oid, face),
        }
    }

    fn take_remote(
        &mut self,
        setting: &Setting,
        holder: Holder,
        oid: &Text,
        face: &Name,
    ) -> Result<(), NoMemory>
        requires { IsOf (setting_of setting.now) self.old }
        ensures taken { OnOk result (self.new ≡ on_tables (takes (setting_of setting.now) holder (peer oid.now face.now)) self.old) }
        ensures kept { OnErr result (quiet self.new ≡ quiet self.old) }
    {
        if self.objects.holders(oid, face) > 0 {
            self.say_release(setting, oid, face)?;
        }
        self.hold(setting, holder, oid, face)?;
        Ok(())
    }

    /// The same of each of these references; where memory is wanting, no occurrence is left of them.
    pub fn take_all(
        &mut self,
        setting: &Setting,
        holder: Holder,
        references: &[Reference],
    ) -> Result<(), NoMemory>
        requires { IsOf (setting_of setting.now) self.old }
        ensures taken { OnOk result (self.new ≡ on_tables (takes_all (setting_of setting.now) holder (map ref_of references.now)) self.old) }
        ensures kept { OnErr result (quiet self.new ≡ quiet self.old) }
    {
        for place in 0..references.len() {
            if self.take(setting, holder, &references[place]).is_err() {
                self.lose_back(holder, references, place);
                return Err(NoMemory);
            }
        }
        Ok(())
    }

    /// Lets an occurrence go, where there is one. The last one of a pair of the peer's is a release.
    pub fn let_go(&mut self, setting: &Setting, holder: Holder, reference: &Reference)
        requires of { IsOf (setting_of setting.now) self.old }
        requires stands { self.old.stands ≡ true }
        ensures { self.new ≡ on_tables (lets_go (setting_of setting.now) holder (ref_of reference.now)) self.old }
    {
        match reference {
            Reference::Null => {}
            Reference::Local { oid, face } => self.lose_pair(holder, oid, face),
            Reference::Remote { oid, face } => self.let_pair_go(setting, holder, oid, face),
        }
    }

    /// The same of a pair of the peer's.
    pub fn let_pair_go(&mut self, setting: &Setting, holder: Holder, oid: &Text, face: &Name)
        requires of { IsOf (setting_of setting.now) self.old }
        requires stands { self.old.stands ≡ true }
        ensures { self.new ≡ on_tables (lets_go (setting_of setting.now) holder (peer oid.now face.now)) self.old }
    {
        if let Some(release) = covering::take_out(
            &mut self.objects,
            &mut self.proxies,
            holder,
            oid,
            face,
        ) {
            self.unsaid.release(release);
        }
    }

    /// The same of each of these references.
    pub fn let_go_all(&mut self, setting: &Setting, holder: Holder, references: &[Reference])
        requires of { IsOf (setting_of setting.now) self.old }
        requires stands { self.old.stands ≡ true }
        ensures { self.new ≡ on_tables (lets_go_all (setting_of setting.now) holder (map ref_of references.now)) self.old }
    {
        for reference in references {
            self.let_go(setting, holder, reference);
        }
    }

    /// An occurrence less, and no message.
    pub fn lose(&mut self, holder: Holder, reference: &Reference)
        ensures { self.new ≡ on_tables (loses holder (ref_of reference.now)) self.old }
    {
        match reference {
            Reference::Null => {}
            Reference::Local { oid, face } => self.lose_pair(holder, oid, face),
            Reference::Remote { oid, face } => self.lose_pair(holder, oid, face),
        }
    }

    /// The same of a pair.
    pub fn lose_pair(&mut self, holder: Holder, oid: &Text, face: &Name)
        ensures { self.new ≡ on_tables (loses holder (own oid.now face.now)) self.old }
    {
        if !self.stands {
            self.objects.let_go(holder, oid, face).ok();
            return;
        }
        if let Some(release) = covering::take_out(
            &mut self.objects,
            &mut self.proxies,
            holder,
            oid,
            face,
        ) {
            drop(release);
            self.unsaid.unkeep();
        }
    }

    /// Takes out the occurrences of the first so many references, which were added last, the last one first.
    fn lose_back(&mut self, holder: Holder, references: &[Reference], count: usize)
        requires { count ≤ length references.now }
        ensures gained { (e : EndTables) → self.old ≡ on_tables (gains_all holder (map ref_of (take count references.now))) e → self.new ≡ e }
        ensures taken { (e : EndTables) → quiet self.old ≡ quiet (on_tables (gains_all holder (map ref_of (take count references.now))) e) → quiet self.new ≡ quiet e }
    {
        for place in (0..count).rev() {
            self.lose(holder, &references[place]);
        }
    }

    /// An occurrence of a pair more. A pair of the peer's that was not held gets its proxy.
    fn hold(
        &mut self,
        setting: &Setting,
        holder: Holder,
        oid: &Text,
        face: &Name,
    ) -> Result<(), NoMemory>
        requires { IsOf (setting_of setting.now) self.old }
        ensures held { OnOk result (self.new ≡ on_tables (gains holder (own oid.now face.now)) self.old) }
        ensures kept { OnErr result (self.new ≡ self.old) }
    {
        if !self.stands || setting.is_own(oid.as_str().as_bytes()) {
            self.objects.hold(holder, oid, face)?;
            return Ok(());
        }
        covering::hold(
            &mut self.objects,
            &mut self.proxies,
            &mut self.unsaid,
            holder,
            oid,
            face,
        )
    }
}
