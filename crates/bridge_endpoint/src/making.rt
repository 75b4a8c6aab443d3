//! What roots make, take and let go, and objects that are reaped.
ghost use Rattle.std.specs.Prelude.{◌≡◌, ◌≢◌, ◌+◌, ◌-◌, ◌<◌, ◌≤◌, ◌^◌, suc, true, false, IfOk, IfSome, IfNone, OnErr, OnOk, None, Some, option_map};
ghost use Rattle.bridge_journal.specs.Logs.{entered};
ghost use Rattle.bridge_model.specs.Answers as answers;
ghost use Rattle.bridge_model.specs.Entries as plain;
ghost use Rattle.bridge_model.specs.Roots.{holds_pair, outcome_in};
ghost use Rattle.bridge_model.specs.Settings.{own_oid};
ghost use Rattle.bridge_model.specs.Sides.{stands, state_of};
ghost use Rattle.bridge_model.specs.Steps.{counted, does, is_root};
ghost use Rattle.bridge_setting.specs.Settings.{setting_of};
ghost use Rattle.bridge_tables.specs.Roots.{outcome_of};
ghost use Rattle.bridge_laws.specs.Giving.{MayGive};
ghost use Rattle.uno_model.specs.Sound.{IsSound};
ghost use Rattle.bridge_state.specs.EndSides.{IsEndOf, on_side, with_side};
ghost use Rattle.bridge_endpoint.specs.Answering.{IsMadeOid, made_answer, made_told};
ghost use Rattle.bridge_endpoint.specs.Entering.{IsWithin, made_by, with_room};
ghost use Rattle.bridge_endpoint.specs.Journals.{setting_at, side_at, with_entry};

use crate::entering::{enter, reserve, run_out};
use crate::{Endpoint, Made};
use bridge_journal::{Entry, Journal};
use bridge_objects::NotHeld;
use bridge_setting::Setting;
use bridge_state::State;
use bridge_tables::Outcome;
use uno_base::NoMemory;
use uno_types::{Name, Text};

impl Endpoint {
    /// A root makes an object of a behaviour, which it holds under the wanted interface.
    pub fn make(&mut self, root: u32, behaviour: u32, wanted: &Name) -> Made
        requires root { is_root (setting_at self.old) root ≡ true }
        requires supports { MayGive (setting_at self.old) (plain.made root behaviour wanted.now) }
        ensures answer { made_told result ≢ answers.no_room_left → made_told result ≡ made_answer (side_at self.old) }
        ensures identity { IsMadeOid result (own_oid (setting_at self.old) (suc (side_at self.old).tables.objects_made)) }
        ensures entered { self.new ≡ made_by result (plain.made root behaviour wanted.now) self.old }
    {
        if let Some(refused) = self.refused() {
            return refused.made();
        }
        match make_standing(
            &self.setting,
            &mut self.state,
            &mut self.journal,
            root,
            behaviour,
            wanted,
        ) {
            Ok(oid) => Made::Made(oid),
            Err(NoMemory) => {
                run_out(&mut self.state, &mut self.journal);
                Made::NoMemory
            }
        }
    }

    /// Takes the outcome of a root, where it has one. The references in it are held by the root still.
    pub fn take(&mut self, root: u32) -> Option<Outcome>
        ensures outcome { option_map (λ o. outcome_of o) result ≡ outcome_in (state_of root (side_at self.old).tables.roots) }
        ensures entered { IfSome result (λ o. self.new ≡ with_entry (plain.took root) self.old) }
        ensures kept { IfNone result (self.new ≡ self.old) }
    {
        let outcome = self.state.root_takes(root)?;
        enter(&mut self.state, &mut self.journal, Entry::Took { root });
        Some(outcome)
    }

    /// A root lets an occurrence go. It takes no memory.
    pub fn drop_ref(&mut self, root: u32, oid: Text, face: Name) -> Result<(), NotHeld>
        ensures held { OnOk result (holds_pair root oid face (side_at self.old).tables ≡ true) }
        ensures not_held { OnErr result (holds_pair root oid face (side_at self.old).tables ≡ false) }
        ensures entered { OnOk result (self.new ≡ with_entry (plain.dropped root oid face) self.old) }
        ensures kept { OnErr result (self.new ≡ self.old) }
    {
        if !self.state.root_holds(root, &oid, &face) {
            drop(oid);
            drop(face);
            return Err(NotHeld);
        }
        self.state.root_drops(&self.setting, root, &oid, &face);
        enter(
            &mut self.state,
            &mut self.journal,
            Entry::Dropped { root, oid, face },
        );
        Ok(())
    }

    /// Takes out the lowest object that may go, and lets its fields go.
    pub fn reap(&mut self) -> Option<u32>
        ensures object { result ≡ answers.may_reap (setting_at self.old) (side_at self.old) }
        ensures entered { IfSome result (λ n. self.new ≡ with_entry (plain.reaped n) self.old) }
        ensures kept { IfNone result (self.new ≡ self.old) }
    {
        let object = self.state.reap(&self.setting)?;
        enter(&mut self.state, &mut self.journal, Entry::Reaped { object });
        Some(object)
    }
}

fn make_standing(
    setting: &Setting,
    state: &mut State,
    journal: &mut Journal,
    root: u32,
    behaviour: u32,
    wanted: &Name,
) -> Result<Text, NoMemory>
    requires of { IsEndOf (setting_of setting.now) state.old }
    requires sound { IsSound setting.now.registry }
    requires few { state.old.side.entries < 2 ^ 64 - 1 }
    ensures identity { IfOk result (λ oid. oid ≡ own_oid (setting_of setting.now) (suc state.old.side.tables.objects_made)) }
    ensures done { OnOk result (state.new ≡ on_side (λ s. counted (plain.made root behaviour wanted.now) (does (setting_of setting.now) (plain.made root behaviour wanted.now) s).side) state.old) }
    ensures entered { OnOk result (journal.new ≡ with_room (journal.old.room + 2) (entered (plain.made root behaviour wanted.now) journal.old)) }
    ensures same { OnErr result (state.new ≡ state.old) }
    ensures nothing { OnErr result (journal.new ≡ with_room journal.new.room journal.old) }
    ensures least { OnErr result (journal.old.room ≤ journal.new.room) }
    ensures within { IsWithin journal.old → IsWithin journal.new }
{
    reserve(journal, 3)?;
    let wanted_too = wanted.copy()?;
    let oid = state.root_makes(setting, root, behaviour, wanted)?;
    enter(
        state,
        journal,
        Entry::Made {
            root,
            behaviour,
            wanted: wanted_too,
        },
    );
    Ok(oid)
}
