//! Bytes that go out.
ghost use Rattle.std.specs.Prelude.{◌≡◌, ◌≤◌, false, true, IfOk, OnErr, OnOk};
ghost use Rattle.bridge_journal.specs.Logs.{entered};
ghost use Rattle.bridge_model.specs.Answers.{drained_next};
ghost use Rattle.bridge_model.specs.Ends.{runs_out};
ghost use Rattle.bridge_model.specs.Entries as plain;
ghost use Rattle.bridge_model.specs.Saying.{AreSayable};
ghost use Rattle.bridge_model.specs.Steps.{does, is_no_memory};
ghost use Rattle.bridge_setting.specs.Settings.{setting_of};
ghost use Rattle.uno_model.specs.Sound.{IsSound};
ghost use Rattle.bridge_state.specs.EndSides.{on_side, with_side};
ghost use Rattle.bridge_endpoint.specs.Entering.{IsWithin, draining, out_of_memory, with_room};
ghost use Rattle.bridge_endpoint.specs.Journals.{setting_at, side_at};

use crate::Endpoint;
use crate::entering::run_out;
use bridge_journal::{Entry, Journal};
use bridge_setting::Setting;
use bridge_state::State;
use std::alloc::Global;
use uno_base::NoMemory;

impl Endpoint {
    /// The next bytes to be written: so many, or all where fewer wait. Messages are spelled as they are wanted.
    pub fn drain(&mut self, max: u32) -> Result<Vec<u8>, NoMemory>
        ensures bytes { IfOk result (λ bytes. bytes.items ≡ drained_next (setting_at self.old) max (side_at self.old)) }
        ensures memory { OnOk result (is_no_memory (side_at self.old).cause ≡ false) }
        ensures entered { IfOk result (λ bytes. self.new ≡ draining bytes.items self.old) }
        ensures lost { OnErr result (self.new ≡ out_of_memory self.old) }
    {
        if self.lacks_memory() {
            return Err(NoMemory);
        }
        if max == 0 {
            return Ok(Vec::new(self.alloc));
        }
        if !self.state.bytes_wait(&self.setting) {
            return Ok(Vec::new(self.alloc));
        }
        match drain_waiting(
            self.alloc,
            &self.setting,
            &mut self.state,
            &mut self.journal,
            max,
        ) {
            Ok(bytes) => Ok(bytes),
            Err(NoMemory) => {
                run_out(&mut self.state, &mut self.journal);
                Err(NoMemory)
            }
        }
    }
}

/// The bytes, with their entry.
fn drain_waiting(
    alloc: Global,
    setting: &Setting,
    state: &mut State,
    journal: &mut Journal,
    max: u32,
) -> Result<Vec<u8>, NoMemory>
    requires sound { IsSound setting.now.registry }
    requires sayable { AreSayable setting.now.registry state.old.side.tables.unsaid }
    requires memory { is_no_memory state.old.side.cause ≡ false }
    ensures bytes { IfOk result (λ bytes. bytes.items ≡ drained_next (setting_of setting.now) max state.old.side) }
    ensures done { IfOk result (λ bytes. state.new ≡ on_side (λ s. (does (setting_of setting.now) (plain.drained bytes.items) s).side) state.old) }
    ensures entered { IfOk result (λ bytes. journal.new ≡ with_room journal.old.room (entered (plain.drained bytes.items) journal.old)) }
    ensures lost { OnErr result (runs_out state.new.side.cause state.new.side ≡ runs_out state.old.side.cause state.old.side) }
    ensures names { OnErr result (state.new ≡ with_side state.new.side state.old) }
    ensures nothing { OnErr result (journal.new ≡ with_room journal.new.room journal.old) }
    ensures least { OnErr result (journal.old.room ≤ journal.new.room) }
    ensures within { IsWithin journal.old → IsWithin journal.new }
{
    journal.reserve()?;
    let bytes = state.drain(setting, max)?;
    let copy = Vec::from_slice(alloc, bytes.as_slice())?;
    journal.enter(Entry::Drained(copy));
    Ok(bytes)
}
