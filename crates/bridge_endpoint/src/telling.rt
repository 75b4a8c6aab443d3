//! What an endpoint tells: functions of the side to which its journal leads.
ghost use Rattle.std.specs.Prelude.{◌≡◌, ◌≤◌, ◌<◌, ◌^◌, suc, IfOk, IfSome, length, map, option_map};
ghost use Rattle.bridge_journal.specs.Logs.{entry_of};
ghost use Rattle.bridge_model.specs.Answers as answers;
ghost use Rattle.bridge_model.specs.Histories.{Leads};
ghost use Rattle.bridge_model.specs.Roots.{holds_pair, outcome_in};
ghost use Rattle.bridge_model.specs.Settings.{own_oid};
ghost use Rattle.bridge_model.specs.Sides.{stands, stands_by, state_of};
ghost use Rattle.bridge_model.specs.Steps.{is_no_memory};
ghost use Rattle.bridge_state.specs.Telling.{counts_told, state_told};
ghost use Rattle.bridge_tables.specs.Roots.{outcome_of};
ghost use Rattle.bridge_laws.specs.Giving.{RootsGive};
ghost use Rattle.plan_types.specs.Plans.{plan_of};
ghost use Rattle.uno_entities.specs.Tag.{IsTag};
ghost use Rattle.uno_model.specs.BuiltIn.{HasBuiltIn};
ghost use Rattle.uno_model.specs.Sound.{IsSound};
ghost use Rattle.bridge_endpoint.specs.Journals.{IsSetUp, setting_at, side_at, told_at};

use crate::Endpoint;
use bridge_journal::Entry;
use bridge_model::Cause;
use bridge_state::{Counts, RootState};
use bridge_tables::Outcome;
use plan_types::Plan;
use uno_base::NoMemory;
use uno_types::{Name, Registry, Text, Tid};

impl Endpoint {
    pub fn plan(&self) -> &Plan
        ensures { plan_of result.now ≡ (setting_at self.now).plan }
    {
        &self.setting.plan
    }

    pub fn registry(&self) -> &Registry
        ensures same { result.now ≡ (setting_at self.now).registry }
        ensures sound { IsSound result.now }
        ensures built_in { HasBuiltIn result.now }
        ensures tag { length (setting_at self.now).tag ≤ 32 }
    {
        &self.setting.registry
    }

    /// What an object will be called that is made next.
    pub fn next_oid(&self) -> Result<Text, NoMemory>
        ensures { IfOk result (λ oid. oid ≡ own_oid (setting_at self.now) (suc (side_at self.now).tables.objects_made)) }
    {
        let Some(number) = next_number(self.state.objects_made()) else {
            return Err(NoMemory);
        };
        self.setting.own_oid(self.alloc, number)
    }

    /// The entries, oldest first. They are a history of the definition, and the setting is as its laws ask for, so that all of them hold of it.
    pub fn journal(&self) -> &[Entry]
        ensures entries { map entry_of result.now ≡ self.now.entries }
        ensures small { length self.now.entries < 2 ^ 63 }
        ensures leads { Leads (setting_at self.now) self.now.entries (told_at self.now) }
        ensures gives { RootsGive (setting_at self.now) self.now.entries }
        ensures set_up { IsSetUp (setting_at self.now) }
        ensures built_in { HasBuiltIn (setting_at self.now).registry }
        ensures tag { IsTag (setting_at self.now).tag }
    {
        self.journal.entries()
    }

    /// The mark of each entry.
    pub fn stamps(&self) -> &[u64]
        ensures stamps { result.now ≡ self.now.stamps }
        ensures each { length self.now.stamps ≡ length self.now.entries }
    {
        self.journal.stamps()
    }

    /// Why the bridge has ended, where it has.
    pub fn end(&self) -> Option<Cause>
        ensures { result ≡ (side_at self.now).cause }
    {
        self.state.cause()
    }

    /// Whether the bridge stands.
    pub(crate) fn stands(&self) -> bool
        ensures { result ≡ stands (side_at self.now) }
    {
        is_none(self.state.cause())
    }

    /// Whether the bridge has ended for want of memory.
    pub(crate) fn lacks_memory(&self) -> bool
        ensures { result ≡ is_no_memory (side_at self.now).cause }
    {
        is_no_memory(self.state.cause())
    }

    /// What a root does.
    pub fn root_state(&self, root: u32) -> RootState
        ensures { result ≡ state_told (state_of root (side_at self.now).tables.roots) }
    {
        self.state.root_state(root)
    }

    /// The outcome that a root has and did not take.
    pub fn outcome(&self, root: u32) -> Option<&Outcome>
        ensures { option_map (λ o. outcome_of o.now) result ≡ outcome_in (state_of root (side_at self.now).tables.roots) }
    {
        self.state.outcome(root)
    }

    /// Whether a root holds an object under an interface.
    pub fn root_holds(&self, root: u32, oid: &Text, face: &Name) -> bool
        ensures { result ≡ holds_pair root oid.now face.now (side_at self.now).tables }
    {
        self.state.root_holds(root, oid, face)
    }

    /// The thread at a place, from 0, among those whose top is a method, oldest first.
    pub fn ready(&self, nth: u32) -> Option<&Tid>
        ensures { option_map (λ tid. tid.now) result ≡ answers.ready_at (side_at self.now) nth }
    {
        self.state.ready(nth)
    }

    /// What `reap` would now give.
    pub fn may_reap(&self) -> Option<u32>
        ensures { result ≡ answers.may_reap (setting_at self.now) (side_at self.now) }
    {
        self.state.may_reap(&self.setting)
    }

    /// How many stubs, living proxies and objects there are.
    pub fn counts(&self) -> Counts
        ensures { counts_told result ≡ answers.counts_of (setting_at self.now) (side_at self.now) }
    {
        self.state.counts(&self.setting)
    }

    /// Whether bytes were said and not drained; after want of memory none are.
    pub fn bytes_wait(&self) -> bool
        ensures { result ≡ answers.bytes_wait (setting_at self.now) (side_at self.now) }
    {
        self.state.bytes_wait(&self.setting)
    }

    /// Whether no part of a block is held, no byte waits, and no stack is there.
    pub fn at_rest(&self) -> bool
        ensures { result ≡ answers.at_rest (setting_at self.now) (side_at self.now) }
    {
        self.state.at_rest(&self.setting)
    }

    /// Whether the bridge stands, and a part of a block is held or a call that went out is not answered.
    pub fn awaits_input(&self) -> bool
        ensures { result ≡ answers.awaits_input (side_at self.now) }
    {
        self.state.awaits_input()
    }
}

/// The number behind another one, where it can be told.
fn next_number(made: u32) -> Option<u32>
    ensures { IfSome result (λ number. number ≡ suc made) }
{
    made.checked_add(1)
}

fn is_none(cause: Option<Cause>) -> bool
    ensures { result ≡ stands_by cause }
{
    cause.is_none()
}

fn is_no_memory(cause: Option<Cause>) -> bool
    ensures { result ≡ is_no_memory cause }
{
    match cause {
        Some(Cause::NoMemory) => true,
        _ => false,
    }
}
