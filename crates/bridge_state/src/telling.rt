//! What an end tells of itself.
ghost use Rattle.std.specs.Prelude.{◌≡◌, false, option_map};
ghost use Rattle.bridge_model.specs.Answers as answers;
ghost use Rattle.bridge_model.specs.Feeding.{ends_part};
ghost use Rattle.bridge_model.specs.Sides.{idle, state_of};
ghost use Rattle.bridge_model.specs.Steps.{fed_count, is_no_memory};
ghost use Rattle.bridge_tables.specs.Roots.{root_of};
ghost use Rattle.std.specs.Option.{unwrap_or};
ghost use Rattle.bridge_setting.specs.Settings.{setting_of};
ghost use Rattle.bridge_state.specs.EndSides.{IsEndOf};
ghost use Rattle.bridge_state.specs.Telling.{counts_told, state_told};

use crate::State;
use bridge_model::Cause;
use bridge_setting::Setting;
use bridge_tables::Root;
use uno_types::Tid;

/// What a root does.
#[derive(Clone, Copy, Debug, PartialEq, Eq)]
pub enum RootState {
    Idle,
    Waits,
    Answered,
}

/// How many stubs, living proxies and objects there are.
#[derive(Clone, Copy, Debug, PartialEq, Eq)]
pub struct Counts {
    pub stubs: u64,
    pub proxies: u64,
    pub objects: u64,
}

impl State {
    /// Why the bridge has ended, where it has.
    pub fn cause(&self) -> Option<Cause>
        ensures { result ≡ self.now.side.cause }
    {
        self.cause
    }

    /// How many entries count.
    pub fn entries(&self) -> u64
        ensures { result ≡ self.now.side.entries }
    {
        self.entries
    }

    /// How many objects were made.
    pub fn objects_made(&self) -> u32
        ensures { result ≡ self.now.side.tables.objects_made }
    {
        self.tables.objects_made()
    }

    /// How many bytes came in. Those of them that are held end no block, and no header that is refused.
    pub fn fed(&self) -> u64
        ensures fed { result ≡ fed_count self.now.side.incoming }
        ensures unended { ends_part self.now.side.incoming.held ≡ false }
    {
        self.incoming.fed()
    }

    /// What a root does.
    pub fn root_state(&self, root: u32) -> RootState
        ensures { result ≡ state_told (state_of root self.now.side.tables.roots) }
    {
        told(self.tables.root(root))
    }

    /// The thread at a place, from 0, among those whose top is a method, oldest first.
    pub fn ready(&self, nth: u32) -> Option<&Tid>
        ensures { option_map (λ tid. tid.now) result ≡ answers.ready_at self.now.side nth }
    {
        self.stacks.ready(nth as u64)
    }

    /// How many stubs, living proxies and objects there are.
    #[tactic(auto, unfolding(bridge_model::specs::Answers::counts_of))]
    pub fn counts(&self, setting: &Setting) -> Counts
        requires { IsEndOf (setting_of setting.now) self.now }
        ensures { counts_told result ≡ answers.counts_of (setting_of setting.now) self.now.side }
    {
        let (stubs, proxies, objects) = self.tables.counts();
        Counts {
            stubs,
            proxies,
            objects,
        }
    }

    /// Whether bytes were said that are not drained.
    #[tactic(auto, unfolding(bridge_model::specs::Going::waiting_bytes))]
    pub fn bytes_wait(&self, setting: &Setting) -> bool
        ensures { result ≡ answers.bytes_wait (setting_of setting.now) self.now.side }
    {
        if lacks_memory(self.cause) {
            return false;
        }
        self.tables.waits(&self.outgoing)
    }

    /// Whether no part of a block is held, no byte waits, and no stack is there.
    pub fn at_rest(&self, setting: &Setting) -> bool
        ensures { result ≡ answers.at_rest (setting_of setting.now) self.now.side }
    {
        !self.incoming.holds_part() && !self.bytes_wait(setting) && self.stacks.nth(0).is_none()
    }

    /// Whether the bridge stands, and a part of a block is held or a call that went out is not answered.
    pub fn awaits_input(&self) -> bool
        ensures { result ≡ answers.awaits_input self.now.side }
    {
        self.cause.is_none() && (self.incoming.holds_part() || self.stacks.any_waits())
    }
}

/// What a root does that is there; another one is idle.
fn told(state: Option<&Root>) -> RootState
    ensures { result ≡ state_told (unwrap_or (option_map (λ r. root_of r.now) state.entry) idle) }
{
    match state {
        Some(Root::Idle) | None => RootState::Idle,
        Some(Root::Calls) | Some(Root::Queries(_)) => RootState::Waits,
        Some(Root::Answered(_)) => RootState::Answered,
    }
}

/// Whether memory was wanting.
fn lacks_memory(cause: Option<Cause>) -> bool
    ensures { result ≡ is_no_memory cause }
{
    match cause {
        Some(Cause::NoMemory) => true,
        _ => false,
    }
}
