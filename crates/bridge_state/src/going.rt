//! What goes: bytes that are drained, and objects that are reaped.
ghost use Rattle.std.specs.Prelude.{◌≡◌, IfOk, IfSome, IfNone, None, OnErr, length, option_map, take};
ghost use Rattle.bridge_model.specs.Answers as answers;
ghost use Rattle.bridge_model.specs.Ends.{runs_out};
ghost use Rattle.bridge_model.specs.Going.{drains, waiting_bytes};
ghost use Rattle.bridge_model.specs.Objects.{lowest};
ghost use Rattle.bridge_model.specs.Saying.{AreSayable};
ghost use Rattle.bridge_model.specs.Steps.{reaps_some};
ghost use Rattle.bridge_setting.specs.Settings.{setting_of};
ghost use Rattle.uno_model.specs.Sound.{IsSound};
ghost use Rattle.bridge_state.specs.EndSides.{IsEndOf, on_side};

use crate::State;
use bridge_model::Cause;
use bridge_setting::Setting;
use uno_base::NoMemory;

impl State {
    /// The next bytes, at most so many. Want of memory ends the bridge.
    #[tactic(auto, unfolding(bridge_model::specs::Going::drains, bridge_model::specs::Going::waiting_bytes, bridge_model::specs::Ends::runs_out, bridge_model::specs::Ends::ends_by))]
    pub fn drain(&mut self, setting: &Setting, max: u32) -> Result<Vec<u8>, NoMemory>
        requires sound { IsSound setting.now.registry }
        requires sayable { AreSayable setting.now.registry self.old.side.tables.unsaid }
        ensures bytes { IfOk result (λ bytes. bytes.items ≡ take max (waiting_bytes (setting_of setting.now) self.old.side)) }
        ensures drained { IfOk result (λ bytes. self.new ≡ on_side (drains (setting_of setting.now) (length bytes.items)) self.old) }
        ensures lost { OnErr result (self.new ≡ on_side (λ s. runs_out s.cause s) self.old) }
    {
        match self.tables.drain(setting, &mut self.outgoing, max) {
            Ok(bytes) => Ok(bytes),
            Err(NoMemory) => {
                if self.cause.is_none() {
                    self.stacks.clear();
                    self.incoming.forget();
                }
                self.cause = Some(Cause::NoMemory);
                Err(NoMemory)
            }
        }
    }

    /// Takes out the lowest object that may go, and lets its fields go.
    #[tactic(auto, unfolding(bridge_model::specs::Going::reaps))]
    pub fn reap(&mut self, setting: &Setting) -> Option<u32>
        requires { IsEndOf (setting_of setting.now) self.old }
        ensures object { result ≡ answers.may_reap (setting_of setting.now) self.old.side }
        ensures reaped { IfSome result (λ n. self.new ≡ on_side (λ s. reaps_some (setting_of setting.now) (lowest (setting_of setting.now) s.tables) s) self.old) }
        ensures kept { IfNone result (self.new ≡ self.old) }
    {
        let object = self.tables.lowest()?;
        self.tables.reap(setting, object);
        Some(object)
    }

    /// What `reap` would now take out.
    pub fn may_reap(&self, setting: &Setting) -> Option<u32>
        requires { IsEndOf (setting_of setting.now) self.now }
        ensures { result ≡ answers.may_reap (setting_of setting.now) self.now.side }
    {
        self.tables.lowest()
    }
}
