//! What the effect of a job does.
ghost use Rattle.std.specs.Prelude.{◌≡◌, true, Some, OnOk, OnErr};
ghost use Rattle.behaviour.specs.Effects.{effect_of};
ghost use Rattle.bridge_model.specs.Sides.{stands};
ghost use Rattle.bridge_model.specs.Steps.{Picked, applies_effect, picked, is_picked};
ghost use Rattle.bridge_setting.specs.Settings.{setting_of};
ghost use Rattle.uno_model.specs.Sound.{IsSound};
ghost use Rattle.bridge_state.specs.EndSides.{IsEndOf, on_side, with_side};
ghost use Rattle.bridge_state.specs.Undoing.{remains};

use crate::State;
use behaviour::Effect;
use bridge_frames::apply;
use bridge_model::Cause;
use bridge_setting::Setting;
use uno_base::NoMemory;
use uno_types::Tid;

impl State {
    /// Carries out an effect of the method at the top of a thread.
    #[tactic(auto, unfolding(bridge_model::specs::Steps::picked))]
    pub fn apply(&mut self, setting: &Setting, tid: &Tid, effect: Effect) -> Result<(), NoMemory>
        requires of { IsEndOf (setting_of setting.now) self.old }
        requires stands { stands self.old.side ≡ true }
        requires sound { IsSound setting.now.registry }
        requires method { is_picked (picked tid.now self.old.side) ≡ true }
        ensures applied { (p : Picked) → picked tid.now self.old.side ≡ Some p → OnOk result (self.new ≡ on_side (applies_effect (setting_of setting.now) tid.now p (effect_of effect)) self.old) }
        ensures lost { OnErr result (remains self.new.side ≡ remains self.old.side) }
        ensures names { self.new ≡ with_side self.new.side self.old }
    {
        if let Effect::Disposes = &effect {
            drop(effect);
            self.end(Cause::Disposed);
            return Ok(());
        }
        apply(
            self.alloc,
            setting,
            tid,
            effect,
            &mut self.stacks,
            &mut self.tables,
        )
    }
}
