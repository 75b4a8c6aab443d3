//! What roots make, let go and take.
ghost use Rattle.std.specs.Prelude.{◌≡◌, suc, true, IfOk, IfSome, IfNone, OnOk, OnErr, option_map};
ghost use Rattle.bridge_model.specs.References.{gains};
ghost use Rattle.bridge_model.specs.Roots as plain;
ghost use Rattle.std.specs.Option.{unwrap_or};
ghost use Rattle.bridge_model.specs.Roots.{root_drops, root_makes, root_takes, holds_pair};
ghost use Rattle.bridge_model.specs.Settings.{own_oid};
ghost use Rattle.bridge_model.specs.Sides.{idle, on_tables, state_of};
ghost use Rattle.bridge_model.specs.Steps.{is_outcome};
ghost use Rattle.bridge_setting.specs.Settings.{setting_of};
ghost use Rattle.bridge_tables.specs.Roots.{outcome_of, root_of};
ghost use Rattle.table_model.specs.declared.holder.Holder.TheVariants as holder;
ghost use Rattle.uno_model.specs.Sound.{IsSound};
ghost use Rattle.uno_model.specs.Values.{own};
ghost use Rattle.bridge_state.specs.EndSides.{IsEndOf, on_side};

use crate::State;
use bridge_setting::Setting;
use bridge_tables::{Outcome, Root};
use table_model::Holder;
use uno_base::NoMemory;
use uno_types::{Name, Text};
use uno_values::Reference;

impl State {
    /// A root makes an object of a behaviour, which it holds under the wanted interface, and whose identity is given.
    #[tactic(auto, unfolding(bridge_model::specs::Roots::root_makes))]
    pub fn root_makes(
        &mut self,
        setting: &Setting,
        root: u32,
        behaviour: u32,
        wanted: &Name,
    ) -> Result<Text, NoMemory>
        requires of { IsEndOf (setting_of setting.now) self.old }
        requires sound { IsSound setting.now.registry }
        ensures made { OnOk result (self.new ≡ on_side (root_makes (setting_of setting.now) root behaviour wanted.now) self.old) }
        ensures identity { IfOk result (λ oid. oid ≡ own_oid (setting_of setting.now) (suc self.old.side.tables.objects_made)) }
        ensures kept { OnErr result (self.new ≡ self.old) }
    {
        let Some(number) = self.tables.objects_made().checked_add(1) else {
            return Err(NoMemory);
        };
        let oid = self.hold_new(setting, root, number, wanted)?;
        match self.tables.make_default(setting, behaviour) {
            Ok(_) => Ok(oid),
            Err(NoMemory) => {
                self.tables.lose_pair(Holder::Root(root), &oid, wanted);
                Err(NoMemory)
            }
        }
    }

    /// A root holds the object of a number; its identity is given.
    fn hold_new(
        &mut self,
        setting: &Setting,
        root: u32,
        number: u32,
        wanted: &Name,
    ) -> Result<Text, NoMemory>
        requires { IsEndOf (setting_of setting.now) self.old }
        ensures held { OnOk result (self.new ≡ on_side (on_tables (gains (holder.Root root) (own (own_oid (setting_of setting.now) number) wanted.now))) self.old) }
        ensures identity { IfOk result (λ oid. oid ≡ own_oid (setting_of setting.now) number) }
        ensures kept { OnErr result (self.new ≡ self.old) }
    {
        let oid = setting.own_oid(self.alloc, number)?;
        let given = oid.copy()?;
        let face = wanted.copy()?;
        let reference = Reference::Local { oid, face };
        let holder = Holder::Root(root);
        if let Err(error) = self.tables.gain(setting, holder, &reference) {
            drop(reference);
            drop(given);
            return Err(error);
        }
        drop(reference);
        Ok(given)
    }

    /// Whether a root holds a pair.
    pub fn root_holds(&self, root: u32, oid: &Text, face: &Name) -> bool
        ensures { result ≡ holds_pair root oid.now face.now self.now.side.tables }
    {
        self.tables.holds(Holder::Root(root), oid, face)
    }

    /// A root lets an occurrence of a pair go that it holds. Where the bridge has ended nothing is sent.
    #[tactic(auto, unfolding(bridge_model::specs::Roots::root_drops, bridge_model::specs::Settings::ref_of))]
    pub fn root_drops(&mut self, setting: &Setting, root: u32, oid: &Text, face: &Name)
        requires of { IsEndOf (setting_of setting.now) self.old }
        requires holds { holds_pair root oid.now face.now self.old.side.tables ≡ true }
        ensures { self.new ≡ on_side (root_drops (setting_of setting.now) root oid.now face.now) self.old }
    {
        if self.cause.is_some() || setting.is_own(oid.as_str().as_bytes()) {
            self.tables.lose_pair(Holder::Root(root), oid, face);
        } else {
            self.tables
                .let_pair_go(setting, Holder::Root(root), oid, face);
        }
    }

    /// Takes the outcome of a root, where it has one. The references in it are held by the root still.
    #[tactic(auto, unfolding(bridge_model::specs::Roots::root_takes))]
    pub fn root_takes(&mut self, root: u32) -> Option<Outcome>
        ensures outcome { option_map (λ o. outcome_of o) result ≡ plain.outcome_in (state_of root self.old.side.tables.roots) }
        ensures taken { IfSome result (λ o. self.new ≡ on_side (root_takes root) self.old) }
        ensures kept { IfNone result (self.new ≡ self.old) }
    {
        if !self.is_answered(root) {
            return None;
        }
        outcome_in(self.tables.set_root(root, Root::Idle))
    }

    /// The outcome that a root has and did not take.
    pub fn outcome(&self, root: u32) -> Option<&Outcome>
        ensures { option_map (λ o. outcome_of o.now) result ≡ plain.outcome_in (state_of root self.now.side.tables.roots) }
    {
        lent_outcome(self.tables.root(root))
    }

    /// Whether a root has an outcome that it did not take.
    fn is_answered(&self, root: u32) -> bool
        ensures { result ≡ is_outcome (plain.outcome_in (state_of root self.now.side.tables.roots)) }
    {
        is_answer(self.tables.root(root))
    }
}

fn is_answer(state: Option<&Root>) -> bool
    ensures { result ≡ is_outcome (plain.outcome_in (unwrap_or (option_map (λ r. root_of r.now) state.entry) idle)) }
{
    match state {
        Some(Root::Answered(_)) => true,
        Some(Root::Idle) | Some(Root::Calls) | Some(Root::Queries(_)) | None => false,
    }
}

fn lent_outcome(state: Option<&Root>) -> Option<&Outcome>
    ensures { option_map (λ o. outcome_of o.now) result ≡ plain.outcome_in (unwrap_or (option_map (λ r. root_of r.now) state.entry) idle) }
{
    match state {
        Some(Root::Answered(outcome)) => Some(outcome),
        Some(Root::Idle) | Some(Root::Calls) | Some(Root::Queries(_)) | None => None,
    }
}

/// The outcome that a root has.
fn outcome_in(state: Root) -> Option<Outcome>
    ensures { option_map (λ o. outcome_of o) result ≡ plain.outcome_in (root_of state) }
{
    match state {
        Root::Answered(outcome) => Some(outcome),
        Root::Queries(wanted) => {
            drop(wanted);
            None
        }
        Root::Idle | Root::Calls => None,
    }
}
