//! What an end of a bridge is set up with.
ghost use Rattle.std.specs.Option.{is_some};
ghost use Rattle.std.specs.Prelude.{◌≡◌, ◌↔◌, ◌&&◌, true, IfOk, IfSome, length, nat_lt, not};
ghost use Rattle.bridge_model.specs.Settings.{own_oid, root_tid, release_tid, is_own};
ghost use Rattle.bridge_setting.specs.Settings.{setting_of};
ghost use Rattle.plan_types.specs.Plans.{plan_of};

use crate::{Names, first_objects};
use plan_types::Plan;
use std::alloc::Global;
use uno_base::NoMemory;
use uno_types::{Registry, Tag, Text, Tid};

/// The names that it gives, the registry and the plan, which never change.
#[derive(Drop)]
pub struct Setting {
    pub names: Names,
    pub registry: Registry,
    pub plan: Plan,
}

impl Setting {
    pub fn new(alloc: Global, registry: Registry, plan: Plan, tag: Tag) -> Result<Setting, NoMemory>
        ensures setting { IfOk result (λ s. setting_of s ≡ record { tag = tag; registry = registry; plan = plan_of plan }) }
        ensures roots { IfOk result (λ s. s.names.roots ≡ length (plan_of plan).threads) }
    {
        let roots = plan.threads.len();
        let objects = first_objects(&plan).saturating_add(1);
        match Names::new(alloc, tag, roots, objects) {
            Ok(names) => Ok(Setting {
                names,
                registry,
                plan,
            }),
            Err(error) => {
                drop(registry);
                drop(plan);
                Err(error)
            }
        }
    }

    /// The thread on which releases are sent.
    #[tactic(auto, unfolding(bridge_model::specs::Settings::root_tid))]
    pub fn release_tid(&self) -> &Tid
        ensures { result.now ≡ release_tid (setting_of self.now) }
    {
        self.names.release()
    }

    /// The thread of a root of the plan; roots are numbered from 1.
    #[tactic(auto, unfolding(bridge_model::specs::Settings::root_tid))]
    pub fn root_tid(&self, root: u32) -> Option<&Tid>
        ensures name { IfSome result (λ tid. tid.now ≡ root_tid (setting_of self.now) root) }
        ensures there { is_some result ≡ (nat_lt 0 root && not (nat_lt self.now.names.roots root)) }
    {
        self.names.root(root)
    }

    /// The identity of the object of a number.
    #[tactic(auto, unfolding(bridge_model::specs::Settings::own_oid))]
    pub fn own_oid(&self, alloc: Global, number: u32) -> Result<Text, NoMemory>
        ensures { IfOk result (λ oid. oid ≡ own_oid (setting_of self.now) number) }
    {
        self.names.object(alloc, number)
    }

    /// Whether a name is the identity of the object of a number.
    #[tactic(auto, unfolding(bridge_model::specs::Settings::own_oid))]
    pub fn is_own_oid(&self, number: u32, name: &str) -> bool
        ensures { result ≡ true ↔ name.now ≡ own_oid (setting_of self.now) number }
    {
        self.names.is_object(number, name)
    }

    /// Whether this end gave a name.
    #[tactic(auto, unfolding(bridge_model::specs::Settings::is_own))]
    pub fn is_own(&self, name: &[u8]) -> bool
        ensures { result ≡ is_own (setting_of self.now) name.now }
    {
        self.names.is_own(name)
    }
}
