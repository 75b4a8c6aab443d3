//! What an end keeps, its journal apart.
ghost use Rattle.std.specs.Prelude.{◌≡◌, ◌-◌, ◌<◌, ◌^◌, suc, IfOk};
ghost use Rattle.bridge_model.specs.Ends.{ends_by, runs_out};
ghost use Rattle.bridge_model.specs.Objects.{makes_all};
ghost use Rattle.bridge_setting.specs.Settings.{setting_of};
ghost use Rattle.bridge_tables.specs.EndTables.{on_tables, opening_tables};
ghost use Rattle.plan_model.specs.Plans.{first_objects};
ghost use Rattle.plan_types.specs.Plans.{plan_of};
ghost use Rattle.uno_model.specs.Sound.{IsSound};
ghost use Rattle.bridge_state.specs.EndSides.{on_side, opening_end};

use bridge_model::Cause;
use bridge_setting::Setting;
use bridge_streams::{Incoming, Outgoing};
use bridge_tables::Tables;
use call_stacks::Stacks;
use std::alloc::Global;
use std::marker::Model;
use uno_base::NoMemory;

/// A side. Each of its calls that changes something does what one entry of a journal does, but for counting it.
#[derive(Drop)]
pub struct State {
    pub(crate) alloc: Global,
    pub(crate) tables: Tables,
    pub(crate) stacks: Stacks,
    pub(crate) incoming: Incoming,
    pub(crate) outgoing: Outgoing,
    pub(crate) entries: u64,
    pub(crate) cause: Option<Cause>,
}

impl Model for State {
    ghost use Rattle.std.specs.Coded.{codes};
    ghost use Rattle.std.specs.Prelude.{◌≡◌};
    ghost use Rattle.bridge_model.specs.Sides.{stands_by};
    ghost use Rattle.bridge_state.specs.EndSides.{EndSide};
    ghost use Rattle.call_stacks.specs.ValueCodes.{value_code};
    ghost use Rattle.uno_model.specs.Codes.{kind_code};

    ghost Value = { EndSide };

    ghost coded = { Prim.hlevel (codes, kind_code, value_code) };

    ghost view = { λ s. record { prefix = s.tables.prefix; first = s.tables.first; release_tid = s.tables.release_tid; side = record { tables = s.tables.tables; stacks = s.stacks; incoming = s.incoming; outgoing = s.outgoing; entries = s.entries; cause = s.cause } } };

    ghost invariant = { λ s. s.tables.stands ≡ stands_by s.cause };
}

impl State {
    /// The objects that are there from the beginning; nothing has happened.
    #[tactic(auto, unfolding(bridge_model::specs::Steps::opening))]
    pub fn new(alloc: Global, setting: &Setting) -> Result<State, NoMemory>
        requires { IsSound setting.now.registry }
        ensures { IfOk result (λ state. state ≡ opening_end (setting_of setting.now)) }
    {
        let incoming = Incoming::new(alloc)?;
        let Ok(outgoing) = Outgoing::new(alloc) else {
            drop(incoming);
            return Err(NoMemory);
        };
        let Ok(tables) = first_tables(alloc, setting) else {
            drop(incoming);
            drop(outgoing);
            return Err(NoMemory);
        };
        Ok(State {
            alloc,
            tables,
            stacks: Stacks::new(alloc),
            incoming,
            outgoing,
            entries: 0,
            cause: None,
        })
    }

    /// The bridge ends.
    #[tactic(auto, unfolding(bridge_model::specs::Ends::ends_by))]
    pub fn end(&mut self, cause: Cause)
        ensures { self.new ≡ on_side (ends_by cause) self.old }
    {
        self.tables.end(cause);
        self.stacks.clear();
        self.incoming.forget();
        self.cause = Some(cause);
    }

    /// Want of memory, which takes the place of another cause.
    #[tactic(auto, unfolding(bridge_model::specs::Ends::ends_by, bridge_model::specs::Ends::runs_out))]
    pub fn run_out(&mut self)
        ensures { self.new ≡ on_side (λ s. runs_out s.cause s) self.old }
    {
        if self.cause.is_none() {
            self.end(Cause::NoMemory);
        }
        self.cause = Some(Cause::NoMemory);
        self.tables.forget();
        self.outgoing.forget();
    }

    /// An entry more counts.
    pub fn count_entry(&mut self)
        requires { self.old.side.entries < 2 ^ 64 - 1 }
        ensures { self.new ≡ on_side (λ s. record s { entries = suc s.entries }) self.old }
    {
        self.entries += 1;
    }
}

/// The tables with the objects that are there from the beginning.
fn first_tables(alloc: Global, setting: &Setting) -> Result<Tables, NoMemory>
    requires { IsSound setting.now.registry }
    ensures { IfOk result (λ tables. tables ≡ on_tables (makes_all (setting_of setting.now) (first_objects (plan_of setting.now.plan))) (opening_tables (setting_of setting.now))) }
{
    let mut tables = Tables::new(alloc, setting)?;
    if let Err(error) = tables.make_first(setting) {
        drop(tables);
        return Err(error);
    }
    Ok(tables)
}
