//! The endpoint itself, and its ends.
ghost use Rattle.std.specs.Prelude.{◌≡◌, ◌+◌, true, false, IfOk};
ghost use Rattle.bridge_journal.specs.Logs.{empty_log, entry_of};
ghost use Rattle.bridge_model.specs.Entries as entry;
ghost use Rattle.bridge_model.specs.Sides.{stands};
ghost use Rattle.bridge_model.specs.Steps.{is_no_memory, opening};
ghost use Rattle.bridge_setting.specs.Settings.{setting_of};
ghost use Rattle.bridge_state.specs.EndSides.{opening_end};
ghost use Rattle.plan_types.specs.Plans.{plan_of};
ghost use Rattle.uno_entities.specs.Tag.{IsTag};
ghost use Rattle.uno_model.specs.BuiltIn.{HasBuiltIn};
ghost use Rattle.uno_model.specs.Sound.{IsSound};
ghost use Rattle.bridge_endpoint.specs.Entering.{IsWithin, how_cause, how_ended, with_room};
ghost use Rattle.bridge_endpoint.specs.Journals.{IsSetUp, opening_endpoint, setting_at, side_at, stamped, with_entry};

use crate::entering::{end, reserve, run_out};
use bridge_journal::{Entry, Journal};
use bridge_model::{Cause, InputEnd};
use bridge_setting::Setting;
use bridge_state::State;
use plan_types::Plan;
use std::alloc::Global;
use std::marker::Model;
use uno_base::NoMemory;
use uno_types::{Registry, Tag};

/// One end of a bridge. Each call that changes something adds one entry to the journal, and does what that entry does by the definition of a side; a call
/// that adds none changes nothing.
#[derive(Drop)]
pub struct Endpoint {
    pub(crate) alloc: Global,
    pub(crate) setting: Setting,
    pub(crate) state: State,
    pub(crate) journal: Journal,
}

impl Model for Endpoint {
    ghost use Rattle.std.specs.Coded.{codes};
    ghost use Rattle.bridge_endpoint.specs.Kept.{IsKept};
    ghost use Rattle.bridge_endpoint.specs.Journals as journals;
    ghost use Rattle.bridge_setting.specs.Settings.{setting_of};
    ghost use Rattle.bridge_setting.specs.contracts.setting.Setting as set;
    ghost use Rattle.call_stacks.specs.ValueCodes.{value_code};
    ghost use Rattle.uno_model.specs.Codes.{kind_code};

    ghost Value = { journals.Endpoint };

    ghost coded = { Prim.hlevel (codes, kind_code, value_code, set.the_row.coded) };

    ghost view = { λ e. record { configured = e.setting; entries = e.journal.entries; stamps = e.journal.stamps; stamp = e.journal.stamp } };

    ghost invariant = { λ e. IsKept (setting_of e.setting) e.setting.names.roots e.state e.journal };
}

impl Endpoint {
    /// An end with this tag, whose objects do what the plan says. Nothing has happened at it.
    pub fn new(
        alloc: Global,
        registry: Registry,
        plan: Plan,
        tag: Tag,
    ) -> Result<Endpoint, NoMemory>
        requires { IsSetUp (record { tag = tag; registry = registry; plan = plan_of plan }) }
        ensures setting { IfOk result (λ e. setting_at e ≡ record { tag = tag; registry = registry; plan = plan_of plan }) }
        ensures opening { IfOk result (λ e. e ≡ opening_endpoint e.configured) }
    {
        know(&registry, &tag);
        let setting = Setting::new(alloc, registry, plan, tag)?;
        match opened(alloc, &setting) {
            Ok((state, journal)) => Ok(Endpoint {
                alloc,
                setting,
                state,
                journal,
            }),
            Err(NoMemory) => {
                drop(setting);
                Err(NoMemory)
            }
        }
    }

    /// No more bytes come, or they cannot be read or written. Where the bridge has ended nothing happens.
    pub fn end_input(&mut self, how: InputEnd)
        ensures ended { stands (side_at self.old) ≡ true → self.new ≡ with_entry (how_ended how) self.old }
        ensures kept { stands (side_at self.old) ≡ false → self.new ≡ self.old }
    {
        if !self.stands() {
            return;
        }
        end(
            &mut self.state,
            &mut self.journal,
            cause_of(how),
            entry_for(how),
        );
    }

    /// Ends the bridge, where it stands.
    pub fn dispose(&mut self)
        ensures disposed { stands (side_at self.old) ≡ true → self.new ≡ with_entry entry.disposed self.old }
        ensures kept { stands (side_at self.old) ≡ false → self.new ≡ self.old }
    {
        if !self.stands() {
            return;
        }
        end(
            &mut self.state,
            &mut self.journal,
            Cause::Disposed,
            Entry::Disposed,
        );
    }

    /// Memory was wanting in what stands above: the bridge ends for that, and nothing is drained any more.
    pub fn run_out(&mut self)
        ensures entered { is_no_memory (side_at self.old).cause ≡ false → self.new ≡ with_entry entry.no_memory self.old }
        ensures kept { is_no_memory (side_at self.old).cause ≡ true → self.new ≡ self.old }
    {
        if self.lacks_memory() {
            return;
        }
        run_out(&mut self.state, &mut self.journal);
    }

    /// Lets the end go, with all that it has. An end may go out of scope as well; but each crate in which one does proves that once more, which takes long.
    pub fn close(self) {
        drop(self);
    }

    /// Sets the number with which the entries to come are marked.
    pub fn stamp(&mut self, next: u64)
        ensures { self.new ≡ stamped next self.old }
    {
        self.journal.stamp(next);
    }
}

fn cause_of(how: InputEnd) -> Cause
    ensures { result ≡ how_cause how }
{
    match how {
        InputEnd::Ended => Cause::Ended,
        InputEnd::Failed => Cause::Failed,
    }
}

fn entry_for(how: InputEnd) -> Entry
    ensures { entry_of result ≡ how_ended how }
{
    match how {
        InputEnd::Ended => Entry::Ended,
        InputEnd::Failed => Entry::Failed,
    }
}

/// What is known of each registry and of each tag; it does nothing.
fn know(registry: &Registry, tag: &Tag)
    ensures built_in { HasBuiltIn registry.now }
    ensures tag { IsTag tag.now }
{
    registry.entities();
    tag.as_bytes();
}

/// The state at the beginning, and a journal with room for the end, for want of memory behind it, and for each object that goes.
fn opened(alloc: Global, setting: &Setting) -> Result<(State, Journal), NoMemory>
    requires { IsSound setting.now.registry }
    ensures state { IfOk result (λ r. r.0 ≡ opening_end (setting_of setting.now)) }
    ensures journal { IfOk result (λ r. r.1 ≡ with_room (2 + (opening (setting_of setting.now)).tables.objects_made) empty_log) }
    ensures within { IfOk result (λ r. IsWithin r.1) }
{
    let state = State::new(alloc, setting)?;
    match first_journal(alloc, state.objects_made()) {
        Ok(journal) => Ok((state, journal)),
        Err(NoMemory) => {
            drop(state);
            Err(NoMemory)
        }
    }
}

/// A journal with that room, where so many objects were made.
fn first_journal(alloc: Global, made: u32) -> Result<Journal, NoMemory>
    ensures journal { IfOk result (λ j. j ≡ with_room (2 + made) empty_log) }
    ensures within { IfOk result (λ j. IsWithin j) }
{
    let mut journal = Journal::new(alloc);
    match reserve(&mut journal, 2 + made as usize) {
        Ok(()) => Ok(journal),
        Err(NoMemory) => {
            drop(journal);
            Err(NoMemory)
        }
    }
}
