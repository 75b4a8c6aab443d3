//! How often each of some holders is counted: a lone one stands here itself, and several in a map.
ghost use Rattle.std.specs.Prelude.{◌≡◌, ◌+◌, ◌≤◌, ◌<◌, [], ◌∷◌, false, IsSome, IsOk, IfOk, OnOk, OnErr};
ghost use Rattle.std.specs.List.{IsDistinct};
ghost use Rattle.std.specs.Map.{lookup, keys_of};
ghost use Rattle.indexmap.specs.IndexMap.{spare, IsUnique};
ghost use Rattle.env_table.specs.Times.{times_of, Recounts};

use indexmap::IndexMap;
use std::alloc::Global;
use std::marker::Model;
use table_model::Holder;
use uno_base::NoMemory;

/// A number for each of some holders.
#[derive(Drop)]
pub struct Times {
    layout: Layout,
}

/// A second holder makes the rows a map, and they stay one.
#[derive(Drop)]
enum Layout {
    Empty,
    Lone(Holder, u64),
    Several(Box<IndexMap<Holder, u64>>),
}

impl Model for Times {
    ghost use Rattle.std.specs.Prelude.{ℕ, List};
    ghost use Rattle.std.specs.List.{IsDistinct};
    ghost use Rattle.std.specs.Map.{keys_of};
    ghost use Rattle.table_model.specs.declared.holder.Holder.{Holder};
    ghost use Rattle.env_table.specs.Layout.{rows_of};

    ghost Value = { List (Holder × ℕ) };

    ghost view = { λ t. rows_of t.layout };

    ghost invariant = { λ t. IsDistinct ⟦<Holder as PartialEq>⟧.eq (keys_of (rows_of t.layout)) };
}

impl Times {
    /// Nobody is counted.
    #[tactic(auto, using(crate::proofs::Distinct::none_distinct, crate::proofs::Distinct::lone_distinct))]
    pub fn new() -> Times
        ensures { result ≡ [] }
    {
        Times {
            layout: Layout::Empty,
        }
    }

    /// How often a holder is counted.
    pub fn of(&self, holder: Holder) -> u64
        ensures number { result ≡ times_of ⟦<Holder as PartialEq>⟧.eq holder self.now }
        ensures distinct { IsDistinct ⟦<Holder as PartialEq>⟧.eq (keys_of self.now) }
    {
        match &self.layout {
            Layout::Empty => 0,
            Layout::Lone(only, times) => { if holder == *only { *times } else { 0 } }
            Layout::Several(times) => times.get(&holder).copied().unwrap_or(0),
        }
    }

    /// Counts a holder so often.
    #[tactic(auto, using(crate::proofs::Distinct::none_distinct, crate::proofs::Distinct::lone_distinct))]
    pub fn set(&mut self, alloc: Global, holder: Holder, number: u64) -> Result<(), NoMemory>
        ensures set { OnOk result (Recounts ⟦<Holder as PartialEq>⟧.eq holder number self.old self.new) }
        ensures kept { OnErr result (self.new ≡ self.old) }
        ensures distinct { IsDistinct ⟦<Holder as PartialEq>⟧.eq (keys_of self.new) }
    {
        match &mut self.layout {
            Layout::Empty => {
                self.layout = Layout::Lone(holder, number);
                Ok(())
            }
            Layout::Lone(only, times) => {
                if holder == *only {
                    *times = number;
                    return Ok(());
                }
                let several = two(alloc, *only, *times, holder, number)?;
                self.layout = Layout::Several(several);
                Ok(())
            }
            Layout::Several(times) => insert(times, holder, number),
        }
    }

    /// Counts a holder that is there so often, which takes no memory.
    #[tactic(auto, using(crate::proofs::Distinct::none_distinct, crate::proofs::Distinct::lone_distinct))]
    pub fn reset(&mut self, holder: Holder, number: u64)
        requires { IsSome (lookup (⟦<Holder as PartialEq>⟧.eq holder) self.old) }
        ensures set { Recounts ⟦<Holder as PartialEq>⟧.eq holder number self.old self.new }
        ensures distinct { IsDistinct ⟦<Holder as PartialEq>⟧.eq (keys_of self.new) }
    {
        match &mut self.layout {
            Layout::Empty => unreachable!(),
            Layout::Lone(_, times) => {
                if number == 0 {
                    self.layout = Layout::Empty;
                } else {
                    *times = number;
                }
            }
            Layout::Several(times) => reset(times, holder, number),
        }
    }
}

/// A map of two holders.
fn two(
    alloc: Global,
    first: Holder,
    times: u64,
    second: Holder,
    number: u64,
) -> Result<Box<IndexMap<Holder, u64>>, NoMemory>
    requires { ⟦<Holder as PartialEq>⟧.eq second first ≡ false }
    ensures set { IfOk result (λ both. Recounts ⟦<Holder as PartialEq>⟧.eq second number ((first, times) ∷ []) both.value.entries) }
    ensures distinct { IfOk result (λ both. IsUnique ⟦<Holder as PartialEq>⟧.eq both.value) }
{
    let mut both = room_for_two(alloc)?;
    insert(&mut both, first, times).ok();
    insert(&mut both, second, number).ok();
    Ok(both)
}

/// A map that is empty and has room for two holders.
fn room_for_two(alloc: Global) -> Result<Box<IndexMap<Holder, u64>>, NoMemory>
    ensures empty { IfOk result (λ times. times.value.entries ≡ []) }
    ensures room { IfOk result (λ times. 2 ≤ spare times.value) }
{
    let mut times = IndexMap::new(alloc);
    times.reserve(2)?;
    Ok(Box::new(alloc, times)?)
}

/// Counts a holder so often, for which there may be room.
fn insert(times: &mut IndexMap<Holder, u64>, holder: Holder, number: u64) -> Result<(), NoMemory>
    ensures set { OnOk result (Recounts ⟦<Holder as PartialEq>⟧.eq holder number times.old.entries times.new.entries) }
    ensures kept { OnErr result (times.new.entries ≡ times.old.entries) }
    ensures fits { 0 < spare times.old → IsOk result }
    ensures room { spare times.old ≤ spare times.new + 1 }
    ensures unique { IsUnique ⟦<Holder as PartialEq>⟧.eq times.new }
{
    times.insert(holder, number)?;
    Ok(())
}

/// Counts a holder that is there so often.
fn reset(times: &mut IndexMap<Holder, u64>, holder: Holder, number: u64)
    requires { IsSome (lookup (⟦<Holder as PartialEq>⟧.eq holder) times.old.entries) }
    ensures set { Recounts ⟦<Holder as PartialEq>⟧.eq holder number times.old.entries times.new.entries }
    ensures unique { IsUnique ⟦<Holder as PartialEq>⟧.eq times.new }
{
    if number == 0 {
        times.swap_remove(&holder);
    } else if let Some(place) = times.get_mut(&holder) {
        *place = number;
    }
}
