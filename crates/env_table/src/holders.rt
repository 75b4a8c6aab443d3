//! The holders of one pair, which contracts see in rising order, each as often as it holds the pair.
ghost use Rattle.std.specs.Prelude.{◌≡◌, ◌<◌, ◌^◌, [], length, OnOk, OnErr};
ghost use Rattle.table_model.specs.Bags.{how_often, one_more, one_less};
ghost use Rattle.table_model.specs.Holdings.{holder_cmp};

use crate::times::Times;
use std::alloc::Global;
use std::marker::Model;
use table_model::Holder;
use uno_base::NoMemory;

/// The most occurrences that a pair has among them.
const MOST: u64 = 0x7FFF_FFFF_FFFF_FFFF;

/// How often each holder holds the pair, and how often they all do.
#[derive(Drop)]
pub struct Holders {
    number: u64,
    times: Times,
}

impl Model for Holders {
    ghost use Rattle.std.specs.Prelude.{◌≡◌, ◌<◌, ◌^◌, List, length};
    ghost use Rattle.std.specs.List.{IsDistinct};
    ghost use Rattle.std.specs.Map.{keys_of};
    ghost use Rattle.table_model.specs.Bags.{bag_of};
    ghost use Rattle.table_model.specs.Holdings.{holder_cmp};
    ghost use Rattle.table_model.specs.declared.holder.Holder.{Holder};
    ghost use Rattle.env_table.specs.Holders.{spread};

    ghost Value = { List Holder };

    ghost view = { λ h. bag_of holder_cmp (spread h.times) };

    ghost invariant = { λ h. (IsDistinct ⟦<Holder as PartialEq>⟧.eq (keys_of h.times)) × (h.number ≡ length (bag_of holder_cmp (spread h.times))) × (h.number < 2 ^ 63) };
}

impl Holders {
    /// No holders.
    #[tactic(auto, using(crate::proofs::Distinct::none_distinct))]
    pub fn new() -> Holders
        ensures { result ≡ [] }
    {
        Holders {
            number: 0,
            times: Times::new(),
        }
    }

    /// How many occurrences they have.
    pub fn number(&self) -> u64
        ensures number { result ≡ length self.now }
        ensures few { result < 2 ^ 63 }
    {
        self.number
    }

    /// How many occurrences one of them has.
    pub fn times(&self, holder: Holder) -> u64
        ensures { result ≡ how_often holder_cmp holder self.now }
    {
        self.times.of(holder)
    }

    /// Counts an occurrence.
    pub fn hold(&mut self, alloc: Global, holder: Holder) -> Result<(), NoMemory>
        ensures held { OnOk result (self.new ≡ one_more holder_cmp holder self.old) }
        ensures kept { OnErr result (self.new ≡ self.old) }
    {
        if self.number >= MOST {
            return Err(NoMemory);
        }
        let times = self.times(holder);
        self.times.set(alloc, holder, times + 1)?;
        self.number += 1;
        Ok(())
    }

    /// Counts an occurrence less.
    pub fn let_go(&mut self, holder: Holder)
        requires { 0 < how_often holder_cmp holder self.old }
        ensures { self.new ≡ one_less holder_cmp holder self.old }
    {
        let times = self.times(holder);
        self.times.reset(holder, times - 1);
        self.number -= 1;
    }
}
