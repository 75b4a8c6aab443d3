//! What each of the 256 slots means to the end that reads.
ghost use Rattle.std.specs.Prelude.{◌≡◌, ℕ, ◌<◌, List, [], ◌∷◌, get_or, Option, None, option_map, IfOk};
ghost use Rattle.urp_model.specs.Slots.{Announcement, Means, meant_at, announced, no_meanings};

use crate::SlotName;
use std::alloc::Global;
use std::marker::Model;
use uno_base::NoMemory;

/// The names that were announced, each at its slot.
#[derive(Drop)]
pub struct ReadCache<N: SlotName> {
    names: Vec<Option<N>>,
}

impl<N: SlotName> Model for ReadCache<N> {
    ghost use Rattle.std.specs.Prelude.{◌≡◌, ℕ, List, Option, length};
    ghost use Rattle.urp_cache.specs.ReadCache.{plain_names};

    ghost Value = { List (Option (List ℕ)) };

    ghost view = { λ c. plain_names N.bytes c.names.items };

    ghost invariant = { λ c. length c.names.items ≡ 256 };
}

impl<N: SlotName> ReadCache<N> {
    /// A cache in which no slot means anything.
    pub fn new(alloc: Global) -> Result<ReadCache<N>, NoMemory>
        ensures same { IfOk result (λ cache. cache ≡ no_meanings) }
        ensures means { IfOk result (λ cache. Means cache []) }
    {
        let mut names = Vec::new(alloc);
        for _ in 0..SLOTS {
            names.push(None)?;
        }
        Ok(ReadCache { names })
    }

    /// Takes in that a name was announced at a slot, where it replaces what the slot meant before.
    #[tactic(auto, using(crate::proofs::Tables::after_write))]
    pub fn announce(&mut self, slot: u16, name: N)
        requires { slot < 256 }
        ensures announced { self.new ≡ announced slot (N.bytes name) self.old }
        ensures means { (announcements : List Announcement) → Means self.old announcements → Means self.new (record { slot = slot; name = N.bytes name } ∷ announcements) }
    {
        self.names[slot as usize] = Some(name);
    }

    /// The name that was announced last at a slot.
    #[tactic(auto, using(crate::proofs::Tables::name_at))]
    pub fn meaning(&self, slot: u16) -> Option<&N>
        requires { slot < 256 }
        ensures same { option_map (λ name. N.bytes name.now) result ≡ get_or self.now slot None }
        ensures means { (announcements : List Announcement) → Means self.now announcements → option_map (λ name. N.bytes name.now) result ≡ meant_at slot announcements }
    {
        match &self.names[slot as usize] {
            Some(name) => Some(name),
            None => None,
        }
    }
}

/// How many slots there are.
const SLOTS: usize = 256;
