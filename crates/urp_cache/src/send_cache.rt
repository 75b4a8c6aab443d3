//! Which slot a name takes at the end that sends.
ghost use Rattle.std.specs.Prelude.{◌≡◌, ℕ, ◌<◌, List, [], ◌∷◌, IfOk, OnOk, OnErr, IsOk, IsTrue, IsFalse, MatchOption};
ghost use Rattle.urp_model.specs.Held.{CanBeHeld, holds, slot_for, next_slot, used, StandsFor, known_if};
ghost use Rattle.urp_model.specs.Slots.{slot_taken, is_held};

use lru::LruCache;
use std::alloc::Global;
use std::marker::Model;
use std::num::NonZeroUsize;
use uno_base::NoMemory;
use urp_model::Known;

/// The names that this end announced and that are still in their slots.
#[derive(Drop)]
pub struct SendCache {
    alloc: Global,
    names: LruCache<Vec<u8>, u16>,
}

impl Model for SendCache {
    ghost use Rattle.std.specs.Prelude.{◌≡◌, ℕ, List};
    ghost use Rattle.urp_model.specs.Held.{CanBeHeld};
    ghost use Rattle.urp_cache.specs.SendCache.{plain};

    ghost Value = { List (List ℕ × ℕ) };

    ghost view = { λ c. plain c.names.entries };

    ghost invariant = { λ c. (c.names.cap ≡ 256) × CanBeHeld (plain c.names.entries) };
}

impl SendCache {
    /// A cache that holds no name.
    #[tactic(auto, using(urp_model::proofs::UseByUse::none_used), unfolding(crate::specs::SendCache::plain))]
    pub fn new(alloc: Global) -> Result<SendCache, NoMemory>
        ensures empty { IfOk result (λ cache. cache ≡ []) }
        ensures stands { IfOk result (λ cache. StandsFor cache []) }
    {
        let Some(slots) = NonZeroUsize::new(SLOTS) else {
            unreachable!()
        };
        let names = LruCache::new(alloc, slots)?;
        Ok(SendCache { alloc, names })
    }

    /// The slot of a name that is used now, and whether it was in it before.
    #[tactic(auto, using(urp_model::proofs::UseByUse::same_slot, urp_model::proofs::UseByUse::same_held, urp_model::proofs::UseByUse::one_more_use, urp_model::proofs::HeldBounds::slot_for_below))]
    pub fn slot_of(&mut self, name: &[u8]) -> Result<(u16, Known), NoMemory>
        ensures slot { IfOk result (λ x. x.0 ≡ slot_for name.now self.old) }
        ensures known { IfOk result (λ x. x.1 ≡ known_if (holds name.now self.old)) }
        ensures used { OnOk result (self.new ≡ used name.now self.old) }
        ensures below { IfOk result (λ x. x.0 < 256) }
        ensures taken { (uses : List (List ℕ)) → StandsFor self.old uses
            → IfOk result (λ x. (x.0 ≡ slot_taken uses name.now) × (x.1 ≡ known_if (is_held uses name.now))) }
        ensures stands { (uses : List (List ℕ)) → StandsFor self.old uses → OnOk result (StandsFor self.new (name.now ∷ uses)) }
        ensures sure { IsTrue (holds name.now self.old) → IsOk result }
        ensures refused { OnErr result (self.new ≡ self.old) }
    {
        match self.slot_held(name) {
            Some(slot) => {
                self.use_again(name);
                Ok((slot, Known::Old))
            }
            None => {
                let slot = self.use_anew(name)?;
                Ok((slot, Known::New))
            }
        }
    }

    /// The slot of a name that is held.
    fn slot_held(&self, name: &[u8]) -> Option<u16>
        ensures held { MatchOption result (IsFalse (holds name.now self.now)) (λ slot. IsTrue (holds name.now self.now) × (slot ≡ slot_for name.now self.now)) }
        ensures bounds { CanBeHeld self.now }
    {
        self.names.peek(name).copied()
    }

    /// Takes in a use of a name that is held.
    #[tactic(auto, using(crate::proofs::Steps::after_promote))]
    fn use_again(&mut self, name: &[u8])
        requires { IsTrue (holds name.now self.old) }
        ensures { self.new ≡ used name.now self.old }
    {
        self.names.promote(name);
    }

    /// Takes in a use of a name that is not held, which gets a slot.
    fn use_anew(&mut self, name: &[u8]) -> Result<u16, NoMemory>
        requires { IsFalse (holds name.now self.old) }
        ensures slot { IfOk result (λ slot. slot ≡ slot_for name.now self.old) }
        ensures used { OnOk result (self.new ≡ used name.now self.old) }
        ensures refused { OnErr result (self.new ≡ self.old) }
    {
        let slot = self.next_slot();
        let kept = Vec::from_slice(self.alloc, name)?;
        self.names.put(kept, slot)?;
        Ok(slot)
    }

    /// The slot of a name that is not held.
    #[tactic(auto, using(crate::proofs::Views::next_unused, crate::proofs::Steps::slot_of_last))]
    fn next_slot(&self) -> u16
        ensures { result ≡ next_slot self.now }
    {
        let held = self.names.len();
        if held < SLOTS {
            return held as u16;
        }
        match self.names.peek_lru() {
            Some((_, slot)) => *slot,
            None => unreachable!(),
        }
    }
}

/// How many slots there are.
const SLOTS: usize = 256;
