//! Births, as bits of words, with words over them that tell which words have a bit.
ghost use Rattle.std.specs.Prelude.{◌≡◌, ◌<◌, ℕ, [], length, true, false, OnOk, OnErr, slice_set};
ghost use Rattle.std.specs.Option.{MatchOption};
ghost use Rattle.birth_index.specs.Members.{IsFirst, NoneFrom};
ghost use Rattle.birth_index.specs.Bits.{bit_of, has};
ghost use Rattle.birth_index.specs.Levels.{IsOver};

use crate::words;
use crate::words::Words;
use std::alloc::Global;
use std::marker::Model;
use uno_base::NoMemory;

/// A set of births.
///
/// The number of levels is fixed: `first_from` reads a few words, and walks over words each of which stands for 2^18 births.
#[derive(Drop)]
pub struct BirthIndex {
    births: Words,
    words: Words,
    groups: Words,
}

/// For each birth that there is room for, whether it is in the set.
impl Model for BirthIndex {
    ghost use Rattle.std.specs.Prelude.{List, Bool};
    ghost use Rattle.birth_index.specs.Bits.{bits_of};
    ghost use Rattle.birth_index.specs.Levels.{AreLevels};

    ghost Value = { List Bool };

    ghost view = { λ s. bits_of s.births.items };

    ghost invariant = { λ s. AreLevels s.births.items s.words.items s.groups.items };
}

impl BirthIndex {
    /// An empty set without room.
    pub fn new(alloc: Global) -> BirthIndex
        ensures { result ≡ [] }
    {
        BirthIndex {
            births: Vec::new(alloc),
            words: Vec::new(alloc),
            groups: Vec::new(alloc),
        }
    }

    /// Takes room for a birth.
    pub fn make_room(&mut self, birth: u64) -> Result<(), NoMemory>
        ensures room { OnOk result (birth < length self.new) }
        ensures same { (n : ℕ) → has self.new n ≡ has self.old n }
        ensures kept { OnErr result (self.new ≡ self.old) }
    {
        words::make_room(&mut self.groups, birth / 64 / 64)?;
        words::make_room(&mut self.words, birth / 64)?;
        words::make_room(&mut self.births, birth)?;
        Ok(())
    }

    /// Adds a birth for which there is room.
    pub fn set(&mut self, birth: u64)
        requires { birth < length self.old }
        ensures { self.new ≡ slice_set self.old birth true }
    {
        words::set_bit(&mut self.births, birth);
        words::set_bit(&mut self.words, birth / 64);
        words::set_bit(&mut self.groups, birth / 64 / 64);
    }

    /// Takes out a birth for which there is room.
    pub fn clear(&mut self, birth: u64)
        requires { birth < length self.old }
        ensures { self.new ≡ slice_set self.old birth false }
    {
        if !words::clear_bit(&mut self.births, birth) {
            return;
        }
        if !words::clear_bit(&mut self.words, birth / 64) {
            return;
        }
        words::clear_bit(&mut self.groups, birth / 64 / 64);
    }

    /// Makes a birth for which there is room a member or none.
    pub fn turn(&mut self, birth: u64, member: bool)
        requires { birth < length self.old }
        ensures { self.new ≡ slice_set self.old birth member }
    {
        if member {
            self.set(birth);
            return;
        }
        self.clear(birth);
    }

    /// Whether a birth is in the set.
    pub fn contains(&self, birth: u64) -> bool
        ensures { result ≡ has self.now birth }
    {
        words::is_set(&self.births, birth)
    }

    /// The first birth of the set from a number on.
    pub fn first_from(&self, birth: u64) -> Option<u64>
        ensures { MatchOption result (NoneFrom (has self.now) birth) (λ n. IsFirst (has self.now) birth n) }
    {
        if let Some(found) = words::lowest_from(&self.births, birth) {
            return Some(found);
        }
        let word = first_word_from(&self.words, &self.groups, birth / 64 + 1)?;
        words::lowest_from(&self.births, word * 64)
    }
}

/// The first bit that is set from a place on, of words whose groups have bits.
fn first_word_from(words: &Words, groups: &Words, place: u64) -> Option<u64>
    requires { IsOver words.now.items groups.now.items }
    ensures { MatchOption result (NoneFrom (bit_of words.now.items) place) (λ n. IsFirst (bit_of words.now.items) place n) }
{
    if let Some(found) = words::lowest_from(words, place) {
        return Some(found);
    }
    let group = words::first_from(groups, place / 64 + 1)?;
    words::lowest_from(words, group * 64)
}
