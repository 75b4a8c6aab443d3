//! Bits in words of 64, the lowest bit of the first word first.
ghost use Rattle.std.specs.Prelude.{◌≡◌, ◌+◌, ◌*◌, ◌/◌, ◌^◌, ◌<◌, ◌≤◌, max, ℕ, length, true, false, OnOk, OnErr};
ghost use Rattle.std.specs.Bool.{MatchBool};
ghost use Rattle.std.specs.Option.{MatchOption};
ghost use Rattle.birth_index.specs.Members.{turned, IsFirst, NoneFrom, HasIn, NoneIn, IsLowest, NoneLower};
ghost use Rattle.birth_index.specs.Bits.{bit_of};

use uno_base::NoMemory;

pub type Words = Vec<u64>;

/// Whether a bit is set.
pub fn is_set(words: &Words, place: u64) -> bool
    ensures { result ≡ bit_of words.now.items place }
{
    let Some(word) = words.get((place / 64) as usize) else {
        return false
    };
    (*word >> (place % 64)) & 1 == 1
}

/// Takes room for a bit.
pub fn make_room(words: &mut Words, place: u64) -> Result<(), NoMemory>
    ensures room { OnOk result (place < 64 * length words.new.items) }
    ensures more { length words.old.items ≤ length words.new.items }
    ensures most { length words.new.items ≤ max (length words.old.items) (place / 64 + 1) }
    ensures same { (k : ℕ) → bit_of words.new.items k ≡ bit_of words.old.items k }
    ensures kept { OnErr result (words.new.items ≡ words.old.items) }
{
    let len = (place / 64) as usize + 1;
    if len <= words.len() {
        return Ok(());
    }
    words.resize(len, 0)?;
    Ok(())
}

/// Sets a bit.
pub fn set_bit(words: &mut Words, place: u64)
    requires { place < 64 * length words.old.items }
    ensures bits { (k : ℕ) → bit_of words.new.items k ≡ turned (bit_of words.old.items) place true k }
    ensures len { length words.new.items ≡ length words.old.items }
{
    let index = (place / 64) as usize;
    let word = words[index];
    words[index] = word | 1u64 << (place % 64);
}

/// Clears a bit, and tells whether its word has none any more.
pub fn clear_bit(words: &mut Words, place: u64) -> bool
    requires { place < 64 * length words.old.items }
    ensures bits { (k : ℕ) → bit_of words.new.items k ≡ turned (bit_of words.old.items) place false k }
    ensures len { length words.new.items ≡ length words.old.items }
    ensures empty { MatchBool result (NoneIn (bit_of words.new.items) (place / 64)) (HasIn (bit_of words.new.items) (place / 64)) }
{
    let index = (place / 64) as usize;
    let word = words[index] & !(1u64 << (place % 64));
    words[index] = word;
    word == 0
}

/// The first bit that is set from a place on in the place's word.
pub fn lowest_from(words: &Words, place: u64) -> Option<u64>
    ensures { MatchOption result (NoneLower (bit_of words.now.items) place) (λ n. IsLowest (bit_of words.now.items) place n) }
{
    let Some(word) = words.get((place / 64) as usize) else {
        return None
    };
    let rest = *word >> (place % 64);
    if rest == 0 {
        return None;
    }
    Some(place + u64::from(rest.trailing_zeros()))
}

/// The first bit that is set from a place on, by a walk over the words.
pub fn first_from(words: &Words, place: u64) -> Option<u64>
    requires { length words.now.items ≤ 2 ^ 58 }
    ensures { MatchOption result (NoneFrom (bit_of words.now.items) place) (λ n. IsFirst (bit_of words.now.items) place n) }
{
    if let Some(found) = lowest_from(words, place) {
        return Some(found);
    }
    let mut index = place / 64 + 1;
    while index < words.len() as u64 {
        if let Some(found) = lowest_from(words, index * 64) {
            return Some(found);
        }
        index += 1;
    }
    None
}
