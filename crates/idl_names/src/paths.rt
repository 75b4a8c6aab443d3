//! Paths of identifiers by number: of modules, of what they declare, and of constants and items.
ghost use Rattle.std.specs.Bool.{OnTrue};
ghost use Rattle.std.specs.Prelude.{◌≡◌, ◌<◌, ◌-◌, ℕ, ◌++◌, ◌∷◌, [], IfNone, IfOk, IfSome, OnErr, OnOk, Contains, cond, get_or, length, map, slice_get, Some};
ghost use Rattle.idl_meaning_model.specs.Declarations.{dotted};
ghost use Rattle.idl_names.specs.Paths.{Inside, IsInside, MarksSlot, Opens, Parts, inside_of, is_same, number_at, slot_of, within};

use std::alloc::Global;
use std::collections::BTreeMap;
use std::marker::Model;
use uno_base::NoMemory;
use uno_entities::Name;

/// The path without an identifier, that of the module round all others.
pub const OUTERMOST: u32 = 0;

/// How many identifiers most paths have.
const USUAL_PARTS: usize = 5;

/// How many slots there are.
const SLOTS: usize = 32_768;

/// What stands for a slot that is not there; it is no number of a path that is told.
const NO_SLOT: u32 = 1;

/// Paths, each told by the one round it and its last identifier. They are numbered in the order in which they are first opened; the one
/// without an identifier is there from the beginning. Each slot has the number of the first path that is of it, or 0 where none is: so
/// most paths are found, or known not to be there, without a search.
#[derive(Drop)]
pub struct Paths<'a> {
    numbers: BTreeMap<(u32, &'a str), u32>,
    inside: Vec<(u32, &'a str)>,
    slots: Vec<u32>,
}

impl<'a> Model for Paths<'a> {
    ghost use Rattle.std.specs.Prelude.{List};
    ghost use Rattle.idl_names.specs.Paths.{Parts, inside_of, paths_of, AreFound};

    ghost Value = { List Parts };

    ghost view = { λ m. paths_of (inside_of m.inside.items) };

    ghost invariant = { λ m. AreFound (inside_of m.inside.items) m.numbers m.slots.items };
}

impl<'a> Paths<'a> {
    /// The outermost alone.
    pub fn new(alloc: Global) -> Result<Paths<'a>, NoMemory>
        ensures { IfOk result (λ paths. paths ≡ [] ∷ []) }
    {
        let slots = vec![in alloc; 0u32; SLOTS]?;
        Ok(Paths {
            numbers: BTreeMap::new(alloc),
            inside: Vec::new(alloc),
            slots,
        })
    }

    /// How many there are. No two of them are the same.
    pub fn len(&self) -> usize
        ensures count { result ≡ length self.now }
        ensures once { (n k : ℕ) (p : Parts) → slice_get self.now n ≡ Some p → slice_get self.now k ≡ Some p → n ≡ k }
    {
        self.inside.as_slice().len() + 1
    }

    /// The path of this identifier behind another, if it was opened. Where it was not, none behind it was.
    pub fn inner(&self, outer: u32, name: &'a str) -> Option<u32>
        requires { outer < length self.now }
        ensures some { IfSome result (λ number. slice_get self.now number ≡ Some (within self.now (outer, name.now))) }
        ensures none { IfNone result ((rest : Parts) → ¬ Contains self.now (within self.now (outer, name.now) ++ rest)) }
    {
        let guess = number_in(self.slots.as_slice(), slot_of(outer, name));
        if guess == 0 {
            return None;
        }
        if is_told(self.inside.as_slice(), guess, outer, name) {
            return Some(guess);
        }
        self.numbers.get(&(outer, name)).copied()
    }

    /// The path of this identifier behind another; opened for the first time, it is a new one.
    pub fn open(&mut self, outer: u32, name: &'a str) -> Result<u32, NoMemory>
        requires { outer < length self.old }
        ensures number { IfOk result (λ number. slice_get self.new number ≡ Some (within self.old (outer, name.now))) }
        ensures opened { OnOk result (Opens self.old (within self.old (outer, name.now)) self.new) }
        ensures kept { OnErr result (self.new ≡ self.old) }
    {
        if let Some(number) = self.inner(outer, name) {
            return Ok(number);
        }
        let Ok(number) = u32::try_from(self.inside.len() + 1) else {
            return Err(NoMemory);
        };
        self.inside.push((outer, name))?;
        match note(&mut self.numbers, &mut self.slots, outer, name, number) {
            Ok(()) => Ok(number),
            Err(NoMemory) => {
                self.inside.pop();
                Err(NoMemory)
            }
        }
    }

    /// The path of these identifiers behind another, if it was opened.
    pub fn behind(&self, from: u32, names: &'a [Name]) -> Option<u32>
        requires { from < length self.now }
        ensures some { IfSome result (λ number. slice_get self.now number ≡ Some (get_or self.now from [] ++ names.now)) }
        ensures none { IfNone result (¬ Contains self.now (get_or self.now from [] ++ names.now)) }
    {
        let mut number = from;
        for name in names {
            number = self.inner(number, name.as_str())?;
        }
        Some(number)
    }

    /// The path round another, and the last identifier of that; the outermost has none.
    pub fn last(&self, number: u32) -> Option<(u32, &'a str)>
        requires { number < length self.now }
        ensures some { IfSome result (λ last. IsInside self.now (last.0, last.1.now) number) }
        ensures none { IfNone result (number ≡ 0) }
    {
        if number == OUTERMOST {
            return None;
        }
        match self.inside.get((number - 1) as usize) {
            Some((outer, name)) => Some((*outer, *name)),
            None => None,
        }
    }

    /// The identifiers of a path, joined by points.
    pub fn full_name(&self, alloc: Global, number: u32) -> Result<Name, NoMemory>
        requires { number < length self.now }
        ensures { IfOk result (λ name. name ≡ dotted (get_or self.now number [])) }
    {
        let Ok(parts) = self.parts(alloc, number) else {
            return Err(NoMemory);
        };
        let text = parts.join(alloc, ".")?;
        Name::of(alloc, text.as_str())
    }

    /// The identifiers of a path.
    fn parts(&self, alloc: Global, number: u32) -> Result<Vec<&'a str>, NoMemory>
        requires { number < length self.now }
        ensures { IfOk result (λ parts. map (λ part. part.now) parts.items ≡ get_or self.now number []) }
    {
        let _ = &self.inside;
        let mut parts = Vec::with_capacity(alloc, USUAL_PARTS)?;
        let mut rest = number;
        while let Some((outer, name)) = self.last(rest) {
            parts.push(name)?;
            rest = outer;
        }
        parts.reverse();
        Ok(parts)
    }
}

/// Notes the number of the path of this identifier behind another.
fn note<'a>(
    numbers: &mut BTreeMap<(u32, &'a str), u32>,
    slots: &mut Vec<u32>,
    outer: u32,
    name: &'a str,
    number: u32,
) -> Result<(), NoMemory>
    requires { 0 < number }
    ensures noted { OnOk result ((m : Inside) → number_at numbers.new m ≡ cond (is_same (outer, name.now) m) (Some number) (number_at numbers.old m)) }
    ensures marked { OnOk result (MarksSlot slots.old.items (slot_of (outer, name.now)) slots.new.items) }
    ensures kept { OnErr result ((m : Inside) → number_at numbers.new m ≡ number_at numbers.old m) }
    ensures unmarked { OnErr result (slots.new.items ≡ slots.old.items) }
{
    numbers.insert((outer, name), number)?;
    mark(slots, slot_of(outer, name), number);
    Ok(())
}

/// The slot of the path of this identifier behind another.
fn slot_of(outer: u32, name: &str) -> usize
    ensures { result ≡ slot_of (outer, name.now) }
{
    let bytes = name.as_bytes();
    let length = bytes.len();
    let first = byte_at(bytes, 0);
    let middle = byte_at(bytes, length / 2);
    let last_but_one = byte_at(bytes, length.saturating_sub(2));
    let last = byte_at(bytes, length.saturating_sub(1));
    (outer as usize * 1_021 + first * 37 + middle * 131 + last_but_one * 61 + last * 7) % SLOTS
}

fn byte_at(bytes: &[u8], place: usize) -> usize
    ensures byte { result ≡ get_or bytes.now place 0 }
    ensures low { result < 256 }
{
    match bytes.get(place) {
        Some(byte) => *byte as usize,
        None => 0,
    }
}

/// The number that a slot has.
fn number_in(slots: &[u32], slot: usize) -> u32
    ensures { result ≡ get_or slots.now slot 1 }
{
    match slots.get(slot) {
        Some(number) => *number,
        None => NO_SLOT,
    }
}

/// Gives a slot its number, if it has none.
fn mark(slots: &mut Vec<u32>, slot: usize, number: u32)
    requires { 0 < number }
    ensures { MarksSlot slots.old.items slot slots.new.items }
{
    if number_in(slots.as_slice(), slot) != 0 {
        return;
    }
    if slot < slots.len() {
        slots[slot] = number;
    }
}

/// Whether the path of this number is that of this identifier behind another.
fn is_told(inside: &[(u32, &str)], number: u32, outer: u32, name: &str) -> bool
    requires { 0 < number }
    ensures { OnTrue result (slice_get (inside_of inside.now) (number - 1) ≡ Some (outer, name.now)) }
{
    let Some((round, last)) = inside.get((number - 1) as usize) else {
        return false;
    };
    if *round != outer {
        return false;
    }
    *last == name
}
