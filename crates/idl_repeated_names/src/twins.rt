//! Names that were met, with the places of the second ones of names that are equal.
ghost use Rattle.std.specs.Option.{option_map};
ghost use Rattle.std.specs.Prelude.{◌≡◌, ◌-◌, ◌++◌, ◌∷◌, [], List, OnOk, Option, cond, length, map, unwrap_or};
ghost use Rattle.idl_joint_places.specs.Circles.{FindsLeast};
ghost use Rattle.idl_model.specs.Places as plain;
ghost use Rattle.idl_names.specs.Paths.{Inside, is_same};
ghost use Rattle.idl_repeated_names.specs.Sums.{Sums, nothing, summary_of};
ghost use Rattle.idl_repeated_names.specs.Twins.{FindsSeconds, ForgetsLast, HasMet, HaveKeys, Named, TakesBack, known_at, named};
ghost use Rattle.idl_trees.specs.Names.{place_of};

use crate::least::{Least, least_of_both, least_with, nothing, with_one, with_second};
use idl_trees::Place;
use std::alloc::Global;
use std::collections::BTreeMap;
use uno_base::NoMemory;

/// A name, with what stands before it in the name of a function.
type Key<'a> = (u8, &'a str);

pub(crate) const CALL: u8 = 0;

pub(crate) const GET: u8 = 1;

pub(crate) const SET: u8 = 2;

/// A name that was met, and what was known of it before.
#[derive(Clone, Copy)]
struct Met<'a> {
    key: Key<'a>,
    before: Least,
}

/// Of the names that were met the places of each, and those of second names: a name that is built in has none. The names that were met last can be taken back.
/// The least of places that count is known too: that of the declaration counts where a place is missing.
#[derive(Drop)]
pub(crate) struct Twins<'a> {
    known: BTreeMap<Key<'a>, Least>,
    met: Vec<Met<'a>>,
    own: Place,
    pub found: Least,
    pub least: Option<Place>,
}

impl<'a> Twins<'a> {
    pub(crate) fn new(alloc: Global, own: Place, least: Option<Place>) -> Twins<'a>
        ensures met { HasMet result [] }
        ensures own { result.own ≡ own }
        ensures found { summary_of result.found ≡ nothing }
        ensures least { result.least ≡ least }
    {
        Twins {
            known: BTreeMap::new(alloc),
            met: Vec::new(alloc),
            own,
            found: nothing(),
            least,
        }
    }

    /// How many names were met.
    pub(crate) fn len(&self) -> usize
        ensures { (ns : List Named) → HasMet self.now ns → result ≡ length ns }
    {
        self.met.len()
    }

    /// Meets a name, behind those that were met.
    pub(crate) fn meet(&mut self, key: Key<'a>, place: Option<Place>) -> Result<(), NoMemory>
        ensures met { OnOk result ((ns : List Named) → HasMet self.old ns → HasMet self.new (ns ++ named key.entry place ∷ [])) }
        ensures own { self.new.own ≡ self.old.own }
        ensures least { self.new.least ≡ self.old.least }
        ensures found { OnOk result ((ns : List Named) → HasMet self.old ns → HaveKeys (ns ++ named key.entry place ∷ []) → FindsSeconds ns self.old → FindsSeconds (ns ++ named key.entry place ∷ []) self.new) }
    {
        let before = known_of(&self.known, key);
        self.found = with_second(self.found, before, place);
        self.met.push(Met { key, before })?;
        note(&mut self.known, key, with_one(before, place))?;
        Ok(())
    }

    /// Takes back all but the first names. What was found of second names is left.
    pub(crate) fn take_back(&mut self, count: usize) -> Result<(), NoMemory>
        ensures { OnOk result (TakesBack self.old self.new count) }
    {
        while self.met.len() > count {
            self.forget_last()?;
        }
        Ok(())
    }

    fn forget_last(&mut self) -> Result<(), NoMemory>
        ensures last { OnOk result (ForgetsLast self.old self.new) }
        ensures fewer { length self.new.met.items ≡ length self.old.met.items - 1 }
    {
        let Some(met) = self.met.pop() else {
            return Ok(());
        };
        note(&mut self.known, met.key, met.before)?;
        Ok(())
    }

    /// Forgets the names, but not the least of places that count.
    pub(crate) fn forget(&mut self)
        ensures met { HasMet self.new [] }
        ensures own { self.new.own ≡ self.old.own }
        ensures found { summary_of self.new.found ≡ nothing }
        ensures least { self.new.least ≡ self.old.least }
    {
        self.known.clear();
        self.met.clear();
        self.found = nothing();
    }

    /// The places of the second names that were met count.
    pub(crate) fn count_met(&mut self)
        ensures own { self.new.own ≡ self.old.own }
        ensures least { (them : List (Option plain.Place)) (ps : List plain.Place) → Sums them (summary_of self.old.found) → FindsLeast ps self.old.least → FindsLeast (ps ++ map (λ p. unwrap_or p (place_of self.old.own)) them) self.new.least }
    {
        self.count(self.found);
    }

    /// These places count, that of the declaration where one is missing.
    pub(crate) fn count(&mut self, found: Least)
        ensures own { self.new.own ≡ self.old.own }
        ensures least { (them : List (Option plain.Place)) (ps : List plain.Place) → Sums them (summary_of found) → FindsLeast ps self.old.least → FindsLeast (ps ++ map (λ p. unwrap_or p (place_of self.old.own)) them) self.new.least }
    {
        self.least = least_of_both(self.least, least_with(found, self.own));
    }
}

// ---- what is known of one name

fn known_of<'a>(known: &BTreeMap<Key<'a>, Least>, key: Key<'a>) -> Least
    ensures { summary_of result ≡ known_at known.now (key.entry.0, key.entry.1.now) }
{
    or_nothing(known.get(&key).copied())
}

fn or_nothing(known: Option<Least>) -> Least
    ensures { summary_of result ≡ unwrap_or (option_map (λ l. summary_of l) known) nothing }
{
    match known {
        Some(least) => least,
        None => nothing(),
    }
}

fn note<'a>(
    known: &mut BTreeMap<Key<'a>, Least>,
    key: Key<'a>,
    least: Least,
) -> Result<(), NoMemory>
    ensures { OnOk result ((k : Inside) → known_at known.new k ≡ cond (is_same (key.entry.0, key.entry.1.now) k) (summary_of least) (known_at known.old k)) }
{
    known.insert(key, least)?;
    Ok(())
}
