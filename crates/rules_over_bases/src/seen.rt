//! The names that were seen, in their order, and whether one was seen before. Those seen last can be taken back.
ghost use Rattle.std.specs.Prelude.{◌≡◌, ◌-◌, ℕ, List, [], ◌∷◌, length, IfOk};
ghost use Rattle.rules_over_bases.specs.OwnNames.{getter_name, setter_name};
ghost use Rattle.rules_over_bases.specs.Seen.{Sees, HasSeen, Forgets, ForgetsLast, IsEntry, IsPlain, TakesBack, entry_name};

use std::alloc::Global;
use std::collections::BTreeSet;
use uno_base::NoMemory;

/// What stands before an attribute's name in that of the function that reads it, and of the one that writes it.
const GET: &str = "get:";

const SET: &str = "set:";

/// A name that was seen: of a getter or a setter only that of the attribute.
#[derive(Clone, Copy)]
pub(crate) enum Entry<'a> {
    Getter(&'a str),
    Setter(&'a str),
    Other(&'a str),
}

/// Names by what they begin with: those of getters and of setters without it, so that a function's name is never written out.
#[derive(Drop)]
pub(crate) struct Seen<'a> {
    getters: BTreeSet<&'a str>,
    setters: BTreeSet<&'a str>,
    others: BTreeSet<&'a str>,
    entries: Vec<Entry<'a>>,
}

impl<'a> Seen<'a> {
    /// None yet.
    pub(crate) fn new(alloc: Global) -> Seen<'a>
        ensures { HasSeen result [] }
    {
        Seen {
            getters: BTreeSet::new(alloc),
            setters: BTreeSet::new(alloc),
            others: BTreeSet::new(alloc),
            entries: Vec::new(alloc),
        }
    }

    /// How many they are.
    pub(crate) fn len(&self) -> usize
        ensures { (names : List (List ℕ)) → HasSeen self.now names → result ≡ length names }
    {
        self.entries.len()
    }

    /// Sees a name, and answers whether it is new.
    pub(crate) fn add(&mut self, name: &'a str) -> Result<bool, NoMemory>
        ensures { IfOk result (λ is_new. Sees self.old self.new (name.now ∷ []) is_new) }
    {
        if let Some(attribute) = name.strip_prefix(GET) {
            return self.add_getter(attribute);
        }
        if let Some(attribute) = name.strip_prefix(SET) {
            return self.add_setter(attribute);
        }
        if !self.others.insert(name)? {
            return Ok(false);
        }
        self.entries.push(Entry::Other(name))?;
        Ok(true)
    }

    /// Sees the name of the function that reads an attribute.
    pub(crate) fn add_getter(&mut self, attribute: &'a str) -> Result<bool, NoMemory>
        ensures { IfOk result (λ is_new. Sees self.old self.new (getter_name attribute.now ∷ []) is_new) }
    {
        if !self.getters.insert(attribute)? {
            return Ok(false);
        }
        self.entries.push(Entry::Getter(attribute))?;
        Ok(true)
    }

    /// Sees the name of the function that writes an attribute.
    pub(crate) fn add_setter(&mut self, attribute: &'a str) -> Result<bool, NoMemory>
        ensures { IfOk result (λ is_new. Sees self.old self.new (setter_name attribute.now ∷ []) is_new) }
    {
        if !self.setters.insert(attribute)? {
            return Ok(false);
        }
        self.entries.push(Entry::Setter(attribute))?;
        Ok(true)
    }

    /// Takes back all but the first names.
    pub(crate) fn take_back(&mut self, count: usize)
        ensures { TakesBack self.old self.new count }
    {
        while self.entries.len() > count {
            self.forget_last();
        }
    }

    fn forget_last(&mut self)
        ensures last { ForgetsLast self.old self.new }
        ensures fewer { length self.new.entries.items ≡ length self.old.entries.items - 1 }
    {
        let Some(entry) = self.entries.pop() else {
            return;
        };
        self.forget(entry);
    }

    fn forget(&mut self, entry: Entry<'a>)
        ensures sets { IsEntry entry.entry → Forgets (entry_name entry.entry) self.old self.new }
        ensures entries { self.new.entries.items ≡ self.old.entries.items }
    {
        match entry {
            Entry::Getter(attribute) => self.forget_getter(attribute),
            Entry::Setter(attribute) => self.forget_setter(attribute),
            Entry::Other(name) => self.forget_other(name),
        }
    }

    fn forget_getter(&mut self, attribute: &'a str)
        ensures sets { Forgets (getter_name attribute.now) self.old self.new }
        ensures entries { self.new.entries.items ≡ self.old.entries.items }
    {
        self.getters.remove(attribute);
    }

    fn forget_setter(&mut self, attribute: &'a str)
        ensures sets { Forgets (setter_name attribute.now) self.old self.new }
        ensures entries { self.new.entries.items ≡ self.old.entries.items }
    {
        self.setters.remove(attribute);
    }

    fn forget_other(&mut self, name: &'a str)
        ensures sets { IsPlain name.now → Forgets name.now self.old self.new }
        ensures entries { self.new.entries.items ≡ self.old.entries.items }
    {
        self.others.remove(name);
    }
}
