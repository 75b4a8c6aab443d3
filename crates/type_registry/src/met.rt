//! The names that a walk has met.
ghost use Rattle.std.specs.Prelude.{◌≡◌, [], ◌∷◌, ◌++◌, OnOk};
ghost use Rattle.uno_model.specs.Functions.{is_met};
ghost use Rattle.type_registry.specs.Met.{names_at};

use std::alloc::Global;
use std::collections::BTreeSet;
use std::marker::Model;
use uno_base::NoMemory;

/// Names in the order in which they were met.
#[derive(Drop)]
pub struct Met<'a> {
    order: Vec<&'a str>,
    set: BTreeSet<&'a str>,
}

impl<'a> Model for Met<'a> {
    ghost use Rattle.std.specs.Prelude.{ℕ, List};
    ghost use Rattle.type_registry.specs.Met.{names_at, Has};

    ghost Value = { List (List ℕ) };

    ghost view = { λ m. names_at m.order.items };

    ghost invariant = { λ m. Has m.set (names_at m.order.items) };
}

impl<'a> Met<'a> {
    /// None yet.
    pub(crate) fn new(alloc: Global) -> Met<'a>
        ensures { result ≡ [] }
    {
        Met {
            order: Vec::new(alloc),
            set: BTreeSet::new(alloc),
        }
    }

    /// Whether the name was met.
    pub(crate) fn has(&self, name: &str) -> bool
        ensures { result ≡ is_met name.now self.now }
    {
        self.set.contains(name)
    }

    /// The name is met now.
    pub(crate) fn add(&mut self, name: &'a str) -> Result<(), NoMemory>
        ensures { OnOk result (self.new ≡ self.old ++ name.now ∷ []) }
    {
        self.order.push(name)?;
        match self.set.insert(name) {
            Ok(_) => Ok(()),
            Err(_) => {
                self.order.pop();
                Err(NoMemory)
            }
        }
    }

    /// All of them, in order.
    pub fn names(&self) -> &[&'a str]
        ensures { names_at result.now ≡ self.now }
    {
        self.order.as_slice()
    }
}
