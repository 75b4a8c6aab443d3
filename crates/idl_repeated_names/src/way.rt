//! The way from an entity to what stands on it alone, and on, with the names that were met.
ghost use Rattle.std.specs.Prelude.{◌≡◌, [], ℕ, IfOk, List, OnOk, true};
ghost use Rattle.idl_repeated_names.specs.Twins.{Named};
ghost use Rattle.idl_repeated_names.specs.Walking.{IsOnWay, LeadsOver, Stands};

use crate::least::Least;
use crate::twins::Twins;
use idl_trees::Place;
use std::alloc::Global;
use uno_base::NoMemory;

/// An entity, how many names were met when those over it were, and what was found of them.
#[derive(Clone, Copy)]
pub(crate) struct Step<'a> {
    name: &'a str,
    names: usize,
    found: Least,
}

#[derive(Drop)]
pub(crate) struct Way<'a> {
    steps: Vec<Step<'a>>,
    pub twins: Twins<'a>,
}

impl<'a> Way<'a> {
    /// It begins nowhere. The place is that of no declaration.
    pub(crate) fn new(alloc: Global, place: Place) -> Way<'a>
        ensures { (over : List ℕ → List Named) → IsOnWay over result [] }
    {
        Way {
            steps: Vec::new(alloc),
            twins: Twins::new(alloc, place, None),
        }
    }

    /// Begins anew.
    pub(crate) fn begin(&mut self)
        ensures { (over : List ℕ → List Named) → IsOnWay over self.new [] }
    {
        self.steps.clear();
        self.twins.forget();
    }

    /// Goes back to an entity, and answers whether it is on the way.
    pub(crate) fn back_to(&mut self, name: &str) -> Result<bool, NoMemory>
        ensures { IfOk result (λ there. there ≡ true → (over : List ℕ → List Named) → LeadsOver over self.old self.new name.now) }
    {
        while let Some(step) = self.steps.pop() {
            if step.name == name {
                self.stand(step)?;
                return Ok(true);
            }
        }
        Ok(false)
    }

    /// Stands at a step, which was taken off.
    fn stand(&mut self, step: Step<'a>) -> Result<(), NoMemory>
        ensures { OnOk result (Stands self.old self.new step.entry) }
    {
        self.twins.take_back(step.names)?;
        self.twins.found = step.found;
        self.steps.push(step)?;
        Ok(())
    }

    /// Goes on to an entity, over which these names are.
    pub(crate) fn go_on(&mut self, name: &'a str) -> Result<(), NoMemory>
        ensures { OnOk result ((over : List ℕ → List Named) → IsOnWay over self.old (over name.now) → IsOnWay over self.new (over name.now)) }
    {
        let names = self.twins.len();
        let found = self.twins.found;
        self.steps.push(Step { name, names, found })?;
        Ok(())
    }
}
