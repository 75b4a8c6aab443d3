//! All members of a struct or an exception at once.
ghost use Rattle.std.specs.Prelude.{◌≡◌, ◌++◌, ◌^◌, ◌≤◌, map, IfOk, OnOk};
ghost use Rattle.uno_model.specs.Registry.{all_members, members_within};
ghost use Rattle.uno_entities.specs.Entities.{field_of};
ghost use Rattle.uno_types.specs.Members.{fields_at, stacked};

use crate::{Field, Level, Registry};
use std::alloc::Global;
use uno_base::NoMemory;

impl Registry {
    /// All members of a struct or an exception, those of its bases first; a name that is neither has none.
    pub fn members(&self, alloc: Global, name: &str) -> Result<Vec<&Field>, NoMemory>
        ensures { IfOk result (λ fields. fields_at fields.items ≡ all_members self.now name.now) }
    {
        let levels = self.entities().len() as u128 + 1;
        let mut stack = stack_within(self, alloc, name, levels)?;
        let mut all = Vec::new(alloc);
        while let Some(own) = stack.pop() {
            push_all(&mut all, own)?;
        }
        Ok(all)
    }
}

/// The members of each level of bases, the name's own first.
fn stack_within<'a>(
    registry: &'a Registry,
    alloc: Global,
    name: &str,
    levels: u128,
) -> Result<Vec<&'a [Field]>, NoMemory>
    ensures { IfOk result (λ stack. stacked stack.items ≡ members_within levels registry.now name.now) }
{
    let mut at = name;
    let mut left = levels;
    let mut stack = Vec::new(alloc);
    while left > 0 {
        let Level { own, base } = registry.level(at);
        stack.push(own)?;
        let Some(base) = base else { return Ok(stack) };
        at = base;
        left -= 1;
    }
    Ok(stack)
}

fn push_all<'a>(all: &mut Vec<&'a Field>, own: &'a [Field]) -> Result<(), NoMemory>
    ensures { OnOk result (fields_at all.new.items ≡ fields_at all.old.items ++ map field_of own.now) }
{
    for field in own {
        all.push(field)?;
    }
    Ok(())
}
