//! Where chains of typedefs end.
ghost use Rattle.std.specs.Prelude.{◌≡◌, ◌<◌, ◌≤◌, ◌^◌, ℕ, IfOk, None, Some, get_or, length};
ghost use Rattle.idl_model.specs.Places as tree;
ghost use Rattle.idl_types.specs.Bodies.{bodies_of, steps_below, told_at};
ghost use Rattle.idl_types.specs.Steps.{most};
ghost use Rattle.idl_values.specs.Told.{number_at};
ghost use Rattle.typedef_chains.specs.Chains.{IsEnd};

use crate::steps::{MOST, step};
use idl_names::Declared;
use idl_values::Told;
use std::alloc::Global;
use typedef_chains::{End, Step, chain_ends};
use uno_base::NoMemory;

/// For each number of a path where its chain of typedefs ends, with the sequences on the way; none where it leads back to itself. The table
/// has for each number the declaration of its entity.
pub fn typedef_ends(
    alloc: Global,
    told: &Told,
    table: &[Option<u32>],
    all: &[Declared<'_>],
    count: u32,
) -> Result<Vec<Option<End>>, NoMemory>
    requires { (p : tree.Place) (n : ℕ) → number_at told.now.numbers p ≡ Some n → n < count }
    ensures count { IfOk result (λ ends. length ends.items ≡ count) }
    ensures each { IfOk result (λ ends. (n : ℕ) → n < count → IsEnd (steps_below (told_at told.now) (bodies_of all.now) table.now count) most n (get_or ends.items n None)) }
{
    let steps = steps(alloc, told, table, all, count)?;
    let ends = chain_ends(alloc, steps.as_slice(), MOST)?;
    Ok(ends)
}

fn steps(
    alloc: Global,
    told: &Told,
    table: &[Option<u32>],
    all: &[Declared<'_>],
    count: u32,
) -> Result<Vec<Step>, NoMemory>
    ensures { IfOk result (λ steps. steps.items ≡ steps_below (told_at told.now) (bodies_of all.now) table.now count) }
{
    let mut steps = Vec::new(alloc);
    for number in 0..count {
        steps.push(step(told, table, all, number))?;
    }
    Ok(steps)
}
