//! A table of the first place of each number.
ghost use Rattle.std.specs.Prelude.{◌≡◌, ◌<◌, ◌==◌, ℕ, None, IfOk, get_or, length, replicate};
ghost use Rattle.std.specs.List.{AllByRecursion};
ghost use Rattle.idl_values.specs.Places.{first_place, noted_with};

use std::alloc::Global;
use uno_base::NoMemory;

/// For each number below the count its first place among these.
pub fn first_places(
    alloc: Global,
    count: usize,
    numbers: &[u32],
) -> Result<Vec<Option<u32>>, NoMemory>
    requires { AllByRecursion (λ n. n < count) numbers.now }
    ensures { IfOk result (λ table. (n : ℕ) → get_or table.items n None ≡ first_place (λ m. m == n) numbers.now) }
{
    let mut table = nothing_noted(alloc, count)?;
    for place in 0..numbers.len() {
        let Ok(index) = u32::try_from(place) else {
            return Err(NoMemory);
        };
        note(&mut table, numbers[place], index);
    }
    Ok(table)
}

fn nothing_noted(alloc: Global, count: usize) -> Result<Vec<Option<u32>>, NoMemory>
    ensures { IfOk result (λ table. table.items ≡ replicate count None) }
{
    let table = vec![in alloc; None; count]?;
    Ok(table)
}

/// Notes a place for a number, if none is noted.
fn note(table: &mut Vec<Option<u32>>, number: u32, place: u32)
    requires { number < length table.old.items }
    ensures long { length table.new.items ≡ length table.old.items }
    ensures noted { (n : ℕ) → get_or table.new.items n None ≡ noted_with (number == n) place (get_or table.old.items n None) }
{
    if table[number as usize].is_some() {
        return;
    }
    table[number as usize] = Some(place);
}
