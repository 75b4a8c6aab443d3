//! The numbers of constants and items.
ghost use Rattle.std.specs.Prelude.{◌≡◌, ◌+◌, ◌≤◌, IfOk, Some, drop, length, map, slice_get, take};
ghost use Rattle.idl_meaning_model.specs.ConstantsMeant.{value_meant};
ghost use Rattle.idl_meaning_model.specs.Declarations.{all_valued, valued_in};
ghost use Rattle.idl_meant.specs.Numbering.{NumbersMeant};
ghost use Rattle.idl_meant.specs.Resolving.{AreTold, all_in};
ghost use Rattle.idl_model.specs.Places as plain;
ghost use Rattle.idl_names.specs.Collected.{declared_of};
ghost use Rattle.idl_names.specs.declared.resolving.Resolved as files;
ghost use Rattle.idl_trees.specs.Trees.{declaration_of};
ghost use Rattle.idl_values.specs.Told.{number_at, number_told};

use crate::starts::{starts, value_count};
use circle_search::Graph;
use idl_names::{Declared, Resolved};
use idl_values::{Told, declared_origins, first_places, value_graph, values};
use std::alloc::Global;
use uno_base::NoMemory;

/// To which constants and items each leads, what its value is, and where those of each declaration begin.
#[derive(Drop)]
pub(crate) struct Numbers {
    pub graph: Graph,
    pub starts: Vec<usize>,
    pub values: Vec<Option<i128>>,
}

pub(crate) fn numbers_meant(
    alloc: Global,
    resolved: &Resolved<'_>,
    told: &Told,
) -> Result<Numbers, NoMemory>
    requires resolved { AreTold resolved.now }
    requires told { (p : plain.Place) → number_at told.now.numbers p ≡ number_told resolved.now.names.items p }
    ensures { IfOk result (NumbersMeant resolved.now) }
{
    let all = resolved.declared.as_slice();
    let count = resolved.paths.len();
    let table = first_places(alloc, count, resolved.opened.values.as_slice())?;
    let origins = declared_origins(alloc, all)?;
    let graph = value_graph(alloc, told, table.as_slice(), origins.as_slice())?;
    let values = values(alloc, told, table.as_slice(), origins.as_slice(), &graph)?;
    let starts = starts(alloc, all)?;
    Ok(Numbers {
        graph,
        starts,
        values,
    })
}

impl Numbers {
    /// The values of the constants or items of the declaration of this number.
    pub(crate) fn values_in(&self, declared: &Declared<'_>, number: usize) -> &[Option<i128>]
        ensures { (r : files.Resolved) → NumbersMeant r self.now → slice_get r.declared.items number ≡ Some declared.now
            → result.now ≡ map (value_meant (all_valued (all_in r))) (valued_in (declared_of r.paths declared.now) (declaration_of declared.now.body.now)) }
    {
        let Some(start) = start_at(self.starts.as_slice(), number) else {
            return &[];
        };
        part(self.values.as_slice(), start, value_count(declared.body))
    }
}

fn start_at(starts: &[usize], number: usize) -> Option<usize>
    ensures { result ≡ slice_get starts.now number }
{
    match starts.get(number) {
        Some(start) => Some(*start),
        None => None,
    }
}

/// So many values from a place on, if they are there.
fn part(values: &[Option<i128>], start: usize, count: usize) -> &[Option<i128>]
    ensures { start + count ≤ length values.now → result.now ≡ take count (drop start values.now) }
{
    if start > values.len() {
        return &[];
    }
    let (_, rest) = values.split_at(start);
    if count > rest.len() {
        return &[];
    }
    let (part, _) = rest.split_at(count);
    part
}
