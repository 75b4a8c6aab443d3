//! The names that declarations use, and the ends of their typedefs.
ghost use Rattle.std.specs.Prelude.{◌≡◌, Contains, IfOk, None, get_or};
ghost use Rattle.idl_meaning_model.specs.Uses.{type_paths};
ghost use Rattle.idl_meant.specs.Naming.{HasPathShape, HasShape, IsAnswer, NamesMeant, Stands};
ghost use Rattle.idl_meant.specs.Resolving.{AreTold};
ghost use Rattle.idl_meant.specs.Using.{IsUsed};
ghost use Rattle.idl_model.specs.Trees as tree;
ghost use Rattle.idl_names.specs.declared.resolving.Resolved as files;
ghost use Rattle.idl_trees.specs.Names.{path_of};
ghost use Rattle.idl_trees.specs.Types.{type_of};

use crate::owners::owners;
use crate::shapes::{Leaf, Shape, sequence_of};
use crate::uses::{Uses, uses_of};
use idl_names::Resolved;
use idl_trees::{Path, WrittenType};
use idl_types::typedef_ends;
use idl_values::{Told, places_told};
use std::alloc::Global;
use typedef_chains::End;
use uno_base::NoMemory;

/// What is told at the places of names, which of these are used where, and of each number of a path the declaration of its entity and the
/// end of its chain of typedefs.
#[derive(Drop)]
pub(crate) struct Names<'a> {
    pub told: Told,
    pub uses: Uses<'a>,
    pub owners: Vec<Option<u32>>,
    pub ends: Vec<Option<End>>,
}

pub(crate) fn names_meant<'a>(alloc: Global, resolved: &Resolved<'a>) -> Result<Names<'a>, NoMemory>
    requires { AreTold resolved.now }
    ensures { IfOk result (NamesMeant resolved.now) }
{
    let count = resolved.paths.len();
    let Ok(end) = u32::try_from(count) else {
        return Err(NoMemory);
    };
    let all = resolved.declared.as_slice();
    let told = places_told(alloc, resolved.names.as_slice())?;
    let owners = owners(alloc, count, all)?;
    let ends = typedef_ends(alloc, &told, owners.as_slice(), all, end)?;
    let uses = uses_of(alloc, all)?;
    Ok(Names {
        told,
        uses,
        owners,
        ends,
    })
}

impl<'a> Names<'a> {
    /// The number of the path for which a path stands in these modules, where a declaration there uses it.
    pub(crate) fn number(&self, modules: u32, path: &Path) -> Option<u32>
        ensures { (r : files.Resolved) → AreTold r → NamesMeant r self.now → IsAnswer (IsUsed r.declared.items modules (path_of path.now)) (Stands r modules (path_of path.now)) result }
    {
        if self.uses.hold(modules, path) {
            return self.told.at(path.place);
        }
        None
    }

    /// The shape of a type that is written in these modules, where a declaration there uses its name.
    pub(crate) fn shape(&self, modules: u32, written: &WrittenType) -> Option<Shape>
        ensures { (r : files.Resolved) → AreTold r → NamesMeant r self.now → IsAnswer ((p : tree.Path) → Contains (type_paths (type_of written.now)) p → IsUsed r.declared.items modules p) (HasShape r self.now.owners.items modules (type_of written.now)) result }
    {
        match written {
            WrittenType::Simple(_, simple) => Some(Shape {
                sequences: 0,
                leaf: Leaf::Simple(*simple),
            }),
            WrittenType::Named(path) => self.named_shape(modules, path),
            WrittenType::SequenceOf(_, inner) => match self.shape(modules, inner) {
                Some(shape) => Some(sequence_of(shape)),
                None => None,
            },
        }
    }

    fn named_shape(&self, modules: u32, path: &Path) -> Option<Shape>
        ensures { (r : files.Resolved) → AreTold r → NamesMeant r self.now → IsAnswer (IsUsed r.declared.items modules (path_of path.now)) (HasPathShape r self.now.owners.items modules (path_of path.now)) result }
    {
        let Some(number) = self.number(modules, path) else {
            return None;
        };
        match self.end(number) {
            Some(end) => Some(Shape {
                sequences: end.sum,
                leaf: Leaf::End(end.last),
            }),
            None => Some(Shape {
                sequences: 0,
                leaf: Leaf::Endless(number),
            }),
        }
    }

    fn end(&self, number: u32) -> Option<End>
        ensures { result ≡ get_or self.now.ends.items number None }
    {
        match self.ends.get(number as usize) {
            Some(end) => *end,
            None => None,
        }
    }
}
