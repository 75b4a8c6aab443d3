//! Where the constants and items of each declaration begin among those of all.
ghost use Rattle.std.specs.Prelude.{◌≡◌, IfOk, length};
ghost use Rattle.idl_meant.specs.Starting.{starts_of, value_count};
ghost use Rattle.idl_trees.specs.Trees.{declaration_of};
ghost use Rattle.idl_types.specs.Bodies.{bodies_of};

use idl_names::Declared;
use idl_trees::Declaration;
use std::alloc::Global;
use uno_base::NoMemory;

/// For each declaration how many constants and items stand before its own.
pub(crate) fn starts(alloc: Global, all: &[Declared<'_>]) -> Result<Vec<usize>, NoMemory>
    ensures { IfOk result (λ starts. starts.items ≡ starts_of (bodies_of all.now) (length all.now)) }
{
    let mut starts = Vec::new(alloc);
    let mut next = 0;
    for declared in all {
        starts.push(next)?;
        let Some(behind) = value_count(declared.body).checked_add(next) else {
            return Err(NoMemory);
        };
        next = behind;
    }
    Ok(starts)
}

/// How many constants or items a declaration has.
pub(crate) fn value_count(body: &Declaration) -> usize
    ensures { result ≡ value_count (declaration_of body.now) }
{
    match body {
        Declaration::Constants(constants) => constants.len(),
        Declaration::Enum(items) => items.len(),
        Declaration::Forward => 0,
        Declaration::Interface(_, _) => 0,
        Declaration::Struct(_, _) => 0,
        Declaration::Exception(_, _) => 0,
        Declaration::Typedef(_) => 0,
        Declaration::NewService(_, _) => 0,
        Declaration::OldService(_) => 0,
        Declaration::NewSingleton(_) => 0,
        Declaration::OldSingleton(_) => 0,
    }
}
