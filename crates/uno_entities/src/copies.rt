//! Copies of lists of names and of parameters.
ghost use Rattle.std.specs.Prelude.{◌≡◌, map, IfOk};
ghost use Rattle.uno_entities.specs.Entities.{param_of};

use crate::{Name, Param};
use std::alloc::Global;
use uno_base::NoMemory;

/// Equal names, in their order.
pub fn copy_names(alloc: Global, names: &[Name]) -> Result<Vec<Name>, NoMemory>
    ensures { IfOk result (λ copies. copies.items ≡ names.now) }
{
    let mut copies = Vec::new(alloc);
    for name in names {
        copies.push(name.copy()?)?;
    }
    Ok(copies)
}

/// Equal parameters, in their order.
pub fn copy_params(alloc: Global, params: &[Param]) -> Result<Vec<Param>, NoMemory>
    ensures { IfOk result (λ copies. map param_of copies.items ≡ map param_of params.now) }
{
    let mut copies = Vec::new(alloc);
    for param in params {
        copies.push(copy_param(alloc, param)?)?;
    }
    Ok(copies)
}

fn copy_param(alloc: Global, param: &Param) -> Result<Param, NoMemory>
    ensures { IfOk result (λ copy. param_of copy ≡ param_of param.now) }
{
    let name = param.name.copy()?;
    let kind = param.kind.copy(alloc)?;
    Ok(Param {
        way: param.way,
        name,
        kind,
    })
}
