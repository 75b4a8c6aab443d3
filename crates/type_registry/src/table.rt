//! The table of an interface: its functions, each at its number.
ghost use Rattle.std.specs.Prelude.{◌≡◌, ◌↔◌, ◌++◌, Err, IfOk, OnOk, false};
ghost use Rattle.uno_model.specs.Functions.{functions_of};
ghost use Rattle.uno_model.specs.Sound.{is_there, is_interface};
ghost use Rattle.uno_entities.specs.Entities.{body_of};
ghost use Rattle.type_registry.specs.Own.{functions_by};
ghost use Rattle.type_registry.specs.Functions.{functions_at};
ghost use Rattle.type_registry.specs.Met.{names_at};

use crate::Function;
use crate::own::push_named;
use crate::walk::interfaces_of;
use std::alloc::Global;
use uno_base::NoMemory;
use uno_types::{Body, Registry};

/// Why there is no table.
#[derive(Clone, Copy, Debug, PartialEq, Eq)]
pub enum TableError {
    NoMemory,
    /// No interface has the name.
    NotInterface,
}

/// The functions of an interface, each at its number: those of its bases that are not optional, in the order of the bases and each
/// interface once, and then its own, attributes before methods (Developer's Guide, multiple-inheritance interfaces). An
/// attribute `A` has the function `get:A`, and `set:A` unless it is read-only, whose parameter has the attribute's name.
pub fn function_table(
    alloc: Global,
    registry: &Registry,
    name: &str,
) -> Result<Vec<Function>, TableError>
    ensures found { IfOk result (λ table. functions_at table.items ≡ functions_of registry.now name.now) }
    ensures refused { (result ≡ Err TableError.NotInterface) ↔ (is_there registry.now is_interface name.now ≡ false) }
{
    if !has_interface(registry, name) {
        return Err(TableError::NotInterface);
    }
    match table_of(alloc, registry, name) {
        Ok(table) => Ok(table),
        Err(_) => Err(TableError::NoMemory),
    }
}

/// Whether the name is that of an interface.
fn has_interface(registry: &Registry, name: &str) -> bool
    ensures { result ≡ is_there registry.now is_interface name.now }
{
    match registry.find(name) {
        Some(entity) => is_interface(&entity.body),
        None => false,
    }
}

fn is_interface(body: &Body) -> bool
    ensures { result ≡ is_interface (body_of body.now) }
{
    matches!(body, Body::Interface { .. })
}

fn table_of(alloc: Global, registry: &Registry, name: &str) -> Result<Vec<Function>, NoMemory>
    ensures { IfOk result (λ table. functions_at table.items ≡ functions_of registry.now name.now) }
{
    let met = interfaces_of(alloc, registry, name)?;
    let mut table = Vec::new(alloc);
    push_all(&mut table, alloc, registry, met.names())?;
    Ok(table)
}

/// The functions of these interfaces, one after the other.
fn push_all(
    table: &mut Vec<Function>,
    alloc: Global,
    registry: &Registry,
    owners: &[&str],
) -> Result<(), NoMemory>
    ensures { OnOk result (functions_at table.new.items ≡ functions_at table.old.items ++ functions_by registry.now (names_at owners.now)) }
{
    for owner in owners {
        push_named(table, alloc, registry, owner)?;
    }
    Ok(())
}
