//! The names over an entity: those of its bases first, and of each what is declared, or else built in.
ghost use Rattle.std.specs.List.{flat_map};
ghost use Rattle.std.specs.Prelude.{◌∷◌, [], None, OnOk};
ghost use Rattle.idl_repeated_names.specs.Meeting.{Asks, Meets};
ghost use Rattle.idl_repeated_names.specs.Over.{fields_at, fields_named, fields_over, functions_at, functions_named, functions_over, lists_over, named_at, names_over, owned};
ghost use Rattle.idl_trees.specs.Trees.{declaration_of};
ghost use Rattle.type_registry.specs.Met.{names_at};
ghost use Rattle.uno_model.specs.Registry.{find_entity};

use crate::chain::chain_of;
use crate::own::{meet_members_in, meet_methods_in, meet_own_fields, meet_own_functions};
use crate::owners::{Owners, declared_as};
use crate::twins::Twins;
use idl_trees::Declaration;
use type_registry::interfaces_of;
use uno_base::NoMemory;
use uno_types::Registry;

/// All entities, those that are built in, and what names are declared as.
#[derive(Clone, Copy)]
pub(crate) struct Around<'o, 'a> {
    pub registry: &'a Registry,
    pub built_in: &'a Registry,
    pub owners: &'o Owners<'a>,
}

/// Which names: functions of an interface, or members of a struct or an exception.
#[derive(Clone, Copy)]
pub(crate) enum Kind {
    Functions,
    Fields,
}

/// Asks the names that a declaration has with its bases.
pub(crate) fn ask_over<'a>(
    twins: &mut Twins<'a>,
    around: Around<'_, 'a>,
    name: &'a str,
    body: &Declaration,
) -> Result<(), NoMemory>
    ensures { OnOk result (Asks twins.old twins.new (lists_over (owned around.entry.owners.now) around.entry.built_in.now around.entry.registry.now name.now (declaration_of body.now))) }
{
    match body {
        Declaration::Interface(_, _) => ask_all(twins, around, Kind::Functions, name),
        Declaration::Struct(_, _) => ask_all(twins, around, Kind::Fields, name),
        Declaration::Exception(_, _) => ask_all(twins, around, Kind::Fields, name),
        Declaration::Forward => Ok(()),
        Declaration::Enum(_) => Ok(()),
        Declaration::Constants(_) => Ok(()),
        Declaration::Typedef(_) => Ok(()),
        Declaration::NewService(_, _) => Ok(()),
        Declaration::OldService(_) => Ok(()),
        Declaration::NewSingleton(_) => Ok(()),
        Declaration::OldSingleton(_) => Ok(()),
    }
}

fn ask_all<'a>(
    twins: &mut Twins<'a>,
    around: Around<'_, 'a>,
    kind: Kind,
    name: &'a str,
) -> Result<(), NoMemory>
    ensures { OnOk result (Asks twins.old twins.new (names_over kind (owned around.entry.owners.now) around.entry.built_in.now around.entry.registry.now name.now ∷ [])) }
{
    twins.forget();
    meet_over(twins, around, kind, name)?;
    twins.count_met();
    Ok(())
}

/// Meets the names that an entity has with its bases.
pub(crate) fn meet_over<'a>(
    twins: &mut Twins<'a>,
    around: Around<'_, 'a>,
    kind: Kind,
    name: &'a str,
) -> Result<(), NoMemory>
    ensures { OnOk result (Meets twins.old twins.new (names_over kind (owned around.entry.owners.now) around.entry.built_in.now around.entry.registry.now name.now)) }
{
    match kind {
        Kind::Functions => meet_functions_over(twins, around, name),
        Kind::Fields => meet_fields_over(twins, around, name),
    }
}

/// Meets the names that an entity has without its bases.
pub(crate) fn meet_at<'a>(
    twins: &mut Twins<'a>,
    around: Around<'_, 'a>,
    kind: Kind,
    name: &str,
) -> Result<(), NoMemory>
    ensures { OnOk result (Meets twins.old twins.new (named_at kind (owned around.entry.owners.now) around.entry.built_in.now name.now)) }
{
    match kind {
        Kind::Functions => meet_functions_at(twins, around, name),
        Kind::Fields => meet_fields_at(twins, around, name),
    }
}

// ---- functions

/// The functions of an interface, in the order in which they are numbered.
fn meet_functions_over<'a>(
    twins: &mut Twins<'a>,
    around: Around<'_, 'a>,
    name: &'a str,
) -> Result<(), NoMemory>
    ensures { OnOk result (Meets twins.old twins.new (functions_over (owned around.entry.owners.now) around.entry.built_in.now around.entry.registry.now name.now)) }
{
    let met = interfaces_of(around.registry.allocator(), around.registry, name)?;
    meet_functions_of(twins, around, met.names())?;
    Ok(())
}

fn meet_functions_of<'a>(
    twins: &mut Twins<'a>,
    around: Around<'_, 'a>,
    names: &[&'a str],
) -> Result<(), NoMemory>
    ensures { OnOk result (Meets twins.old twins.new (flat_map (functions_at (owned around.entry.owners.now) around.entry.built_in.now) (names_at names.now))) }
{
    for name in names {
        meet_functions_at(twins, around, *name)?;
    }
    Ok(())
}

fn meet_functions_at<'a>(
    twins: &mut Twins<'a>,
    around: Around<'_, 'a>,
    name: &str,
) -> Result<(), NoMemory>
    ensures { OnOk result (Meets twins.old twins.new (functions_at (owned around.entry.owners.now) around.entry.built_in.now name.now)) }
{
    match declared_as(around.owners, name) {
        Some(body) => meet_own_functions(twins, body),
        None => meet_built_in_functions(twins, around.built_in, name),
    }
}

fn meet_built_in_functions<'a>(
    twins: &mut Twins<'a>,
    built_in: &'a Registry,
    name: &str,
) -> Result<(), NoMemory>
    ensures { OnOk result (Meets twins.old twins.new (functions_named None (find_entity name.now built_in.now))) }
{
    match built_in.find(name) {
        Some(entity) => meet_methods_in(twins, &entity.body),
        None => Ok(()),
    }
}

// ---- members of structs and exceptions

/// The members of a struct or an exception, those of its bases first.
fn meet_fields_over<'a>(
    twins: &mut Twins<'a>,
    around: Around<'_, 'a>,
    name: &'a str,
) -> Result<(), NoMemory>
    ensures { OnOk result (Meets twins.old twins.new (fields_over (owned around.entry.owners.now) around.entry.built_in.now around.entry.registry.now name.now)) }
{
    let chain = chain_of(around.registry.allocator(), around.registry, name)?;
    meet_fields_of(twins, around, chain.as_slice())?;
    Ok(())
}

fn meet_fields_of<'a>(
    twins: &mut Twins<'a>,
    around: Around<'_, 'a>,
    names: &[&'a str],
) -> Result<(), NoMemory>
    ensures { OnOk result (Meets twins.old twins.new (flat_map (fields_at (owned around.entry.owners.now) around.entry.built_in.now) (names_at names.now))) }
{
    for name in names {
        meet_fields_at(twins, around, *name)?;
    }
    Ok(())
}

fn meet_fields_at<'a>(
    twins: &mut Twins<'a>,
    around: Around<'_, 'a>,
    name: &str,
) -> Result<(), NoMemory>
    ensures { OnOk result (Meets twins.old twins.new (fields_at (owned around.entry.owners.now) around.entry.built_in.now name.now)) }
{
    match declared_as(around.owners, name) {
        Some(body) => meet_own_fields(twins, body),
        None => meet_built_in_fields(twins, around.built_in, name),
    }
}

fn meet_built_in_fields<'a>(
    twins: &mut Twins<'a>,
    built_in: &'a Registry,
    name: &str,
) -> Result<(), NoMemory>
    ensures { OnOk result (Meets twins.old twins.new (fields_named None (find_entity name.now built_in.now))) }
{
    match built_in.find(name) {
        Some(entity) => meet_members_in(twins, &entity.body),
        None => Ok(()),
    }
}
