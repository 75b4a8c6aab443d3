//! Declarations by their names.
ghost use Rattle.std.specs.List.{AllByRecursion};
ghost use Rattle.std.specs.Option.{option_map};
ghost use Rattle.std.specs.Prelude.{◌≡◌, IfOk, List, OnOk, map};
ghost use Rattle.idl_meaning_model.specs.Declarations.{is_forward};
ghost use Rattle.idl_names.specs.Collected.{HasNumbers};
ghost use Rattle.idl_names.specs.Paths.{Parts};
ghost use Rattle.idl_repeated_names.specs.Over.{AreNamed, IsNamed, NotesOwner, Owns, owned, told};
ghost use Rattle.idl_trees.specs.Trees.{declaration_of};

use idl_names::{Declared, Paths};
use idl_trees::Declaration;
use std::alloc::Global;
use std::collections::BTreeMap;
use uno_base::NoMemory;
use uno_types::Name;

/// A declaration, with its full name.
#[derive(Drop)]
pub(crate) struct Entry<'a> {
    pub name: Name,
    pub declared: Declared<'a>,
}

/// What entities of names are declared as.
pub(crate) type Owners<'a> = BTreeMap<&'a str, &'a Declaration>;

/// All declarations, each with its full name.
pub(crate) fn named<'a>(
    alloc: Global,
    paths: &Paths<'_>,
    all: &[Declared<'a>],
) -> Result<Vec<Entry<'a>>, NoMemory>
    requires { AllByRecursion (HasNumbers paths.now) all.now }
    ensures { IfOk result (λ entries. AreNamed paths.now all.now entries.items) }
{
    let mut entries = Vec::new(alloc);
    for declared in all {
        let name = paths.full_name(alloc, declared.path)?;
        entries.push(Entry {
            name,
            declared: *declared,
        })?;
    }
    Ok(entries)
}

/// Of each name what the first entity that has it is declared as.
pub(crate) fn owners_of<'a>(alloc: Global, entries: &'a [Entry<'a>]) -> Result<Owners<'a>, NoMemory>
    ensures { IfOk result (λ owners. (paths : List Parts) → AllByRecursion (IsNamed paths) entries.now → Owns owners (map (told paths) entries.now)) }
{
    let mut owners = BTreeMap::new(alloc);
    for entry in entries {
        note_owner(&mut owners, entry.name.as_str(), entry.declared.body)?;
    }
    Ok(owners)
}

fn note_owner<'a>(
    owners: &mut Owners<'a>,
    name: &'a str,
    body: &'a Declaration,
) -> Result<(), NoMemory>
    ensures { OnOk result (NotesOwner owners.old owners.new name.now (declaration_of body.now)) }
{
    if is_forward(body) {
        return Ok(());
    }
    if let Some(_) = declared_as(owners, name) {
        return Ok(());
    }
    owners.insert(name, body)?;
    Ok(())
}

/// What the entity of a name is declared as.
pub(crate) fn declared_as<'a>(owners: &Owners<'a>, name: &str) -> Option<&'a Declaration>
    ensures { option_map (λ body. declaration_of body.now) result ≡ owned owners.now name.now }
{
    owners.get(name).copied()
}

fn is_forward(body: &Declaration) -> bool
    ensures { result ≡ is_forward (declaration_of body.now) }
{
    matches!(body, Declaration::Forward)
}
