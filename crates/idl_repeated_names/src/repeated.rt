//! Where names repeat: of members, parameters, constructors and items, those that come from bases among them, and in an interface of all functions.
ghost use Rattle.std.specs.List.{AllByRecursion, flat_map, list_all};
ghost use Rattle.std.specs.Prelude.{◌≡◌, ◌++◌, IfOk, IfSome, IsTrue, List, None, OnOk, map};
ghost use Rattle.idl_joint_places.specs.Circles.{FindsLeast};
ghost use Rattle.idl_meaning_model.specs.Declarations.{entities_declared};
ghost use Rattle.idl_meaning_model.specs.FromFiles.{has_identifiers};
ghost use Rattle.idl_names.specs.Collected.{HasNumbers, declared_of};
ghost use Rattle.idl_names.specs.Paths.{Parts};
ghost use Rattle.idl_repeated_names.specs.Meeting.{Asks, own_lists};
ghost use Rattle.idl_repeated_names.specs.Over.{FindsMore, IsNamed, Knows, lists_over, names_over, owned, told};
ghost use Rattle.idl_repeated_names.specs.Walking.{AllAsked, IsFoundOver};
ghost use Rattle.idl_rules_model.specs.NamesDiffer.{repeated_names};
ghost use Rattle.idl_trees.specs.Names.{place_of};
ghost use Rattle.idl_trees.specs.Trees.{declaration_of};
ghost use Rattle.uno_model.specs.BuiltIn.{built_in};

use crate::least::Least;
use crate::lists::ask_own;
use crate::over::{Around, Kind, ask_over};
use crate::owners::{Entry, named, owners_of};
use crate::twins::Twins;
use crate::walk::{Asked, walks};
use idl_names::{Declared, Paths};
use idl_trees::{Declaration, Place};
use std::alloc::Global;
use uno_base::NoMemory;
use uno_types::Registry;

/// The least place of a second name.
pub fn repeated_names(
    alloc: Global,
    paths: &Paths<'_>,
    all: &[Declared<'_>],
    registry: &Registry,
) -> Result<Option<Place>, NoMemory>
    requires numbers { AllByRecursion (HasNumbers paths.now) all.now }
    requires identifiers { IsTrue (list_all has_identifiers (map (declared_of paths.now) all.now)) }
    ensures { IfOk result (FindsLeast (flat_map (repeated_names (map (declared_of paths.now) all.now) registry.now) (entities_declared (map (declared_of paths.now) all.now)))) }
{
    let entries = named(alloc, paths, all)?;
    let built = Registry::new(alloc)?;
    repeated_among(alloc, entries.as_slice(), &built, registry)
}

fn repeated_among<'a>(
    alloc: Global,
    entries: &'a [Entry<'a>],
    built: &'a Registry,
    registry: &'a Registry,
) -> Result<Option<Place>, NoMemory>
    ensures { (paths : List Parts) → AllByRecursion (IsNamed paths) entries.now → IsTrue (list_all has_identifiers (map (told paths) entries.now)) → built.now ≡ built_in → IfOk result (FindsLeast (flat_map (repeated_names (map (told paths) entries.now) registry.now) (map (told paths) entries.now))) }
{
    let owners = owners_of(alloc, entries)?;
    let around = Around {
        registry,
        built_in: built,
        owners: &owners,
    };
    least_of(around, entries)
}

/// The least one over all bases, and then that of all lists.
fn least_of<'a>(around: Around<'_, 'a>, entries: &'a [Entry<'a>]) -> Result<Option<Place>, NoMemory>
    ensures { (paths : List Parts) → Knows paths entries.now around.entry.owners.now around.entry.built_in.now → IfOk result (FindsLeast (flat_map (repeated_names (map (told paths) entries.now) around.entry.registry.now) (map (told paths) entries.now))) }
{
    let asked = walks(around)?;
    least_left(around, &asked, entries)
}

fn least_left<'a>(
    around: Around<'_, 'a>,
    asked: &Asked<'a>,
    entries: &'a [Entry<'a>],
) -> Result<Option<Place>, NoMemory>
    ensures { (paths : List Parts) → Knows paths entries.now around.entry.owners.now around.entry.built_in.now → AllAsked (names_over Kind.Functions (owned around.entry.owners.now) around.entry.built_in.now around.entry.registry.now) (names_over Kind.Fields (owned around.entry.owners.now) around.entry.built_in.now around.entry.registry.now) asked.now → IfOk result (FindsLeast (flat_map (repeated_names (map (told paths) entries.now) around.entry.registry.now) (map (told paths) entries.now))) }
{
    let mut least = None;
    for entry in entries {
        least = least_with(around, asked, entry, least)?;
    }
    Ok(least)
}

/// The least one, with the second names of one more declaration.
fn least_with<'a>(
    around: Around<'_, 'a>,
    asked: &Asked<'a>,
    entry: &'a Entry<'a>,
    least: Option<Place>,
) -> Result<Option<Place>, NoMemory>
    ensures { IfOk result (λ more. AllAsked (names_over Kind.Functions (owned around.entry.owners.now) around.entry.built_in.now around.entry.registry.now) (names_over Kind.Fields (owned around.entry.owners.now) around.entry.built_in.now around.entry.registry.now) asked.now → FindsMore least more (own_lists (declaration_of entry.now.declared.body.now) ++ (lists_over (owned around.entry.owners.now) around.entry.built_in.now around.entry.registry.now entry.now.name (declaration_of entry.now.declared.body.now))) (place_of entry.now.declared.name.now.place)) }
{
    let body = entry.declared.body;
    let name = entry.name.as_str();
    let mut twins = Twins::new(
        around.registry.allocator(),
        entry.declared.name.place,
        least,
    );
    ask_own(&mut twins, body)?;
    count_over(&mut twins, around, asked, name, body)?;
    Ok(twins.least)
}

/// Counts what was found of the names that a declaration has with its bases, and asks where nothing was.
fn count_over<'a>(
    twins: &mut Twins<'a>,
    around: Around<'_, 'a>,
    asked: &Asked<'a>,
    name: &'a str,
    body: &Declaration,
) -> Result<(), NoMemory>
    ensures { OnOk result (AllAsked (names_over Kind.Functions (owned around.entry.owners.now) around.entry.built_in.now around.entry.registry.now) (names_over Kind.Fields (owned around.entry.owners.now) around.entry.built_in.now around.entry.registry.now) asked.now → Asks twins.old twins.new (lists_over (owned around.entry.owners.now) around.entry.built_in.now around.entry.registry.now name.now (declaration_of body.now))) }
{
    if let Some(found) = found_over(asked, name, body) {
        twins.count(found);
        return Ok(());
    }
    ask_over(twins, around, name, body)?;
    Ok(())
}

/// What the walks found of the names that a declaration has with its bases.
fn found_over(asked: &Asked<'_>, name: &str, body: &Declaration) -> Option<Least>
    ensures { IfSome result (IsFoundOver asked.now name.now (declaration_of body.now)) }
{
    match body {
        Declaration::Interface(_, _) => asked.functions.found.get(name).copied(),
        Declaration::Struct(_, _) => asked.fields.found.get(name).copied(),
        Declaration::Exception(_, _) => asked.fields.found.get(name).copied(),
        Declaration::Forward => None,
        Declaration::Enum(_) => None,
        Declaration::Constants(_) => None,
        Declaration::Typedef(_) => None,
        Declaration::NewService(_, _) => None,
        Declaration::OldService(_) => None,
        Declaration::NewSingleton(_) => None,
        Declaration::OldSingleton(_) => None,
    }
}
