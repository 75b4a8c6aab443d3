//! Paths of constants and items, and of the entities that are built in, are opened behind those of what is declared.
ghost use Rattle.std.specs.List.{AllByRecursion};
ghost use Rattle.std.specs.Prelude.{◌≡◌, ◌<◌, ◌∷◌, [], IfOk, OnOk, get_or, length, map, slice_get, Some};
ghost use Rattle.idl_names.specs.Collected.{HasNumbers, Keep, declared_of};
ghost use Rattle.idl_names.specs.Opened.{HasOpened, Numbers, behind_all, built_in_exceptions, built_in_interfaces, value_ids, value_paths};
ghost use Rattle.idl_names.specs.Paths.{within};
ghost use Rattle.idl_trees.specs.Members as plain;
ghost use Rattle.idl_trees.specs.Trees.{declaration_of};

use crate::declaration::Declared;
use crate::paths::{OUTERMOST, Paths};
use idl_trees::{Constant, Declaration, Item};
use std::alloc::Global;
use uno_base::NoMemory;

/// The numbers of paths that are opened beside those of what is declared: the interfaces and the exceptions that are in every registry,
/// and constants and items.
#[derive(Drop)]
pub struct Opened {
    pub interfaces: Vec<u32>,
    pub exceptions: Vec<u32>,
    pub values: Vec<u32>,
}

/// Opens them behind the paths of these declarations.
pub(crate) fn open_others<'a>(
    alloc: Global,
    paths: &mut Paths<'a>,
    all: &[Declared<'a>],
) -> Result<Opened, NoMemory>
    requires outermost { slice_get paths.old 0 ≡ Some [] }
    requires numbers { AllByRecursion (HasNumbers paths.old) all.now }
    ensures kept { IfOk result (λ opened. Keep paths.old paths.new) }
    ensures opened { IfOk result (HasOpened paths.new (map (declared_of paths.old) all.now)) }
{
    let mut opened = Opened {
        interfaces: Vec::new(alloc),
        exceptions: Vec::new(alloc),
        values: Vec::new(alloc),
    };
    open_interfaces(paths, &mut opened.interfaces)?;
    open_exceptions(paths, &mut opened.exceptions)?;
    open_values(paths, &mut opened.values, all)?;
    Ok(opened)
}

/// Opens the paths of the interfaces that are in every registry.
fn open_interfaces(paths: &mut Paths<'_>, numbers: &mut Vec<u32>) -> Result<(), NoMemory>
    requires { slice_get paths.old 0 ≡ Some [] }
    ensures { OnOk result (Numbers paths.old numbers.old.items built_in_interfaces paths.new numbers.new.items) }
{
    let factory = ["com", "sun", "star", "lang", "XMultiServiceFactory"];
    open_all(paths, numbers, &factory)?;
    let x_interface = ["com", "sun", "star", "uno", "XInterface"];
    open_all(paths, numbers, &x_interface)
}

/// Opens those of the exceptions.
fn open_exceptions(paths: &mut Paths<'_>, numbers: &mut Vec<u32>) -> Result<(), NoMemory>
    requires { slice_get paths.old 0 ≡ Some [] }
    ensures { OnOk result (Numbers paths.old numbers.old.items built_in_exceptions paths.new numbers.new.items) }
{
    let disposed = ["com", "sun", "star", "lang", "DisposedException"];
    open_all(paths, numbers, &disposed)?;
    let exception = ["com", "sun", "star", "uno", "Exception"];
    open_all(paths, numbers, &exception)?;
    let runtime = ["com", "sun", "star", "uno", "RuntimeException"];
    open_all(paths, numbers, &runtime)
}

/// Opens the path of these identifiers.
fn open_all<'a>(
    paths: &mut Paths<'a>,
    numbers: &mut Vec<u32>,
    names: &[&'a str],
) -> Result<(), NoMemory>
    requires { slice_get paths.old 0 ≡ Some [] }
    ensures { OnOk result (Numbers paths.old numbers.old.items (map (λ name. name.now) names.now ∷ []) paths.new numbers.new.items) }
{
    let mut number = OUTERMOST;
    for name in names {
        number = paths.open(number, *name)?;
    }
    numbers.push(number)?;
    Ok(())
}

/// Opens the paths of the constants and items of these declarations.
fn open_values<'a>(
    paths: &mut Paths<'a>,
    numbers: &mut Vec<u32>,
    all: &[Declared<'a>],
) -> Result<(), NoMemory>
    requires { AllByRecursion (HasNumbers paths.old) all.now }
    ensures { OnOk result (Numbers paths.old numbers.old.items (value_paths (map (declared_of paths.old) all.now)) paths.new numbers.new.items) }
{
    for declared in all {
        open_values_of(paths, numbers, declared)?;
    }
    Ok(())
}

fn open_values_of<'a>(
    paths: &mut Paths<'a>,
    numbers: &mut Vec<u32>,
    declared: &Declared<'a>,
) -> Result<(), NoMemory>
    requires { HasNumbers paths.old declared.now }
    ensures { OnOk result (Numbers paths.old numbers.old.items (behind_all (get_or paths.old declared.now.path []) (value_ids (declaration_of declared.now.body.now))) paths.new numbers.new.items) }
{
    match declared.body {
        Declaration::Constants(constants) => {
            open_constants(paths, numbers, declared.path, constants.as_slice())
        }
        Declaration::Enum(items) => open_items(paths, numbers, declared.path, items.as_slice()),
        Declaration::Forward => Ok(()),
        Declaration::Interface(_, _) => Ok(()),
        Declaration::Struct(_, _) => Ok(()),
        Declaration::Exception(_, _) => Ok(()),
        Declaration::Typedef(_) => Ok(()),
        Declaration::NewService(_, _) => Ok(()),
        Declaration::OldService(_) => Ok(()),
        Declaration::NewSingleton(_) => Ok(()),
        Declaration::OldSingleton(_) => Ok(()),
    }
}

fn open_constants<'a>(
    paths: &mut Paths<'a>,
    numbers: &mut Vec<u32>,
    group: u32,
    constants: &'a [Constant],
) -> Result<(), NoMemory>
    requires { group < length paths.old }
    ensures { OnOk result (Numbers paths.old numbers.old.items (behind_all (get_or paths.old group []) (map (λ c. c.name) (map plain.constant_of constants.now))) paths.new numbers.new.items) }
{
    for constant in constants {
        open_value(paths, numbers, group, constant.name.name.as_str())?;
    }
    Ok(())
}

fn open_items<'a>(
    paths: &mut Paths<'a>,
    numbers: &mut Vec<u32>,
    owner: u32,
    items: &'a [Item],
) -> Result<(), NoMemory>
    requires { owner < length paths.old }
    ensures { OnOk result (Numbers paths.old numbers.old.items (behind_all (get_or paths.old owner []) (map (λ i. i.name) (map plain.item_of items.now))) paths.new numbers.new.items) }
{
    for item in items {
        open_value(paths, numbers, owner, item.name.name.as_str())?;
    }
    Ok(())
}

fn open_value<'a>(
    paths: &mut Paths<'a>,
    numbers: &mut Vec<u32>,
    owner: u32,
    name: &'a str,
) -> Result<(), NoMemory>
    requires { owner < length paths.old }
    ensures { OnOk result (Numbers paths.old numbers.old.items (within paths.old (owner, name.now) ∷ []) paths.new numbers.new.items) }
{
    let number = paths.open(owner, name)?;
    numbers.push(number)?;
    Ok(())
}
