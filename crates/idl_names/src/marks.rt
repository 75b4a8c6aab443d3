//! Marks at numbers of paths.
ghost use Rattle.std.specs.List.{AllByRecursion, list_any};
ghost use Rattle.std.specs.Prelude.{◌≡◌, ◌<◌, ◌==◌, ◌&&◌, false, get_or, length, not};
ghost use Rattle.idl_meaning_model.specs.Declarations.{is_forward};
ghost use Rattle.idl_meaning_model.specs.NameFaults.{is_interface_declaration};
ghost use Rattle.idl_names.specs.Tables.{Marks, is_among, is_entity_at, is_interface_at};
ghost use Rattle.idl_trees.specs.Trees.{declaration_of};

use crate::declaration::Declared;
use idl_trees::Declaration;

/// Whether a number is marked.
pub(crate) fn is_marked(marks: &[bool], number: u32) -> bool
    ensures { result ≡ get_or marks.now number false }
{
    match marks.get(number as usize) {
        Some(marked) => *marked,
        None => false,
    }
}

/// Marks a number, if it is wanted.
fn mark(marks: &mut Vec<bool>, number: u32, wanted: bool)
    requires { number < length marks.old.items }
    ensures { Marks marks.old.items (λ n. wanted && (number == n)) marks.new.items }
{
    if !wanted {
        return;
    }
    marks[number as usize] = true;
}

/// Marks these numbers.
pub(crate) fn mark_numbers(marks: &mut Vec<bool>, numbers: &[u32])
    requires { AllByRecursion (λ n. n < length marks.old.items) numbers.now }
    ensures { Marks marks.old.items (is_among numbers.now) marks.new.items }
{
    for number in numbers {
        mark(marks, *number, true);
    }
}

/// Marks what these declarations declare.
pub(crate) fn mark_entities(marks: &mut Vec<bool>, all: &[Declared<'_>])
    requires { AllByRecursion (λ d. d.path < length marks.old.items) all.now }
    ensures { Marks marks.old.items (λ n. list_any (is_entity_at n) all.now) marks.new.items }
{
    for declared in all {
        mark(marks, declared.path, is_entity(declared.body));
    }
}

/// Marks what these declarations declare as interfaces.
pub(crate) fn mark_interfaces(marks: &mut Vec<bool>, all: &[Declared<'_>])
    requires { AllByRecursion (λ d. d.path < length marks.old.items) all.now }
    ensures { Marks marks.old.items (λ n. list_any (is_interface_at n) all.now) marks.new.items }
{
    for declared in all {
        mark(marks, declared.path, is_interface(declared.body));
    }
}

/// An interface that is declared elsewhere is none by itself.
pub(crate) fn is_entity(body: &Declaration) -> bool
    ensures { result ≡ not (is_forward (declaration_of body.now)) }
{
    !matches!(body, Declaration::Forward)
}

pub(crate) fn is_interface(body: &Declaration) -> bool
    ensures { result ≡ is_interface_declaration (declaration_of body.now) }
{
    matches!(body, Declaration::Interface(_, _))
}
