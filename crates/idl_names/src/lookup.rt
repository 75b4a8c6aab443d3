//! What a path names: it is looked for in the innermost module and outwards, and the first module counts in which the whole path names
//! what is wanted.
ghost use Rattle.std.specs.Prelude.{◌≡◌, ◌<◌, ℕ, [], List, length, None, slice_get, Some, if◌then◌else◌};
ghost use Rattle.idl_meaning_model.specs.Declarations.{group_in, scope_of};
ghost use Rattle.idl_meaning_model.specs.Scopes.{own_constant, value_names};
ghost use Rattle.idl_names.specs.Collected.{HasNumbers, declared_of};
ghost use Rattle.idl_names.specs.Standing.{NamesIn, NamesOf, NamesOutwards, NamesThere};
ghost use Rattle.idl_trees.specs.Names.{path_of};
ghost use Rattle.idl_trees.specs.Trees.{declaration_of};

use crate::declaration::Declared;
use crate::marks::is_marked;
use crate::paths::{OUTERMOST, Paths};
use idl_trees::{Declaration, Path};
use uno_entities::Name;

/// What a path names in an expression of a declaration, by the number of its path: one identifier is a constant of the own group.
pub(crate) fn value_named<'a>(
    paths: &Paths<'a>,
    marks: &[bool],
    declared: &Declared<'a>,
    path: &'a Path,
) -> Option<u32>
    requires numbers { HasNumbers paths.now declared.now }
    requires outermost { slice_get paths.now 0 ≡ Some [] }
    ensures { NamesOf paths.now marks.now (declared_of paths.now declared.now) (path_of path.now) (value_names (scope_of (declared_of paths.now declared.now)) (path_of path.now)) result }
{
    let parts = path.parts.as_slice();
    if parts.len() == 1 {
        return own_value(paths, marks, declared, path);
    }
    named(paths, marks, declared.modules, path)
}

/// What one identifier names in an expression of a declaration.
fn own_value<'a>(
    paths: &Paths<'a>,
    marks: &[bool],
    declared: &Declared<'a>,
    path: &'a Path,
) -> Option<u32>
    requires numbers { HasNumbers paths.now declared.now }
    requires one { length path.now.parts.items ≡ 1 }
    ensures { NamesOf paths.now marks.now (declared_of paths.now declared.now) (path_of path.now) (own_constant (scope_of (declared_of paths.now declared.now)).group (path_of path.now)) result }
{
    if path.absolute {
        return None;
    }
    if !is_group(declared.body) {
        return None;
    }
    marked_behind(paths, marks, declared.path, path.parts.as_slice())
}

fn is_group(body: &Declaration) -> bool
    ensures { (name : List ℕ) → group_in name (declaration_of body.now) ≡ (if result then Some name else None) }
{
    matches!(body, Declaration::Constants(_))
}

/// What a path names in modules, by the number of its path.
pub(crate) fn named<'a>(
    paths: &Paths<'a>,
    marks: &[bool],
    modules: u32,
    path: &'a Path,
) -> Option<u32>
    requires low { modules < length paths.now }
    requires outermost { slice_get paths.now 0 ≡ Some [] }
    ensures { NamesIn paths.now marks.now modules (path_of path.now) result }
{
    if path.absolute {
        return marked_behind(paths, marks, OUTERMOST, path.parts.as_slice());
    }
    named_outwards(paths, marks, modules, path.parts.as_slice())
}

/// What these identifiers name in these modules, or in those round them.
fn named_outwards<'a>(
    paths: &Paths<'a>,
    marks: &[bool],
    modules: u32,
    parts: &'a [Name],
) -> Option<u32>
    requires low { modules < length paths.now }
    requires outermost { slice_get paths.now 0 ≡ Some [] }
    ensures { NamesOutwards paths.now marks.now modules parts.now result }
{
    let mut scope = modules;
    while let Some((outer, _)) = paths.last(scope) {
        let found = marked_behind(paths, marks, scope, parts);
        if found.is_some() {
            return found;
        }
        scope = outer;
    }
    marked_behind(paths, marks, scope, parts)
}

/// What these identifiers name in just these modules.
fn marked_behind<'a>(
    paths: &Paths<'a>,
    marks: &[bool],
    modules: u32,
    parts: &'a [Name],
) -> Option<u32>
    requires { modules < length paths.now }
    ensures { NamesThere paths.now marks.now modules parts.now result }
{
    let Some(number) = paths.behind(modules, parts) else {
        return None;
    };
    if !is_marked(marks, number) {
        return None;
    }
    Some(number)
}
