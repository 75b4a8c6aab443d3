//! The variables that are known where a line stands.
ghost use Rattle.std.specs.Prelude.{◌≡◌, ◌∷◌, ◌++◌, [], map, not, option_map, slice_get, IsTrue, OnOk};
ghost use Rattle.std.specs.List.{filter, find, list_any};
ghost use Rattle.std.specs.Str.{bytes_eq};
ghost use Rattle.plan_model.specs.TypedStatements.{stays};
ghost use Rattle.uno_entities.specs.TypeNames.{kind_of};
ghost use Rattle.plan_checks.specs.Variables.{scoped_of};

mod scoped;

use indexmap::IndexSet;
pub use scoped::Scoped;
use std::alloc::Global;
use std::marker::Model;
use uno_base::NoMemory;
use uno_types::{Name, TypeName};

/// Variables in the order in which they began. Their names are noted in this order too, until two have one name or there is no memory for it: then they are
/// looked for one by one.
#[derive(Drop)]
pub struct Scope {
    list: Vec<Scoped>,
    names: IndexSet<Name>,
    are_noted: bool,
}

impl Model for Scope {
    ghost use Rattle.std.specs.Prelude.{List, map};
    ghost use Rattle.plan_model.specs.Contexts.{Scoped as Plain};

    ghost Value = { List Plain };

    ghost use Rattle.std.specs.Coded.{codes};
    ghost use Rattle.uno_model.specs.Codes.{kind_code};

    ghost coded = { Prim.hlevel (codes, kind_code) };

    ghost use Rattle.plan_checks.specs.Variables.{scoped_of};

    ghost view = { λ s. map scoped_of s.list.items };

    ghost use Rattle.std.specs.Prelude.{◌≡◌, IsTrue};
    ghost use Rattle.plan_checks.specs.Variables.{names_of};

    ghost invariant = { λ s. IsTrue s.are_noted → s.names.keys ≡ names_of (map scoped_of s.list.items) };
}

impl Scope {
    /// None yet.
    pub fn new(alloc: Global) -> Scope
        ensures { result ≡ [] }
    {
        Scope {
            list: Vec::new(alloc),
            names: IndexSet::new(alloc),
            are_noted: true,
        }
    }

    /// The first variable of this name.
    fn named(&self, name: &Name) -> Option<&Scoped>
        ensures { option_map (λ x. scoped_of x.now) result ≡ find (λ x. bytes_eq name.now x.name) self.now }
    {
        if !self.are_noted {
            return variable_named(&self.list, name);
        }
        match self.names.get_index_of(name) {
            Some(place) => variable_at(&self.list, place),
            None => None,
        }
    }

    /// The type of the variable of this name.
    pub(crate) fn kind(&self, name: &Name) -> Option<&TypeName>
        ensures { option_map (λ k. kind_of k.now) result ≡ option_map (λ x. x.kind) (find (λ x. bytes_eq name.now x.name) self.now) }
    {
        match self.named(name) {
            Some(variable) => Some(&variable.kind),
            None => None,
        }
    }

    /// Whether there is a variable of this name.
    pub fn has(&self, name: &Name) -> bool
        ensures { result ≡ list_any (λ x. bytes_eq name.now x.name) self.now }
    {
        self.named(name).is_some()
    }

    /// Whether the variable of this name is a parameter whose value comes out.
    pub(crate) fn comes_out(&self, name: &Name) -> bool
        ensures { result ≡ stays (find (λ x. bytes_eq name.now x.name) self.now) }
    {
        match self.named(name) {
            Some(variable) => variable.comes_out,
            None => false,
        }
    }

    /// Adds a variable.
    pub fn push(&mut self, variable: Scoped) -> Result<(), NoMemory>
        ensures { OnOk result (self.new ≡ self.old ++ scoped_of variable ∷ []) }
    {
        self.list.reserve(1)?;
        self.are_noted = note(self.are_noted, &mut self.names, &variable.name);
        self.list.push_reserved(variable);
        Ok(())
    }

    /// Takes out each variable of this name.
    pub fn remove(&mut self, name: &Name)
        ensures { self.new ≡ filter (λ x. not (bytes_eq name.now x.name)) self.old }
    {
        if !self.are_noted {
            self.list.retain(|variable| is_other(variable, name));
            return;
        }
        let Some((place, noted)) = self.names.shift_remove_full(name) else {
            return;
        };
        drop(noted);
        drop(self.list.remove(place));
    }
}

/// Notes a name behind others, where those are noted. False where it is there already, or there is no memory for it.
fn note(are_noted: bool, names: &mut IndexSet<Name>, name: &Name) -> bool
    ensures noted { IsTrue result → IsTrue are_noted }
    ensures behind { IsTrue result → names.new.keys ≡ names.old.keys ++ name.now ∷ [] }
{
    if !are_noted {
        return false;
    }
    let Ok(name) = name.copy() else {
        return false;
    };
    let Ok(is_new) = names.insert(name) else {
        return false;
    };
    is_new
}

fn variable_at(variables: &[Scoped], place: usize) -> Option<&Scoped>
    ensures { option_map (λ x. scoped_of x.now) result ≡ slice_get (map scoped_of variables.now) place }
{
    variables.get(place)
}

/// The first variable of this name, looked for one by one.
fn variable_named<'a>(variables: &'a [Scoped], name: &Name) -> Option<&'a Scoped>
    ensures { option_map (λ x. scoped_of x.now) result ≡ find (λ x. bytes_eq name.now x.name) (map scoped_of variables.now) }
{
    for variable in variables {
        if name.as_str() == variable.name.as_str() {
            return Some(variable);
        }
    }
    None
}

/// Whether a variable has another name.
fn is_other(variable: &Scoped, name: &Name) -> bool
    ensures { result ≡ not (bytes_eq name.now variable.now.name) }
{
    name.as_str() != variable.name.as_str()
}
