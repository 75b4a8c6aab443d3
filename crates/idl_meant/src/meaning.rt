//! What resolved files mean.
ghost use Rattle.std.specs.Prelude.{◌≡◌, ◌<◌, IfOk, length};
ghost use Rattle.idl_meaning_model.specs.Declarations.{all_valued};
ghost use Rattle.idl_meant.specs.Meant.{IsMeant};
ghost use Rattle.idl_meant.specs.Numbering.{IsValueGraph};
ghost use Rattle.idl_meant.specs.Resolving.{AreTold, all_in};
ghost use Rattle.idl_names.specs.Standing.{name_at};

use crate::full_names::{full_name, full_names};
use crate::kinds::Types;
use crate::names::{Names, names_meant};
use crate::numbers::{Numbers, numbers_meant};
use circle_search::Graph;
use idl_names::Resolved;
use std::alloc::Global;
use uno_base::NoMemory;
use uno_entities::{Entity, Name, built_in_entities};

/// What the names, types and numbers of resolved files mean.
#[derive(Drop)]
pub struct Meaning<'a, 'b> {
    pub(crate) alloc: Global,
    pub(crate) resolved: &'b Resolved<'a>,
    pub(crate) names: Names<'a>,
    pub(crate) numbers: Numbers,
    pub(crate) full_names: Vec<Option<Name>>,
    pub(crate) built_in: Vec<Entity>,
    pub ghost right: { ∥ IsMeant resolved.now names numbers full_names.items built_in.items ∥₁ },
}

impl<'a, 'b> Meaning<'a, 'b> {
    pub fn new(alloc: Global, resolved: &'b Resolved<'a>) -> Result<Meaning<'a, 'b>, NoMemory>
        requires { AreTold resolved.now }
        ensures resolved { IfOk result (λ meaning. meaning.resolved.now ≡ resolved.now) }
        ensures graph { IfOk result (λ meaning. IsValueGraph (all_valued (all_in resolved.now)) meaning.numbers.graph) }
    {
        let names = names_meant(alloc, resolved)?;
        let numbers = numbers_meant(alloc, resolved, &names.told)?;
        let full_names = full_names(alloc, resolved)?;
        let built_in = built_in_entities(alloc)?;
        Ok(Meaning {
            alloc,
            resolved,
            names,
            numbers,
            full_names,
            built_in,
        })
    }

    /// To which constants and items each of all leads.
    pub fn value_graph(&self) -> &Graph
        ensures { result.now ≡ self.now.numbers.graph }
    {
        &self.numbers.graph
    }

    /// The full name of the path of this number.
    pub(crate) fn full_name(&self, number: u32) -> Result<Name, NoMemory>
        requires { number < length self.now.resolved.now.paths }
        ensures { IfOk result (λ name. name ≡ name_at self.now.resolved.now.paths number) }
    {
        let paths = &self.resolved.paths;
        full_name(self.alloc, paths, self.full_names.as_slice(), number)
    }

    /// What types are made of.
    pub(crate) fn types(&self) -> Types<'a, '_>
        ensures paths { result.paths.now ≡ self.now.resolved.now.paths }
        ensures full_names { result.full_names.now ≡ self.now.full_names.items }
        ensures all { result.all.now ≡ self.now.resolved.now.declared.items }
        ensures owners { result.owners.now ≡ self.now.names.owners.items }
        ensures built_in { result.built_in.now ≡ self.now.built_in.items }
    {
        Types {
            alloc: self.alloc,
            paths: &self.resolved.paths,
            full_names: self.full_names.as_slice(),
            all: self.resolved.declared.as_slice(),
            owners: self.names.owners.as_slice(),
            built_in: self.built_in.as_slice(),
        }
    }
}
