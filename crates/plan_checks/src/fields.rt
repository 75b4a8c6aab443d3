//! The fields of the behaviour whose block is open.
ghost use Rattle.std.specs.Prelude.{◌≡◌, ◌∷◌, ◌++◌, [], false, map, option_map, slice_get, OnOk};
ghost use Rattle.std.specs.List.{find, list_any};
ghost use Rattle.std.specs.Str.{bytes_eq};
ghost use Rattle.uno_entities.specs.Entities.{field_of};
ghost use Rattle.uno_entities.specs.TypeNames.{kind_of};

mod by_name;

use by_name::{ByName, note, place};
use std::alloc::Global;
use std::collections::BTreeMap;
use std::marker::Model;
use uno_base::NoMemory;
use uno_types::{Field, TypeName};

/// Fields in the order of their lines; a behaviour may have as many as its text has lines.
#[derive(Drop)]
pub struct Fields {
    list: Vec<Field>,
    by_name: ByName,
}

impl Model for Fields {
    ghost use Rattle.std.specs.Prelude.{List, map};
    ghost use Rattle.uno_model.specs.Entities.{Field as Plain};

    ghost Value = { List Plain };

    ghost use Rattle.std.specs.Coded.{codes};
    ghost use Rattle.uno_model.specs.Codes.{kind_code};

    ghost coded = { Prim.hlevel (codes, kind_code) };

    ghost use Rattle.uno_entities.specs.Entities.{field_of};
    ghost use Rattle.plan_checks.specs.Indexes.{HasPlaces};

    ghost view = { λ f. map field_of f.list.items };

    ghost invariant = { λ f. HasPlaces f.by_name (map field_of f.list.items) };
}

impl Fields {
    /// None yet.
    pub fn new(alloc: Global) -> Fields
        ensures { result ≡ [] }
    {
        Fields {
            list: Vec::new(alloc),
            by_name: BTreeMap::new(alloc),
        }
    }

    /// All of them.
    pub(crate) fn as_slice(&self) -> &[Field]
        ensures { map field_of result.now ≡ self.now }
    {
        self.list.as_slice()
    }

    /// The type of the field of this name.
    pub(crate) fn kind(&self, name: &str) -> Option<&TypeName>
        ensures { option_map (λ k. kind_of k.now) result ≡ option_map (λ f. f.kind) (find (λ f. bytes_eq name.now f.name) self.now) }
    {
        match place(&self.by_name, name) {
            Some(place) => kind_at(&self.list, place),
            None => None,
        }
    }

    /// Whether there is a field of this name.
    pub fn has(&self, name: &str) -> bool
        ensures { result ≡ list_any (λ f. bytes_eq name.now f.name) self.now }
    {
        place(&self.by_name, name).is_some()
    }

    /// Adds a field.
    pub fn push(&mut self, alloc: Global, field: Field) -> Result<(), NoMemory>
        ensures { OnOk result (self.new ≡ self.old ++ field_of field ∷ []) }
    {
        if self.has(field.name.as_str()) {
            self.list.push(field)?;
            return Ok(());
        }
        self.push_new(alloc, field)
    }

    /// Adds a field of a name that is not there.
    fn push_new(&mut self, alloc: Global, field: Field) -> Result<(), NoMemory>
        requires { list_any (λ f. bytes_eq (field_of field).name f.name) self.old ≡ false }
        ensures { OnOk result (self.new ≡ self.old ++ field_of field ∷ []) }
    {
        self.list.reserve(1)?;
        note(
            alloc,
            &mut self.by_name,
            field.name.as_str(),
            self.list.len(),
        )?;
        self.list.push_reserved(field);
        Ok(())
    }

    /// All of them, given back.
    pub fn into_vec(self) -> Vec<Field>
        ensures { map field_of result.items ≡ self }
    {
        let Fields { list, by_name } = self;
        drop(by_name);
        list
    }
}

/// The type of the field at a place.
fn kind_at(fields: &[Field], place: usize) -> Option<&TypeName>
    ensures { option_map (λ k. kind_of k.now) result ≡ option_map (λ f. f.kind) (slice_get (map field_of fields.now) place) }
{
    Some(&fields.get(place)?.kind)
}
