//! What a declaration means.
ghost use Rattle.std.specs.Prelude.{◌≡◌, ◌<◌, ◌≤◌, Contains, IfOk, IsOk, None, Some, get_or, length, map, pos, slice_get, unwrap_or};
ghost use Rattle.idl_meaning_model.specs.ConstantsMeant.{value_meant};
ghost use Rattle.idl_meaning_model.specs.Declarations.{all_valued, valued_in};
ghost use Rattle.idl_meaning_model.specs.Meaning.{name_meant, type_meant};
ghost use Rattle.idl_meaning_model.specs.Uses.{an_entity, type_paths, used_in};
ghost use Rattle.idl_meant.specs.Resolving.{all_in, modules_at};
ghost use Rattle.idl_meant.specs.Shaping.{bound_of};
ghost use Rattle.idl_meant.specs.Typing.{shape_kind};
ghost use Rattle.idl_model.specs.Trees as tree;
ghost use Rattle.idl_names.specs.Collected.{declared_of};
ghost use Rattle.idl_names.specs.Standing.{name_at};
ghost use Rattle.idl_trees.specs.Names.{path_of};
ghost use Rattle.idl_trees.specs.Trees.{declaration_of};
ghost use Rattle.idl_trees.specs.Types.{type_of};
ghost use Rattle.registry_reading_model.specs.Kept.{clamped, cut, long_or_zero};

use crate::meaning::Meaning;
use crate::shapes::Shape;
use idl_entities::Meanings;
use idl_names::Declared;
use idl_trees::{Declaration, Path, WrittenType};
use uno_base::NoMemory;
use uno_entities::{Name, TypeName};

const LEAST: i128 = i128::MIN;

const ABOVE_LEAST: i128 = -170_141_183_460_469_231_731_687_303_715_884_105_727;

/// A declaration of resolved files, with what it means; its number is its place among all of them.
#[derive(Clone, Copy)]
pub struct DeclarationMeaning<'a, 'b, 'c> {
    pub(crate) meaning: &'c Meaning<'a, 'b>,
    pub(crate) declared: Declared<'a>,
    pub(crate) number: usize,
    pub ghost there: { ∥ slice_get meaning.now.resolved.now.declared.items number ≡ Some declared ∥₁ },
}

impl<'a, 'b, 'c> DeclarationMeaning<'a, 'b, 'c> {
    /// The declaration of this number.
    pub fn new(meaning: &'c Meaning<'a, 'b>, number: usize) -> DeclarationMeaning<'a, 'b, 'c>
        requires { number < length meaning.now.resolved.now.declared.items }
        ensures meaning { result.meaning.now.resolved.now ≡ meaning.now.resolved.now }
        ensures declared { slice_get meaning.now.resolved.now.declared.items number ≡ Some result.declared }
    {
        DeclarationMeaning {
            meaning,
            declared: meaning.resolved.declared[number],
            number,
        }
    }

    /// The values of its constants or items.
    pub fn values(&self) -> &[Option<i128>]
        ensures { result.now ≡ map (value_meant (all_valued (all_in self.now.meaning.now.resolved.now))) (valued_in (declared_of self.now.meaning.now.resolved.now.paths self.now.declared) (declaration_of self.now.declared.body.now)) }
    {
        self.meaning.numbers.values_in(&self.declared, self.number)
    }

    /// The number of the path for which a path stands there; there is one for each that the declaration uses.
    fn number_of(&self, path: &Path) -> Result<u32, NoMemory>
        ensures used { Contains (used_in (declaration_of self.now.declared.body.now)) (an_entity (path_of path.now)) → IsOk result }
        ensures stands { IfOk result (λ n. (n < length self.now.meaning.now.resolved.now.paths) × (name_at self.now.meaning.now.resolved.now.paths n ≡ name_meant (all_in self.now.meaning.now.resolved.now) (modules_at self.now.meaning.now.resolved.now self.now.declared.modules) (path_of path.now))) }
    {
        match self.meaning.names.number(self.declared.modules, path) {
            Some(number) => Ok(number),
            None => Err(NoMemory),
        }
    }

    /// The shape of a type that is written there; there is one for each whose names the declaration uses.
    fn shape_of(&self, written: &WrittenType) -> Result<Shape, NoMemory>
        ensures used { ((p : tree.Path) → Contains (type_paths (type_of written.now)) p → Contains (used_in (declaration_of self.now.declared.body.now)) (an_entity p)) → IsOk result }
        ensures low { IfOk result (λ shape. bound_of shape.leaf ≤ length self.now.meaning.now.resolved.now.paths) }
        ensures kind { IfOk result (λ shape. shape_kind self.now.meaning.now.resolved.now.paths self.now.meaning.now.resolved.now.declared.items self.now.meaning.now.names.owners.items shape ≡ cut (type_meant (all_in self.now.meaning.now.resolved.now) (modules_at self.now.meaning.now.resolved.now self.now.declared.modules) (type_of written.now))) }
    {
        match self.meaning.names.shape(self.declared.modules, written) {
            Some(shape) => Ok(shape),
            None => Err(NoMemory),
        }
    }
}

impl<'a, 'b, 'c> Meanings for DeclarationMeaning<'a, 'b, 'c> {
    ghost use Rattle.idl_meant.specs.Telling.{telling_in};

    ghost telling = { λ d. telling_in d.meaning.now.resolved.now d.declared };

    fn full_name(&self) -> Result<Name, NoMemory> {
        self.meaning.full_name(self.declared.path)
    }

    fn is_published(&self) -> bool {
        self.declared.published
    }

    fn body(&self) -> &Declaration {
        self.declared.body
    }

    fn name(&self, path: &Path) -> Result<Name, NoMemory> {
        let number = self.number_of(path)?;
        self.meaning.full_name(number)
    }

    fn kind(&self, written: &WrittenType) -> Result<TypeName, NoMemory> {
        let shape = self.shape_of(written)?;
        self.meaning.types().made(shape)
    }

    fn item(&self, place: usize) -> i32 {
        item_kept(value_at(self.values(), place))
    }

    fn constant(&self, place: usize) -> i128 {
        constant_kept(value_at(self.values(), place))
    }
}

fn value_at(values: &[Option<i128>], place: usize) -> Option<i128>
    ensures { result ≡ get_or values.now place None }
{
    match values.get(place) {
        Some(value) => *value,
        None => None,
    }
}

/// What is kept of the number of an item.
#[tactic(auto, unfolding(registry_reading_model::specs::Kept::long_or_zero))]
fn item_kept(value: Option<i128>) -> i32
    ensures { result ≡ long_or_zero (unwrap_or value (pos 0)) }
{
    match value {
        Some(number) => long_or_zero(number),
        None => 0,
    }
}

/// What is kept of that of a constant.
#[tactic(auto, unfolding(registry_reading_model::specs::Kept::clamped))]
fn constant_kept(value: Option<i128>) -> i128
    ensures { result ≡ clamped (unwrap_or value (pos 0)) }
{
    match value {
        Some(number) => clamped(number),
        None => 0,
    }
}

/// All numbers of 128 bits are kept as they are but the least.
fn clamped(number: i128) -> i128
    ensures { result ≡ clamped number }
{
    if number == LEAST {
        return ABOVE_LEAST;
    }
    number
}

#[tactic(auto, unfolding(registry_reading_model::specs::Kept::long_or_zero))]
fn long_or_zero(number: i128) -> i32
    ensures { result ≡ long_or_zero number }
{
    if -2_147_483_648 <= number && number <= 2_147_483_647 {
        return number as i32;
    }
    0
}
