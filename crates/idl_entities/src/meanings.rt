//! What a declaration's names, types and numbers mean.
ghost use Rattle.std.specs.Prelude.{◌≡◌, IfOk, Some, slice_get};
ghost use Rattle.idl_entities.specs.Telling.{Telling, constant_number, item_number, name_told, type_told, valued_told};
ghost use Rattle.idl_meaning_model.specs.Declarations.{Valued, full_name};
ghost use Rattle.idl_trees.specs.Names.{path_of};
ghost use Rattle.idl_trees.specs.Trees.{declaration_of};
ghost use Rattle.idl_trees.specs.Types.{type_of};
ghost use Rattle.uno_entities.specs.TypeNames.{kind_of};

use idl_trees::{Declaration, Path, WrittenType};
use uno_base::NoMemory;
use uno_entities::{Name, TypeName};

/// A declaration, with what its names, types and numbers mean. Types and numbers may be changed, if a caller keeps others in entities:
/// types that are cut at the limit of sequences, or no numbers, as long as they are not worked out.
pub trait Meanings {
    ghost telling: { Self → Telling };

    /// The full name of the declaration.
    fn full_name(&self) -> Result<Name, NoMemory>
        ensures { IfOk result (λ name. name ≡ full_name (telling self.now).declared) };

    fn is_published(&self) -> bool
        ensures { result ≡ (telling self.now).declared.published };

    fn body(&self) -> &Declaration
        ensures { declaration_of result.now ≡ (telling self.now).declared.body };

    /// The name of the entity that a path names there.
    fn name(&self, path: &Path) -> Result<Name, NoMemory>
        ensures { IfOk result (λ name. name ≡ name_told (telling self.now) (path_of path.now)) };

    /// The type that a written one means there.
    fn kind(&self, written: &WrittenType) -> Result<TypeName, NoMemory>
        ensures { IfOk result (λ kind. kind_of kind ≡ type_told (telling self.now) (type_of written.now)) };

    /// The number of an item of the declaration, by its place in it.
    fn item(&self, place: usize) -> i32
        ensures { (v : Valued) → slice_get (valued_told (telling self.now)) place ≡ Some v → result ≡ item_number (telling self.now) v };

    /// The number of a constant of the declaration, by its place in it.
    fn constant(&self, place: usize) -> i128
        ensures { (v : Valued) → slice_get (valued_told (telling self.now)) place ≡ Some v → result ≡ constant_number (telling self.now) v };
}
