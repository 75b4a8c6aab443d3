//! The values that names have.
ghost use Rattle.std.specs.Prelude.{◌≡◌, ℤ, Option};
ghost use Rattle.idl_model.specs.Trees as tree;
ghost use Rattle.idl_trees.specs.Names.{path_of};

use idl_trees::Path;

/// Which names have values.
pub trait Values {
    ghost value_known: { Self → tree.Path → Option ℤ };

    /// The value of a name, as it is written, if it has one.
    fn value(&self, path: &Path) -> Option<i128>
        ensures { result ≡ value_known self.now (path_of path.now) };
}
