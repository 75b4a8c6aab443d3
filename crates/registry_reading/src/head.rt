//! The header of an entity, as it is looked at before the text is read.
ghost use Rattle.std.specs.Prelude.{◌≡◌};
ghost use Rattle.uno_model.specs.Names.{is_entity_name};

use uno_types::TypeClass;

/// The name of an entity, the class of the type that it is, the number of its line, whether a value under it is beyond those of `long`,
/// and whether the name is one that an entity may have, which is asked once for all that name it.
#[derive(Clone, Copy)]
pub(crate) struct Head<'a> {
    pub name: &'a str,
    pub class: Option<TypeClass>,
    pub line: u32,
    pub beyond: bool,
    pub is_name: bool,
    pub ghost judged: { is_name ≡ is_entity_name name.now },
}
