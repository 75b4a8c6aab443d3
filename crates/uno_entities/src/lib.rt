//! Names, texts, identities, tags, types and entities as values, and what is told from a list of entities alone.
#![tactic(auto)]

mod bases;
mod built_in;
mod copies;
mod entity;
mod entity_copies;
mod few_functions;
mod finding;
mod functions;
mod identifier;
mod name;
mod tag;
mod text;
mod threads;
mod tid;
mod type_limits;
mod type_name;
mod type_rules;

pub use bases::{Reach, Search, all_bases, bases_of, nothing_reached, reach_bases, unmark};
pub use built_in::{X_INTERFACE, built_in_entities};
pub use copies::{copy_names, copy_params};
pub use entity::{
    Attribute, Base, Body, Constant, Constructor, Entity, Field, Item, Member, Method, Param, Part,
    Service, Singleton,
};
pub use entity_copies::copy_entities;
pub use few_functions::{all_have_few_functions, has_few_functions, mark_places};
pub use finding::place_in;
pub use identifier::{
    begins_identifier, few_modules, goes_on_identifier, is_entity_name, is_identifier,
};
pub use name::Name;
pub use tag::{Tag, TagError};
pub use text::{Text, is_identity};
pub use tid::Tid;
pub use type_limits::{MOST_BYTES, MOST_LEVELS};
pub use type_name::TypeName;
pub use type_rules::{elements_storable, is_storable, is_target, is_value};
pub use uno_model::{Flags, TypeClass, Way};
