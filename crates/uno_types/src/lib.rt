//! The types of UNO: the registry of entities, with their names and types, and what it tells.
#![tactic(auto)]

mod all_members;
mod assignable;
mod has_type;
mod members;
mod near_bases;
mod registry;
mod threads;
mod types;

pub use members::Level;
pub use registry::{AddError, Registry};
pub use uno_entities::{
    Attribute, Base, Body, Constant, Constructor, Entity, Field, Item, Member, Method, Name, Param,
    Part, Service, Singleton, Tag, TagError, Text, Tid, TypeName, is_entity_name, is_identifier,
};
pub use uno_model::{Flags, TypeClass, Way};
