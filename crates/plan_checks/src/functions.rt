//! Functions by their names.
ghost use Rattle.std.specs.Prelude.{◌≡◌, ℕ, List, ◌++◌, map, option_map, IfOk, MatchOption};
ghost use Rattle.std.specs.List.{find, flat_map};
ghost use Rattle.std.specs.Str.{bytes_eq};
ghost use Rattle.plan_model.specs.Contexts.{declared_function, called_function};
ghost use Rattle.uno_model.specs.Functions.{accessors_of, calls_of, declared_in};
ghost use Rattle.type_registry.specs.Functions.{lent_function};
ghost use Rattle.type_registry.specs.Met.{names_at};
ghost use Rattle.uno_entities.specs.Entities.{body_of, member_of};
ghost use Rattle.plan_checks.specs.Called.{called_by, called_of};

use crate::checker::Checker;
use crate::known::is_interface_there;
use type_registry::{FunctionRef, interfaces_of};
use uno_base::NoMemory;
use uno_entities::X_INTERFACE;
use uno_types::{Body, Entity, Member, Name, Registry};

/// The function of this name that an interface declares itself.
#[tactic(auto, unfolding(plan_model::specs::Contexts::declared_function))]
pub fn declared_function<'a>(
    registry: &'a Registry,
    face: &str,
    name: &str,
) -> Option<FunctionRef<'a>>
    ensures { option_map lent_function result ≡ declared_function registry.now face.now name.now }
{
    match registry.find(face) {
        Some(entity) => declared_in(entity, name),
        None => None,
    }
}

fn declared_in<'a>(entity: &'a Entity, name: &str) -> Option<FunctionRef<'a>>
    ensures { option_map lent_function result ≡ find (λ f. bytes_eq name.now f.name) (declared_in entity.now.name (body_of entity.now.body)) }
{
    let Body::Interface { bases: _, members } = &entity.body else {
        return None;
    };
    member_named(&entity.name, members, name)
}

fn member_named<'a>(owner: &'a Name, members: &'a [Member], name: &str) -> Option<FunctionRef<'a>>
    ensures { option_map lent_function result ≡ find (λ f. bytes_eq name.now f.name) (flat_map (accessors_of owner.now) (map member_of members.now) ++ flat_map (calls_of owner.now) (map member_of members.now)) }
{
    match accessor_named(owner, members, name) {
        Some(function) => Some(function),
        None => method_named(owner, members, name),
    }
}

fn accessor_named<'a>(owner: &'a Name, members: &'a [Member], name: &str) -> Option<FunctionRef<'a>>
    ensures { option_map lent_function result ≡ find (λ f. bytes_eq name.now f.name) (flat_map (accessors_of owner.now) (map member_of members.now)) }
{
    for member in members {
        if let Some(function) = accessor_of(owner, member, name) {
            return Some(function);
        }
    }
    None
}

fn method_named<'a>(owner: &'a Name, members: &'a [Member], name: &str) -> Option<FunctionRef<'a>>
    ensures { option_map lent_function result ≡ find (λ f. bytes_eq name.now f.name) (flat_map (calls_of owner.now) (map member_of members.now)) }
{
    for member in members {
        if let Some(function) = call_of(owner, member, name) {
            return Some(function);
        }
    }
    None
}

/// The function of this name that reads or writes an attribute.
fn accessor_of<'a>(owner: &'a Name, member: &'a Member, name: &str) -> Option<FunctionRef<'a>>
    ensures { option_map lent_function result ≡ find (λ f. bytes_eq name.now f.name) (accessors_of owner.now (member_of member.now)) }
{
    let Member::Attribute(attribute) = member else {
        return None;
    };
    if is_prefixed("get:", &attribute.name, name) {
        return Some(FunctionRef::Getter { owner, attribute });
    }
    if attribute.read_only {
        return None;
    }
    if is_prefixed("set:", &attribute.name, name) {
        return Some(FunctionRef::Setter { owner, attribute });
    }
    None
}

/// The method of this name that a member is.
fn call_of<'a>(owner: &'a Name, member: &'a Member, name: &str) -> Option<FunctionRef<'a>>
    ensures { option_map lent_function result ≡ find (λ f. bytes_eq name.now f.name) (calls_of owner.now (member_of member.now)) }
{
    let Member::Method(method) = member else {
        return None;
    };
    if name == method.name.as_str() {
        return Some(FunctionRef::Method { owner, method });
    }
    None
}

/// Whether the text is a name behind a prefix.
fn is_prefixed(prefix: &str, name: &Name, text: &str) -> bool
    ensures { result ≡ bytes_eq text.now (prefix.now ++ name.now) }
{
    match behind_prefix(prefix, text) {
        Some(behind) => behind == name.as_str(),
        None => false,
    }
}

/// What stands behind a prefix.
fn behind_prefix<'a>(prefix: &str, text: &'a str) -> Option<&'a str>
    ensures { MatchOption result ((rest : List ℕ) → text.now ≡ prefix.now ++ rest → ⊥) (λ behind. text.now ≡ prefix.now ++ behind.now) }
{
    text.strip_prefix(prefix)
}

impl<'a> Checker<'a> {
    /// The function of this name that a call of an interface may name.
    pub(crate) fn called_function(
        &self,
        face: &str,
        name: &str,
    ) -> Result<Option<FunctionRef<'a>>, NoMemory>
        ensures { IfOk result (λ found. option_map lent_function found ≡ called_function self.now.registry.now face.now name.now) }
    {
        if !is_interface_there(self.registry, face) {
            return Ok(None);
        }
        let faces = interfaces_of(self.alloc, self.registry, face)?;
        Ok(called_in(self.registry, faces.names(), name))
    }
}

/// The first function of this name that one of these interfaces declares.
fn called_in<'a>(registry: &'a Registry, faces: &[&str], name: &str) -> Option<FunctionRef<'a>>
    ensures { option_map lent_function result ≡ find (λ f. bytes_eq name.now f.name) (called_by registry.now (names_at faces.now)) }
{
    for face in faces {
        if let Some(function) = called_of(registry, face, name) {
            return Some(function);
        }
    }
    None
}

/// The function of this name that an interface declares, where that is not XInterface.
#[tactic(auto, unfolding(plan_model::specs::Contexts::declared_function, crate::specs::Called::called_of))]
fn called_of<'a>(registry: &'a Registry, face: &str, name: &str) -> Option<FunctionRef<'a>>
    ensures { option_map lent_function result ≡ find (λ f. bytes_eq name.now f.name) (called_of registry.now face.now) }
{
    if face == X_INTERFACE {
        return None;
    }
    declared_function(registry, face, name)
}
