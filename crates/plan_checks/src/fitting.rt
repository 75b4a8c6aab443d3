//! Whether each behaviour that a line of the top or of a behaviour names fits its place.
ghost use Rattle.std.specs.Prelude.{◌≡◌, ◌↔◌, ◌&&◌, map, option_map, IsTrue};
ghost use Rattle.std.specs.List.{list_all};
ghost use Rattle.std.specs.Str.{bytes_eq};
ghost use Rattle.plan_model.specs.Contexts as plain;
ghost use Rattle.plan_model.specs.Fitting.{base_of, serves, serves_all, service_fits, method_fits};
ghost use Rattle.plan_model.specs.Services.{constructors_of};
ghost use Rattle.plan_model.specs.TypedStatements.{supports_named};
ghost use Rattle.uno_model.specs.Codes.{same_kind};
ghost use Rattle.uno_model.specs.Kinds as kd;
ghost use Rattle.uno_model.specs.Registry.{find_entity};
ghost use Rattle.uno_entities.specs.Entities.{constructor_of, field_of};
ghost use Rattle.uno_entities.specs.TypeNames.{kind_of};
ghost use Rattle.plan_checks.specs.Checks.{before};
ghost use Rattle.plan_checks.specs.Constructors.{is_among};
ghost use Rattle.plan_checks.specs.LentBehaviours.{lent_behaviour};

use crate::behaviours::{BehaviourRef, behaviour_named};
use crate::checker::Checker;
use crate::context::Block;
use crate::kinds::same_kind;
use uno_types::{Body, Constructor, Field, Name, Registry, Service, Singleton, TypeName};

impl Checker<'_> {
    /// A method is of a behaviour that supports the interface.
    pub fn method_fits(&self, face: &Name) -> bool
        ensures { result ≡ method_fits self.now.registry.now (before self.now).block face.now }
    {
        let Block::Behaviour(behaviour) = &self.context.block else {
            return false;
        };
        self.supports(&behaviour.faces, face.as_str())
    }

    /// A singleton's behaviour supports its interface.
    pub fn singleton_fits(&self, name: &Name, behaviour: &Name) -> bool
        ensures { result ≡ supports_named self.now.registry.now (plain.behaviour_named (before self.now) behaviour.now) (base_of (find_entity name.now self.now.registry.now)) }
    {
        let behaviour = behaviour_named(self.context, behaviour.as_str());
        self.supports_named(behaviour, base_of(self.registry, name))
    }

    /// A service's behaviour supports its interface, and has a field for each parameter of its constructors.
    pub fn service_fits(&self, name: &Name, behaviour: &Name) -> bool
        ensures { result ≡ service_fits self.now.registry.now (plain.behaviour_named (before self.now) behaviour.now) (find_entity name.now self.now.registry.now) }
    {
        let behaviour = behaviour_named(self.context, behaviour.as_str());
        if !self.supports_named(behaviour, base_of(self.registry, name)) {
            return false;
        }
        serves_all(behaviour, constructors_of(self.registry, name))
    }
}

/// The name of the interface of a service or a singleton of the new form; that of what is neither is empty.
fn base_of<'a>(registry: &'a Registry, name: &Name) -> &'a str
    ensures { result.now ≡ base_of (find_entity name.now registry.now) }
{
    let Some(entity) = registry.find(name.as_str()) else {
        return "";
    };
    match &entity.body {
        Body::Service(Service::New { base, .. }) => base.as_str(),
        Body::Singleton(Singleton::New { base }) => base.as_str(),
        _ => "",
    }
}

/// The constructors of a service of the new form.
fn constructors_of<'a>(registry: &'a Registry, name: &Name) -> &'a [Constructor]
    ensures { map constructor_of result.now ≡ constructors_of (find_entity name.now registry.now) }
{
    let Some(entity) = registry.find(name.as_str()) else {
        return &[];
    };
    match &entity.body {
        Body::Service(Service::New { constructors, .. }) => constructors.as_slice(),
        _ => &[],
    }
}

/// Whether the behaviour has the fields of each constructor.
fn serves_all(behaviour: Option<BehaviourRef<'_>>, constructors: &[Constructor]) -> bool
    ensures { result ≡ serves_all (option_map lent_behaviour behaviour.entry) (map constructor_of constructors.now) }
{
    match behaviour {
        Some(behaviour) => serves_each(&behaviour, constructors),
        None => false,
    }
}

fn serves_each(behaviour: &BehaviourRef<'_>, constructors: &[Constructor]) -> bool
    ensures { result ≡ list_all (serves (lent_behaviour behaviour.now)) (map constructor_of constructors.now) }
{
    for constructor in constructors {
        if !serves(behaviour, constructor) {
            return false;
        }
    }
    true
}

/// One field for each parameter, and one of anys for the rest parameter.
fn serves(behaviour: &BehaviourRef<'_>, constructor: &Constructor) -> bool
    ensures { result ≡ serves (lent_behaviour behaviour.now) (constructor_of constructor.now) }
{
    if !has_fields(behaviour.fields, &constructor.params) {
        return false;
    }
    match &constructor.rest {
        Some(name) => has_rest_field(behaviour.fields, name),
        None => true,
    }
}

fn has_fields(fields: &[Field], params: &[Field]) -> bool
    ensures { result ≡ list_all (is_among (map field_of fields.now)) (map field_of params.now) }
{
    for param in params {
        if !has_field(fields, param) {
            return false;
        }
    }
    true
}

/// Whether there is a field of this name and type.
fn has_field(fields: &[Field], param: &Field) -> bool
    ensures { result ≡ is_among (map field_of fields.now) (field_of param.now) }
{
    for field in fields {
        if is_same_field(param, field) {
            return true;
        }
    }
    false
}

fn is_same_field(param: &Field, field: &Field) -> bool
    ensures { result ≡ (bytes_eq param.now.name field.now.name && same_kind (kind_of param.now.kind) (kind_of field.now.kind)) }
{
    param.name.as_str() == field.name.as_str() && same_kind(&param.kind, &field.kind)
}

fn has_rest_field(fields: &[Field], name: &Name) -> bool
    ensures { result ≡ is_among (map field_of fields.now) (record { name = name.now; kind = kd.sequence kd.any }) }
{
    for field in fields {
        if is_rest_field(name, field) {
            return true;
        }
    }
    false
}

fn is_rest_field(name: &Name, field: &Field) -> bool
    ensures { result ≡ (bytes_eq name.now field.now.name && same_kind (kd.sequence kd.any) (kind_of field.now.kind)) }
{
    name.as_str() == field.name.as_str() && is_list_of_anys(&field.kind)
}

fn is_list_of_anys(kind: &TypeName) -> bool
    ensures { result ≡ same_kind (kd.sequence kd.any) (kind_of kind.now) }
{
    is_sequence_of_any(kind)
}

fn is_sequence_of_any(kind: &TypeName) -> bool
    ensures { IsTrue result ↔ (kind_of kind.now ≡ kd.sequence kd.any) }
{
    match kind {
        TypeName::Sequence(inner) => matches!(**inner, TypeName::Any),
        _ => false,
    }
}
