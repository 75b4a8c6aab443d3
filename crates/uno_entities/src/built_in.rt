//! The entities that are in every registry.
ghost use Rattle.std.specs.Prelude.{◌≡◌, ◌∷◌, ◌++◌, [], map, IfOk, OnOk, codes, true, false};
ghost use Rattle.uno_model.specs.BuiltIn.{x_interface, base_exception, create_instance, create_with_arguments, factory, built_in, query_interface, acquire, release, available_names, x_interface_name, exception_name, message_field, context_field};
ghost use Rattle.uno_model.specs.Entities as plain;
ghost use Rattle.uno_model.specs.Kinds as kd;
ghost use Rattle.uno_entities.specs.Entities.{entities_of, body_of, member_of, param_of, field_of, base_of};
ghost use Rattle.uno_entities.specs.Building.{derived, published, method_named, into_named, field_named, required_base};
ghost use Rattle.uno_entities.specs.TypeNames.{kind_of};

use crate::{Base, Body, Entity, Field, Member, Method, Name, Param, TypeName, Way};
use std::alloc::Global;
use uno_base::NoMemory;

/// The interface on which all others stand.
pub const X_INTERFACE: &str = "com.sun.star.uno.XInterface";

const EXCEPTION: &str = "com.sun.star.uno.Exception";

const RUNTIME_EXCEPTION: &str = "com.sun.star.uno.RuntimeException";

const DISPOSED_EXCEPTION: &str = "com.sun.star.lang.DisposedException";

const FACTORY: &str = "com.sun.star.lang.XMultiServiceFactory";

/// All of them, in rising order of their names.
pub fn built_in_entities(alloc: Global) -> Result<Vec<Entity>, NoMemory>
    ensures { IfOk result (λ es. entities_of es.items ≡ built_in) }
{
    let mut all = Vec::new(alloc);
    push_derived_exception(alloc, &mut all, DISPOSED_EXCEPTION, RUNTIME_EXCEPTION)?;
    push_factory(alloc, &mut all)?;
    push_exception(alloc, &mut all)?;
    push_derived_exception(alloc, &mut all, RUNTIME_EXCEPTION, EXCEPTION)?;
    push_interface(alloc, &mut all)?;
    Ok(all)
}

/// Adds the interface on which all others stand.
fn push_interface(alloc: Global, all: &mut Vec<Entity>) -> Result<(), NoMemory>
    ensures { OnOk result (entities_of all.new.items ≡ entities_of all.old.items ++ (x_interface ∷ [])) }
{
    let mut members = Vec::new(alloc);
    push_interface_members(alloc, &mut members)?;
    let bases = Vec::new(alloc);
    push_published(alloc, all, X_INTERFACE, Body::Interface { bases, members })
}

/// Adds its methods to a list that has none yet.
fn push_interface_members(alloc: Global, members: &mut Vec<Member>) -> Result<(), NoMemory>
    requires { members.old.items ≡ [] }
    ensures { OnOk result (map member_of members.new.items ≡ plain.method query_interface ∷ (plain.method acquire ∷ (plain.method release ∷ []))) }
{
    members.push(query_method(alloc)?)?;
    push_count_method(alloc, members, "acquire")?;
    push_count_method(alloc, members, "release")
}

fn query_method(alloc: Global) -> Result<Member, NoMemory>
    ensures { IfOk result (λ m. member_of m ≡ plain.method query_interface) }
{
    let params = one_param(alloc, "aType", TypeName::Kind)?;
    method(
        alloc,
        "queryInterface",
        TypeName::Any,
        params,
        Vec::new(alloc),
    )
}

/// Adds a method that counts up or down who holds the object.
fn push_count_method(alloc: Global, members: &mut Vec<Member>, name: &str) -> Result<(), NoMemory>
    ensures { OnOk result (map member_of members.new.items ≡ map member_of members.old.items ++ (plain.method (method_named name.now true kd.void [] []) ∷ [])) }
{
    let name = Name::of(alloc, name)?;
    members.push(Member::Method(Method {
        name,
        oneway: true,
        result: TypeName::Void,
        params: Vec::new(alloc),
        raises: Vec::new(alloc),
    }))?;
    Ok(())
}

/// Adds the exception from which all others are derived.
fn push_exception(alloc: Global, all: &mut Vec<Entity>) -> Result<(), NoMemory>
    ensures { OnOk result (entities_of all.new.items ≡ entities_of all.old.items ++ (base_exception ∷ [])) }
{
    let base = None;
    let mut members = Vec::new(alloc);
    push_exception_members(alloc, &mut members)?;
    push_published(alloc, all, EXCEPTION, Body::Exception { base, members })
}

/// Adds its members to a list that has none yet.
fn push_exception_members(alloc: Global, members: &mut Vec<Field>) -> Result<(), NoMemory>
    requires { members.old.items ≡ [] }
    ensures { OnOk result (map field_of members.new.items ≡ message_field ∷ (context_field ∷ [])) }
{
    push_field(alloc, members, "Message", TypeName::Str)?;
    push_field(alloc, members, "Context", root_type(alloc)?)
}

/// Adds an exception that has what its base has.
fn push_derived_exception(
    alloc: Global,
    all: &mut Vec<Entity>,
    name: &str,
    base: &str,
) -> Result<(), NoMemory>
    ensures { OnOk result (entities_of all.new.items ≡ entities_of all.old.items ++ (derived name.now base.now ∷ [])) }
{
    let base = Some(Name::of(alloc, base)?);
    let members = Vec::new(alloc);
    push_published(alloc, all, name, Body::Exception { base, members })
}

/// Adds the interface of what makes services.
fn push_factory(alloc: Global, all: &mut Vec<Entity>) -> Result<(), NoMemory>
    ensures { OnOk result (entities_of all.new.items ≡ entities_of all.old.items ++ (factory ∷ [])) }
{
    let bases = factory_bases(alloc)?;
    let mut members = Vec::new(alloc);
    push_factory_members(alloc, &mut members)?;
    push_published(alloc, all, FACTORY, Body::Interface { bases, members })
}

fn factory_bases(alloc: Global) -> Result<Vec<Base>, NoMemory>
    ensures { IfOk result (λ bs. map base_of bs.items ≡ required_base x_interface_name ∷ []) }
{
    let base = Base {
        optional: false,
        name: Name::of(alloc, X_INTERFACE)?,
    };
    Ok(vec![in alloc; base]?)
}

/// Adds its methods to a list that has none yet.
fn push_factory_members(alloc: Global, members: &mut Vec<Member>) -> Result<(), NoMemory>
    requires { members.old.items ≡ [] }
    ensures { OnOk result (map member_of members.new.items ≡ plain.method create_instance ∷ (plain.method create_with_arguments ∷ (plain.method available_names ∷ []))) }
{
    members.push(create_method(alloc)?)?;
    members.push(create_with_arguments_method(alloc)?)?;
    members.push(names_method(alloc)?)?;
    Ok(())
}

fn create_method(alloc: Global) -> Result<Member, NoMemory>
    ensures { IfOk result (λ m. member_of m ≡ plain.method create_instance) }
{
    let params = one_param(alloc, "aServiceSpecifier", TypeName::Str)?;
    creating_method(alloc, "createInstance", params)
}

fn create_with_arguments_method(alloc: Global) -> Result<Member, NoMemory>
    ensures { IfOk result (λ m. member_of m ≡ plain.method create_with_arguments) }
{
    let mut params = Vec::new(alloc);
    push_create_params(alloc, &mut params)?;
    creating_method(alloc, "createInstanceWithArguments", params)
}

/// Adds its parameters to a list that has none yet.
fn push_create_params(alloc: Global, params: &mut Vec<Param>) -> Result<(), NoMemory>
    requires { params.old.items ≡ [] }
    ensures { OnOk result (map param_of params.new.items ≡ into_named (codes "ServiceSpecifier") kd.str ∷ (into_named (codes "Arguments") (kd.sequence kd.any) ∷ [])) }
{
    push_param(alloc, params, "ServiceSpecifier", TypeName::Str)?;
    let kind = TypeName::sequence(alloc, TypeName::Any)?;
    push_param(alloc, params, "Arguments", kind)
}

/// A method that makes an object, or raises what any service may.
fn creating_method(alloc: Global, name: &str, params: Vec<Param>) -> Result<Member, NoMemory>
    ensures { IfOk result (λ m. member_of m ≡ plain.method (method_named name.now false (kd.interface x_interface_name) (map param_of params.items) (exception_name ∷ []))) }
{
    let raises = vec![in alloc; Name::of(alloc, EXCEPTION)?]?;
    let kind = root_type(alloc)?;
    method(alloc, name, kind, params, raises)
}

fn names_method(alloc: Global) -> Result<Member, NoMemory>
    ensures { IfOk result (λ m. member_of m ≡ plain.method available_names) }
{
    let kind = TypeName::sequence(alloc, TypeName::Str)?;
    method(
        alloc,
        "getAvailableServiceNames",
        kind,
        Vec::new(alloc),
        Vec::new(alloc),
    )
}

/// Adds a published entity.
fn push_published(
    alloc: Global,
    all: &mut Vec<Entity>,
    name: &str,
    body: Body,
) -> Result<(), NoMemory>
    ensures { OnOk result (entities_of all.new.items ≡ entities_of all.old.items ++ (published name.now (body_of body) ∷ [])) }
{
    let Ok(name) = Name::of(alloc, name) else {
        drop(body);
        return Err(NoMemory);
    };
    all.push(Entity {
        name,
        published: true,
        body,
    })?;
    Ok(())
}

/// A method whose answer is waited for.
fn method(
    alloc: Global,
    name: &str,
    kind: TypeName,
    params: Vec<Param>,
    raises: Vec<Name>,
) -> Result<Member, NoMemory>
    ensures { IfOk result (λ m. member_of m ≡ plain.method (method_named name.now false (kind_of kind) (map param_of params.items) raises.items)) }
{
    let Ok(name) = Name::of(alloc, name) else {
        drop(kind);
        return Err(NoMemory);
    };
    Ok(Member::Method(Method {
        name,
        oneway: false,
        result: kind,
        params,
        raises,
    }))
}

/// An `[in]` parameter alone.
fn one_param(alloc: Global, name: &str, kind: TypeName) -> Result<Vec<Param>, NoMemory>
    ensures { IfOk result (λ ps. map param_of ps.items ≡ into_named name.now (kind_of kind) ∷ []) }
{
    let mut params = Vec::new(alloc);
    push_param(alloc, &mut params, name, kind)?;
    Ok(params)
}

/// Adds an `[in]` parameter.
fn push_param(
    alloc: Global,
    params: &mut Vec<Param>,
    name: &str,
    kind: TypeName,
) -> Result<(), NoMemory>
    ensures { OnOk result (map param_of params.new.items ≡ map param_of params.old.items ++ (into_named name.now (kind_of kind) ∷ [])) }
{
    let Ok(name) = Name::of(alloc, name) else {
        drop(kind);
        return Err(NoMemory);
    };
    params.push(Param {
        way: Way::Into,
        name,
        kind,
    })?;
    Ok(())
}

/// Adds a member of an exception.
fn push_field(
    alloc: Global,
    members: &mut Vec<Field>,
    name: &str,
    kind: TypeName,
) -> Result<(), NoMemory>
    ensures { OnOk result (map field_of members.new.items ≡ map field_of members.old.items ++ (field_named name.now (kind_of kind) ∷ [])) }
{
    let Ok(name) = Name::of(alloc, name) else {
        drop(kind);
        return Err(NoMemory);
    };
    members.push(Field { name, kind })?;
    Ok(())
}

/// The type of any object.
fn root_type(alloc: Global) -> Result<TypeName, NoMemory>
    ensures { IfOk result (λ k. kind_of k ≡ kd.interface x_interface_name) }
{
    Ok(TypeName::Interface(Name::of(alloc, X_INTERFACE)?))
}
