//! The lists of names that a declaration has by itself: of members, parameters, items, constants, constructors and properties.
ghost use Rattle.std.specs.List.{flat_map};
ghost use Rattle.std.specs.Prelude.{◌++◌, ◌∷◌, [], OnOk, map};
ghost use Rattle.idl_repeated_names.specs.Meeting.{Asks, Meets, arguments_named, at_id, member_named, own_lists, parameters_named, property_named};
ghost use Rattle.idl_trees.specs.Members.{constant_of, constructor_of, constructor_parameter_of, interface_member_of, item_of, parameter_of, service_member_of};
ghost use Rattle.idl_trees.specs.Trees.{declaration_of};

use crate::own::meet_id;
use crate::twins::Twins;
use idl_trees::{
    Constant, Constructor, ConstructorParameter, Declaration, InterfaceMember, Item, Parameter,
    ServiceMember,
};
use uno_base::NoMemory;

/// Asks the lists of a declaration, each for itself.
pub(crate) fn ask_own<'a>(twins: &mut Twins<'a>, body: &'a Declaration) -> Result<(), NoMemory>
    ensures { OnOk result (Asks twins.old twins.new (own_lists (declaration_of body.now))) }
{
    match body {
        Declaration::Interface(_, members) => ask_interface(twins, members.as_slice()),
        Declaration::Enum(items) => ask_items(twins, items.as_slice()),
        Declaration::Constants(constants) => ask_constants(twins, constants.as_slice()),
        Declaration::NewService(_, constructors) => ask_service(twins, constructors.as_slice()),
        Declaration::OldService(members) => ask_properties(twins, members.as_slice()),
        Declaration::Forward => Ok(()),
        Declaration::Struct(_, _) => Ok(()),
        Declaration::Exception(_, _) => Ok(()),
        Declaration::Typedef(_) => Ok(()),
        Declaration::NewSingleton(_) => Ok(()),
        Declaration::OldSingleton(_) => Ok(()),
    }
}

// ---- interfaces

fn ask_interface<'a>(twins: &mut Twins<'a>, members: &'a [InterfaceMember]) -> Result<(), NoMemory>
    ensures { OnOk result (Asks twins.old twins.new ((flat_map member_named (map interface_member_of members.now) ∷ []) ++ map parameters_named (map interface_member_of members.now))) }
{
    ask_members(twins, members)?;
    ask_methods(twins, members)?;
    Ok(())
}

fn ask_members<'a>(twins: &mut Twins<'a>, members: &'a [InterfaceMember]) -> Result<(), NoMemory>
    ensures { OnOk result (Asks twins.old twins.new (flat_map member_named (map interface_member_of members.now) ∷ [])) }
{
    twins.forget();
    meet_members(twins, members)?;
    twins.count_met();
    Ok(())
}

fn meet_members<'a>(twins: &mut Twins<'a>, members: &'a [InterfaceMember]) -> Result<(), NoMemory>
    ensures { OnOk result (Meets twins.old twins.new (flat_map member_named (map interface_member_of members.now))) }
{
    for member in members {
        meet_member(twins, member)?;
    }
    Ok(())
}

fn meet_member<'a>(twins: &mut Twins<'a>, member: &'a InterfaceMember) -> Result<(), NoMemory>
    ensures { OnOk result (Meets twins.old twins.new (member_named (interface_member_of member.now))) }
{
    match member {
        InterfaceMember::Base(_) => Ok(()),
        InterfaceMember::Attribute(attribute) => meet_id(twins, &attribute.name),
        InterfaceMember::Method(method) => meet_id(twins, &method.name),
    }
}

fn ask_methods<'a>(twins: &mut Twins<'a>, members: &'a [InterfaceMember]) -> Result<(), NoMemory>
    ensures { OnOk result (Asks twins.old twins.new (map parameters_named (map interface_member_of members.now))) }
{
    for member in members {
        ask_method(twins, member)?;
    }
    Ok(())
}

fn ask_method<'a>(twins: &mut Twins<'a>, member: &'a InterfaceMember) -> Result<(), NoMemory>
    ensures { OnOk result (Asks twins.old twins.new (parameters_named (interface_member_of member.now) ∷ [])) }
{
    twins.forget();
    meet_parameters_in(twins, member)?;
    twins.count_met();
    Ok(())
}

fn meet_parameters_in<'a>(
    twins: &mut Twins<'a>,
    member: &'a InterfaceMember,
) -> Result<(), NoMemory>
    ensures { OnOk result (Meets twins.old twins.new (parameters_named (interface_member_of member.now))) }
{
    match member {
        InterfaceMember::Method(method) => meet_parameters(twins, method.parameters.as_slice()),
        InterfaceMember::Base(_) => Ok(()),
        InterfaceMember::Attribute(_) => Ok(()),
    }
}

fn meet_parameters<'a>(twins: &mut Twins<'a>, parameters: &'a [Parameter]) -> Result<(), NoMemory>
    ensures { OnOk result (Meets twins.old twins.new (map (λ p. at_id p.name) (map parameter_of parameters.now))) }
{
    for parameter in parameters {
        meet_id(twins, &parameter.name)?;
    }
    Ok(())
}

// ---- enums and groups of constants

fn ask_items<'a>(twins: &mut Twins<'a>, items: &'a [Item]) -> Result<(), NoMemory>
    ensures { OnOk result (Asks twins.old twins.new (map (λ i. at_id i.name) (map item_of items.now) ∷ [])) }
{
    twins.forget();
    meet_items(twins, items)?;
    twins.count_met();
    Ok(())
}

fn meet_items<'a>(twins: &mut Twins<'a>, items: &'a [Item]) -> Result<(), NoMemory>
    ensures { OnOk result (Meets twins.old twins.new (map (λ i. at_id i.name) (map item_of items.now))) }
{
    for item in items {
        meet_id(twins, &item.name)?;
    }
    Ok(())
}

fn ask_constants<'a>(twins: &mut Twins<'a>, constants: &'a [Constant]) -> Result<(), NoMemory>
    ensures { OnOk result (Asks twins.old twins.new (map (λ c. at_id c.name) (map constant_of constants.now) ∷ [])) }
{
    twins.forget();
    meet_constants(twins, constants)?;
    twins.count_met();
    Ok(())
}

fn meet_constants<'a>(twins: &mut Twins<'a>, constants: &'a [Constant]) -> Result<(), NoMemory>
    ensures { OnOk result (Meets twins.old twins.new (map (λ c. at_id c.name) (map constant_of constants.now))) }
{
    for constant in constants {
        meet_id(twins, &constant.name)?;
    }
    Ok(())
}

// ---- services

fn ask_service<'a>(twins: &mut Twins<'a>, constructors: &'a [Constructor]) -> Result<(), NoMemory>
    ensures { OnOk result (Asks twins.old twins.new ((map (λ c. at_id c.name) (map constructor_of constructors.now) ∷ []) ++ map arguments_named (map constructor_of constructors.now))) }
{
    ask_constructors(twins, constructors)?;
    ask_each_constructor(twins, constructors)?;
    Ok(())
}

fn ask_constructors<'a>(
    twins: &mut Twins<'a>,
    constructors: &'a [Constructor],
) -> Result<(), NoMemory>
    ensures { OnOk result (Asks twins.old twins.new (map (λ c. at_id c.name) (map constructor_of constructors.now) ∷ [])) }
{
    twins.forget();
    meet_constructors(twins, constructors)?;
    twins.count_met();
    Ok(())
}

fn meet_constructors<'a>(
    twins: &mut Twins<'a>,
    constructors: &'a [Constructor],
) -> Result<(), NoMemory>
    ensures { OnOk result (Meets twins.old twins.new (map (λ c. at_id c.name) (map constructor_of constructors.now))) }
{
    for constructor in constructors {
        meet_id(twins, &constructor.name)?;
    }
    Ok(())
}

fn ask_each_constructor<'a>(
    twins: &mut Twins<'a>,
    constructors: &'a [Constructor],
) -> Result<(), NoMemory>
    ensures { OnOk result (Asks twins.old twins.new (map arguments_named (map constructor_of constructors.now))) }
{
    for constructor in constructors {
        ask_arguments(twins, constructor.parameters.as_slice())?;
    }
    Ok(())
}

fn ask_arguments<'a>(
    twins: &mut Twins<'a>,
    arguments: &'a [ConstructorParameter],
) -> Result<(), NoMemory>
    ensures { OnOk result (Asks twins.old twins.new (map (λ p. at_id p.name) (map constructor_parameter_of arguments.now) ∷ [])) }
{
    twins.forget();
    meet_arguments(twins, arguments)?;
    twins.count_met();
    Ok(())
}

fn meet_arguments<'a>(
    twins: &mut Twins<'a>,
    arguments: &'a [ConstructorParameter],
) -> Result<(), NoMemory>
    ensures { OnOk result (Meets twins.old twins.new (map (λ p. at_id p.name) (map constructor_parameter_of arguments.now))) }
{
    for argument in arguments {
        meet_id(twins, &argument.name)?;
    }
    Ok(())
}

fn ask_properties<'a>(twins: &mut Twins<'a>, members: &'a [ServiceMember]) -> Result<(), NoMemory>
    ensures { OnOk result (Asks twins.old twins.new (flat_map property_named (map service_member_of members.now) ∷ [])) }
{
    twins.forget();
    meet_properties(twins, members)?;
    twins.count_met();
    Ok(())
}

fn meet_properties<'a>(twins: &mut Twins<'a>, members: &'a [ServiceMember]) -> Result<(), NoMemory>
    ensures { OnOk result (Meets twins.old twins.new (flat_map property_named (map service_member_of members.now))) }
{
    for member in members {
        meet_property(twins, member)?;
    }
    Ok(())
}

fn meet_property<'a>(twins: &mut Twins<'a>, member: &'a ServiceMember) -> Result<(), NoMemory>
    ensures { OnOk result (Meets twins.old twins.new (property_named (service_member_of member.now))) }
{
    match member {
        ServiceMember::Property(property) => meet_id(twins, &property.name),
        ServiceMember::Interface(_) => Ok(()),
        ServiceMember::Service(_) => Ok(()),
    }
}
