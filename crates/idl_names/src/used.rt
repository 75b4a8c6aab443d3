//! The names that a declaration uses, from the front.
ghost use Rattle.std.specs.List.{flat_map};
ghost use Rattle.std.specs.Option.{option_to_list};
ghost use Rattle.std.specs.Prelude.{◌≡◌, ◌∷◌, ◌++◌, [], IfOk, OnOk, map, option_map};
ghost use Rattle.idl_meaning_model.specs.Uses as model;
ghost use Rattle.idl_model.specs.Trees as tree;
ghost use Rattle.idl_names.specs.Used.{AddsUsed, all_used_of, entities_used, values_used};
ghost use Rattle.idl_trees.specs.Expressions.{expr_of, operand_of, operands_of};
ghost use Rattle.idl_trees.specs.Members as plain;
ghost use Rattle.idl_trees.specs.Names.{path_of};
ghost use Rattle.idl_trees.specs.Trees.{declaration_of};
ghost use Rattle.idl_trees.specs.Types.{type_of};

use idl_trees::{
    Attribute, Constant, Constructor, ConstructorParameter, Declaration, Expr, Fields,
    InterfaceMember, Item, Method, Operand, Parameter, Path, ServiceMember, WrittenType,
};
use std::alloc::Global;
use uno_base::NoMemory;

/// A path that is to name an entity, or a constant or an item.
#[derive(Clone, Copy)]
pub enum Used<'a> {
    Entity(&'a Path),
    Value(&'a Path),
}

/// The names that a declaration uses.
pub fn used_in<'a>(alloc: Global, body: &'a Declaration) -> Result<Vec<Used<'a>>, NoMemory>
    ensures { IfOk result (λ used. all_used_of used.items ≡ model.used_in (declaration_of body.now)) }
{
    let mut used = Vec::new(alloc);
    add_declaration(&mut used, body)?;
    Ok(used)
}

/// The names that an expression uses.
pub fn names_in<'a>(alloc: Global, expr: &'a Expr) -> Result<Vec<Used<'a>>, NoMemory>
    ensures { IfOk result (λ used. all_used_of used.items ≡ values_used (model.expr_paths (expr_of expr.now))) }
{
    let mut used = Vec::new(alloc);
    add_expr(&mut used, expr)?;
    Ok(used)
}

#[tactic(auto, unfolding(idl_meaning_model::specs::Uses::used_in))]
fn add_declaration<'a>(used: &mut Vec<Used<'a>>, body: &'a Declaration) -> Result<(), NoMemory>
    ensures { OnOk result (AddsUsed used.old.items (model.used_in (declaration_of body.now)) used.new.items) }
{
    match body {
        Declaration::Forward => Ok(()),
        Declaration::Interface(base, members) => add_interface(used, base, members.as_slice()),
        Declaration::Struct(base, fields) => add_struct(used, base, fields.as_slice()),
        Declaration::Exception(base, fields) => add_struct(used, base, fields.as_slice()),
        Declaration::Enum(items) => add_items(used, items.as_slice()),
        Declaration::Constants(constants) => add_constants(used, constants.as_slice()),
        Declaration::Typedef(target) => add_type(used, target),
        Declaration::NewService(base, constructors) => {
            add_service(used, base, constructors.as_slice())
        }
        Declaration::OldService(members) => add_service_members(used, members.as_slice()),
        Declaration::NewSingleton(base) => add_entity(used, base),
        Declaration::OldSingleton(service) => add_entity(used, service),
    }
}

fn add_interface<'a>(
    used: &mut Vec<Used<'a>>,
    base: &'a Option<Path>,
    members: &'a [InterfaceMember],
) -> Result<(), NoMemory>
    ensures { OnOk result (AddsUsed used.old.items (entities_used (option_to_list (option_map path_of base.now) ++ flat_map model.member_paths (map plain.interface_member_of members.now))) used.new.items) }
{
    add_base(used, base)?;
    add_members(used, members)
}

fn add_struct<'a>(
    used: &mut Vec<Used<'a>>,
    base: &'a Option<Path>,
    fields: &'a [Fields],
) -> Result<(), NoMemory>
    ensures { OnOk result (AddsUsed used.old.items (entities_used (option_to_list (option_map path_of base.now) ++ flat_map (λ m. model.type_paths m.type) (map plain.fields_of fields.now))) used.new.items) }
{
    add_base(used, base)?;
    add_fields(used, fields)
}

fn add_service<'a>(
    used: &mut Vec<Used<'a>>,
    base: &'a Path,
    constructors: &'a [Constructor],
) -> Result<(), NoMemory>
    ensures { OnOk result (AddsUsed used.old.items (entities_used (path_of base.now ∷ flat_map model.constructor_paths (map plain.constructor_of constructors.now))) used.new.items) }
{
    add_entity(used, base)?;
    add_constructors(used, constructors)
}

// ---- one name

fn add_entity<'a>(used: &mut Vec<Used<'a>>, path: &'a Path) -> Result<(), NoMemory>
    ensures { OnOk result (AddsUsed used.old.items (entities_used (path_of path.now ∷ [])) used.new.items) }
{
    used.push(Used::Entity(path))?;
    Ok(())
}

fn add_value<'a>(used: &mut Vec<Used<'a>>, path: &'a Path) -> Result<(), NoMemory>
    ensures { OnOk result (AddsUsed used.old.items (values_used (path_of path.now ∷ [])) used.new.items) }
{
    used.push(Used::Value(path))?;
    Ok(())
}

fn add_base<'a>(used: &mut Vec<Used<'a>>, base: &'a Option<Path>) -> Result<(), NoMemory>
    ensures { OnOk result (AddsUsed used.old.items (entities_used (option_to_list (option_map path_of base.now))) used.new.items) }
{
    match base {
        Some(path) => add_entity(used, path),
        None => Ok(()),
    }
}

fn add_entities<'a>(used: &mut Vec<Used<'a>>, paths: &'a [Path]) -> Result<(), NoMemory>
    ensures { OnOk result (AddsUsed used.old.items (entities_used (map path_of paths.now)) used.new.items) }
{
    for path in paths {
        add_entity(used, path)?;
    }
    Ok(())
}

/// The type's own name; names of types stand in no others.
#[tactic(auto, unfolding(idl_meaning_model::specs::Uses::type_paths))]
fn add_type<'a>(used: &mut Vec<Used<'a>>, kind: &'a WrittenType) -> Result<(), NoMemory>
    ensures { OnOk result (AddsUsed used.old.items (entities_used (model.type_paths (type_of kind.now))) used.new.items) }
{
    match kind {
        WrittenType::Simple(_, _) => Ok(()),
        WrittenType::Named(path) => add_entity(used, path),
        WrittenType::SequenceOf(_, inner) => add_type(used, inner),
    }
}

// ---- expressions

#[cycle(expr)]
#[tactic(auto, unfolding(idl_meaning_model::specs::Uses::expr_paths))]
fn add_expr<'a>(used: &mut Vec<Used<'a>>, expr: &'a Expr) -> Result<(), NoMemory>
    ensures { OnOk result (AddsUsed used.old.items (values_used (model.expr_paths (expr_of expr.now))) used.new.items) }
{
    match expr {
        Expr::Number(_) => Ok(()),
        Expr::Truth(_) => Ok(()),
        Expr::Constant(path) => add_value(used, path),
        Expr::Parentheses(inner) => add_expr(used, inner),
        Expr::Signed(_, operand) => add_expr(used, operand),
        Expr::Chain(first, operands) => {
            add_expr(used, first)?;
            add_operands(used, operands.as_slice())
        }
    }
}

#[cycle(expr)]
fn add_operands<'a>(used: &mut Vec<Used<'a>>, operands: &'a [Operand]) -> Result<(), NoMemory>
    ensures { OnOk result (AddsUsed used.old.items (values_used (model.operand_paths (operands_of operands.now))) used.new.items) }
{
    for operand in operands {
        add_operand(used, operand)?;
    }
    Ok(())
}

#[cycle(expr)]
fn add_operand<'a>(used: &mut Vec<Used<'a>>, operand: &'a Operand) -> Result<(), NoMemory>
    ensures { OnOk result (AddsUsed used.old.items (values_used (model.expr_paths (operand_of operand.now).1)) used.new.items) }
{
    add_expr(used, &operand.value)
}

// ---- what stands in declarations

fn add_fields<'a>(used: &mut Vec<Used<'a>>, fields: &'a [Fields]) -> Result<(), NoMemory>
    ensures { OnOk result (AddsUsed used.old.items (entities_used (flat_map (λ m. model.type_paths m.type) (map plain.fields_of fields.now))) used.new.items) }
{
    for field in fields {
        add_type(used, &field.kind)?;
    }
    Ok(())
}

fn add_items<'a>(used: &mut Vec<Used<'a>>, items: &'a [Item]) -> Result<(), NoMemory>
    ensures { OnOk result (AddsUsed used.old.items (flat_map (λ i. flat_map model.value_paths (option_to_list i.value)) (map plain.item_of items.now)) used.new.items) }
{
    for item in items {
        add_item(used, item)?;
    }
    Ok(())
}

fn add_item<'a>(used: &mut Vec<Used<'a>>, item: &'a Item) -> Result<(), NoMemory>
    ensures { OnOk result (AddsUsed used.old.items (flat_map model.value_paths (option_to_list (option_map expr_of item.now.value))) used.new.items) }
{
    match &item.value {
        Some(value) => add_expr(used, value),
        None => Ok(()),
    }
}

fn add_constants<'a>(used: &mut Vec<Used<'a>>, constants: &'a [Constant]) -> Result<(), NoMemory>
    ensures { OnOk result (AddsUsed used.old.items (flat_map (λ c. entities_used (model.type_paths c.type) ++ model.value_paths c.value) (map plain.constant_of constants.now)) used.new.items) }
{
    for constant in constants {
        add_constant(used, constant)?;
    }
    Ok(())
}

fn add_constant<'a>(used: &mut Vec<Used<'a>>, constant: &'a Constant) -> Result<(), NoMemory>
    ensures { OnOk result (AddsUsed used.old.items (entities_used (model.type_paths (type_of constant.now.kind)) ++ values_used (model.expr_paths (expr_of constant.now.value))) used.new.items) }
{
    add_type(used, &constant.kind)?;
    add_expr(used, &constant.value)
}

// ---- members of interfaces

fn add_members<'a>(used: &mut Vec<Used<'a>>, members: &'a [InterfaceMember]) -> Result<(), NoMemory>
    ensures { OnOk result (AddsUsed used.old.items (entities_used (flat_map model.member_paths (map plain.interface_member_of members.now))) used.new.items) }
{
    for member in members {
        add_member(used, member)?;
    }
    Ok(())
}

fn add_member<'a>(used: &mut Vec<Used<'a>>, member: &'a InterfaceMember) -> Result<(), NoMemory>
    ensures { OnOk result (AddsUsed used.old.items (entities_used (model.member_paths (plain.interface_member_of member.now))) used.new.items) }
{
    match member {
        InterfaceMember::Base(base) => add_entity(used, &base.path),
        InterfaceMember::Attribute(attribute) => add_attribute(used, attribute),
        InterfaceMember::Method(method) => add_method(used, method),
    }
}

fn add_attribute<'a>(used: &mut Vec<Used<'a>>, attribute: &'a Attribute) -> Result<(), NoMemory>
    ensures { OnOk result (AddsUsed used.old.items (entities_used (model.member_paths (tree.attribute (plain.attribute_of attribute.now)))) used.new.items) }
{
    add_type(used, &attribute.kind)?;
    add_raised(used, &attribute.get)?;
    add_raised(used, &attribute.set)
}

/// What `get` or `set` raises, where it is written.
fn add_raised<'a>(used: &mut Vec<Used<'a>>, raised: &'a Option<Vec<Path>>) -> Result<(), NoMemory>
    ensures { OnOk result (AddsUsed used.old.items (entities_used (model.accessor_raises (option_map plain.paths_of raised.now))) used.new.items) }
{
    match raised {
        Some(paths) => add_entities(used, paths.as_slice()),
        None => Ok(()),
    }
}

fn add_method<'a>(used: &mut Vec<Used<'a>>, method: &'a Method) -> Result<(), NoMemory>
    ensures { OnOk result (AddsUsed used.old.items (entities_used (model.member_paths (tree.method (plain.method_of method.now)))) used.new.items) }
{
    add_type(used, &method.result)?;
    add_parameters(used, method.parameters.as_slice())?;
    add_entities(used, method.raises.as_slice())
}

fn add_parameters<'a>(used: &mut Vec<Used<'a>>, parameters: &'a [Parameter]) -> Result<(), NoMemory>
    ensures { OnOk result (AddsUsed used.old.items (entities_used (flat_map (λ p. model.type_paths p.type) (map plain.parameter_of parameters.now))) used.new.items) }
{
    for parameter in parameters {
        add_type(used, &parameter.kind)?;
    }
    Ok(())
}

// ---- members of services

fn add_constructors<'a>(
    used: &mut Vec<Used<'a>>,
    constructors: &'a [Constructor],
) -> Result<(), NoMemory>
    ensures { OnOk result (AddsUsed used.old.items (entities_used (flat_map model.constructor_paths (map plain.constructor_of constructors.now))) used.new.items) }
{
    for constructor in constructors {
        add_constructor(used, constructor)?;
    }
    Ok(())
}

fn add_constructor<'a>(
    used: &mut Vec<Used<'a>>,
    constructor: &'a Constructor,
) -> Result<(), NoMemory>
    ensures { OnOk result (AddsUsed used.old.items (entities_used (model.constructor_paths (plain.constructor_of constructor.now))) used.new.items) }
{
    add_constructor_parameters(used, constructor.parameters.as_slice())?;
    add_entities(used, constructor.raises.as_slice())
}

fn add_constructor_parameters<'a>(
    used: &mut Vec<Used<'a>>,
    parameters: &'a [ConstructorParameter],
) -> Result<(), NoMemory>
    ensures { OnOk result (AddsUsed used.old.items (entities_used (flat_map (λ p. model.type_paths p.type) (map plain.constructor_parameter_of parameters.now))) used.new.items) }
{
    for parameter in parameters {
        add_type(used, &parameter.kind)?;
    }
    Ok(())
}

fn add_service_members<'a>(
    used: &mut Vec<Used<'a>>,
    members: &'a [ServiceMember],
) -> Result<(), NoMemory>
    ensures { OnOk result (AddsUsed used.old.items (entities_used (flat_map model.service_paths (map plain.service_member_of members.now))) used.new.items) }
{
    for member in members {
        add_service_member(used, member)?;
    }
    Ok(())
}

fn add_service_member<'a>(
    used: &mut Vec<Used<'a>>,
    member: &'a ServiceMember,
) -> Result<(), NoMemory>
    ensures { OnOk result (AddsUsed used.old.items (entities_used (model.service_paths (plain.service_member_of member.now))) used.new.items) }
{
    match member {
        ServiceMember::Interface(part) => add_entity(used, &part.path),
        ServiceMember::Service(part) => add_entity(used, &part.path),
        ServiceMember::Property(property) => add_type(used, &property.kind),
    }
}
