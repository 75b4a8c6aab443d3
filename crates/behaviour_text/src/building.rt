//! What stands behind a line that is not wrong.
ghost use Rattle.std.specs.Prelude.{◌≡◌, ◌++◌, ◌∷◌, [], Some, map, option_map, IfOk, OnOk};
ghost use Rattle.message_model.specs.Calls.{comes};
ghost use Rattle.plan_model.specs.Building.{opens_behaviour, opens_method, with_field, closes, with_service, with_singleton, with_export};
ghost use Rattle.plan_model.specs.Contexts as plain;
ghost use Rattle.plan_model.specs.Contexts.{behaviour_number, declared_function, parameters};
ghost use Rattle.plan_model.specs.Contexts.{in_thread};
ghost use Rattle.uno_model.specs.NamedTypes.{type_of_text};
ghost use Rattle.uno_model.specs.Sound.{IsSound};
ghost use Rattle.plan_types.specs.Plans.{behaviour_of, method_of, offer_of, export_of, plan_of};
ghost use Rattle.plan_types.specs.Statements.{root_statement_of};
ghost use Rattle.type_registry.specs.Functions.{function_of, lent_function};
ghost use Rattle.uno_entities.specs.Entities.{field_of, param_of};
ghost use Rattle.uno_entities.specs.TypeNames.{kind_of};
ghost use Rattle.plan_lines.specs.Lines.{declared_of};
ghost use Rattle.plan_checks.specs.Contexts.{block_of, context_of, open_of};
ghost use Rattle.behaviour_text.specs.Steps.{block_with_field, entered, with_behaviour, with_method, with_thread};
ghost use Rattle.plan_checks.specs.Variables.{scoped_of};

use plan_checks::{
    Block, Context, Fields, OpenBehaviour, OpenMethod, Scope, Scoped, declared_function, type_named,
};
use plan_lines::Declared;
use plan_types::{Behaviour, Method, Offer, RootStatement};
use std::alloc::Global;
use std::mem;
use type_registry::Function;
use uno_base::NoMemory;
use uno_entities::copy_names;
use uno_types::{Field, Name, Param, Registry, TypeName, Way};

/// The block of a behaviour begins.
pub(crate) fn open_behaviour(
    alloc: Global,
    context: &mut Context,
    name: &Name,
    faces: &[Name],
) -> Result<(), NoMemory>
    ensures { OnOk result (context_of context.new ≡ opens_behaviour name.now faces.now (context_of context.old)) }
{
    let behaviour = behaviour_of(alloc, name, faces)?;
    set_block(context, Block::Behaviour(behaviour));
    Ok(())
}

/// Another block is open from here on.
fn set_block(context: &mut Context, block: Block)
    ensures { context_of context.new ≡ record (context_of context.old) { block = block_of block } }
{
    context.block = block;
}

/// The same, with other variables.
fn begin(context: &mut Context, block: Block, variables: Scope)
    ensures { context_of context.new ≡ record (context_of context.old) { block = block_of block; variables = variables } }
{
    set_block(context, block);
    context.variables = variables;
}

/// A behaviour of which nothing else is read.
fn behaviour_of(alloc: Global, name: &Name, faces: &[Name]) -> Result<OpenBehaviour, NoMemory>
    ensures { IfOk result (λ b. open_of b ≡ record { name = name.now; faces = faces.now; fields = []; methods = [] }) }
{
    let name = name.copy()?;
    let faces = copy_names(alloc, faces)?;
    Ok(OpenBehaviour {
        name,
        faces,
        fields: Fields::new(alloc),
        methods: Vec::new(alloc),
    })
}

/// A field more of the open behaviour.
pub(crate) fn add_field(
    alloc: Global,
    registry: &Registry,
    context: &mut Context,
    declared: &Declared,
) -> Result<(), NoMemory>
    requires { IsSound registry.now }
    ensures { OnOk result (context_of context.new ≡ with_field (context_of context.old).block declared.now.name (type_of_text registry.now declared.now.kind) (context_of context.old)) }
{
    match type_named(alloc, registry, &declared.kind)? {
        Some(kind) => push_named(alloc, &mut context.block, &declared.name, kind),
        None => Ok(()),
    }
}

fn push_named(alloc: Global, block: &mut Block, name: &Name, kind: TypeName) -> Result<(), NoMemory>
    ensures { OnOk result (block_of block.new ≡ block_with_field (record { name = name.now; kind = kind_of kind }) (block_of block.old)) }
{
    let name = name.copy()?;
    push_field(alloc, block, Field { name, kind })
}

fn push_field(alloc: Global, block: &mut Block, field: Field) -> Result<(), NoMemory>
    ensures { OnOk result (block_of block.new ≡ block_with_field (field_of field) (block_of block.old)) }
{
    match block {
        Block::Behaviour(behaviour) => behaviour.fields.push(alloc, field),
        _ => {
            drop(field);
            Ok(())
        }
    }
}

/// The block of a method begins.
pub(crate) fn open_method(
    alloc: Global,
    registry: &Registry,
    context: &mut Context,
    face: &Name,
    function: &Name,
) -> Result<(), NoMemory>
    ensures { OnOk result (context_of context.new ≡ opens_method (context_of context.old).block face.now function.now (declared_function registry.now face.now function.now) (context_of context.old)) }
{
    match declared_function(registry, face.as_str(), function.as_str()) {
        Some(found) => open_with(alloc, context, face, function, found.copy(alloc)?),
        None => Ok(()),
    }
}

fn open_with(
    alloc: Global,
    context: &mut Context,
    face: &Name,
    name: &Name,
    function: Function,
) -> Result<(), NoMemory>
    ensures { OnOk result (context_of context.new ≡ opens_method (context_of context.old).block face.now name.now (Some (function_of function)) (context_of context.old)) }
{
    let method = method_of(alloc, face, name)?;
    let variables = parameters(alloc, &function.params)?;
    enter(context, OpenMethod { method, function }, variables);
    Ok(())
}

/// The parameters of a function as variables.
fn parameters(alloc: Global, params: &[Param]) -> Result<Scope, NoMemory>
    ensures { IfOk result (λ scope. scope ≡ parameters (map param_of params.now)) }
{
    let mut variables = Scope::new(alloc);
    for param in params {
        variables.push(parameter(alloc, param)?)?;
    }
    Ok(variables)
}

#[tactic(auto, unfolding(plan_model::specs::Contexts::parameters))]
fn parameter(alloc: Global, param: &Param) -> Result<Scoped, NoMemory>
    ensures { IfOk result (λ x. scoped_of x ∷ [] ≡ parameters (param_of param.now ∷ [])) }
{
    let name = param.name.copy()?;
    let kind = param.kind.copy(alloc)?;
    Ok(Scoped {
        name,
        kind,
        comes_out: comes(param.way),
    })
}

/// Whether the value of a parameter comes out.
fn comes(way: Way) -> bool
    ensures { result ≡ comes way }
{
    match way {
        Way::Into => false,
        Way::Out | Way::Both => true,
    }
}

/// A method of which no statement is read.
fn method_of(alloc: Global, face: &Name, name: &Name) -> Result<Method, NoMemory>
    ensures { IfOk result (λ method. method_of method ≡ record { face = face.now; function = name.now; body = [] }) }
{
    let face = face.copy()?;
    let function = name.copy()?;
    Ok(Method {
        face,
        function,
        body: Vec::new(alloc),
    })
}

/// The block of the method in the open behaviour, with the variables that it begins with.
fn enter(context: &mut Context, opened: OpenMethod, variables: Scope)
    ensures { context_of context.new ≡ entered (method_of opened.method) (function_of opened.function) variables (context_of context.old) }
{
    match mem::replace(&mut context.block, Block::Top) {
        Block::Behaviour(behaviour) => begin(context, Block::Method(behaviour, opened), variables),
        other => set_block(context, other),
    }
}

/// The block of a root begins.
pub(crate) fn open_thread(alloc: Global, context: &mut Context)
    ensures { context_of context.new ≡ record (context_of context.old) { block = in_thread []; variables = [] } }
{
    begin(context, Block::Thread(Vec::new(alloc)), Scope::new(alloc));
}

/// The open block ends.
pub(crate) fn close(alloc: Global, context: &mut Context) -> Result<(), NoMemory>
    ensures { OnOk result (context_of context.new ≡ closes (context_of context.old).block (context_of context.old)) }
{
    match mem::replace(&mut context.block, Block::Top) {
        Block::Behaviour(behaviour) => close_behaviour(context, behaviour),
        Block::Method(behaviour, opened) => close_method(alloc, context, behaviour, opened),
        Block::Thread(statements) => close_thread(alloc, context, statements),
        Block::Top => Ok(()),
    }
}

fn close_behaviour(context: &mut Context, behaviour: OpenBehaviour) -> Result<(), NoMemory>
    ensures { OnOk result (context_of context.new ≡ with_behaviour (open_of behaviour) (context_of context.old)) }
{
    context.plan.behaviours.push(whole(behaviour))?;
    Ok(())
}

fn whole(behaviour: OpenBehaviour) -> Behaviour
    ensures { behaviour_of result ≡ open_of behaviour }
{
    let OpenBehaviour {
        name,
        faces,
        fields,
        methods,
    } = behaviour;
    Behaviour {
        name,
        faces,
        fields: fields.into_vec(),
        methods,
    }
}

fn close_method(
    alloc: Global,
    context: &mut Context,
    behaviour: OpenBehaviour,
    opened: OpenMethod,
) -> Result<(), NoMemory>
    ensures { OnOk result (context_of context.new ≡ with_method (open_of behaviour) (method_of opened.method) (context_of context.old)) }
{
    let OpenMethod { method, function } = opened;
    drop(function);
    let behaviour = with_method(behaviour, method)?;
    begin(context, Block::Behaviour(behaviour), Scope::new(alloc));
    Ok(())
}

fn with_method(behaviour: OpenBehaviour, method: Method) -> Result<OpenBehaviour, NoMemory>
    ensures { IfOk result (λ b. open_of b ≡ record (open_of behaviour) { methods = (open_of behaviour).methods ++ method_of method ∷ [] }) }
{
    let mut behaviour = behaviour;
    behaviour.methods.push(method)?;
    Ok(behaviour)
}

fn close_thread(
    alloc: Global,
    context: &mut Context,
    statements: Vec<RootStatement>,
) -> Result<(), NoMemory>
    ensures { OnOk result (context_of context.new ≡ with_thread (map root_statement_of statements.items) (context_of context.old)) }
{
    context.plan.threads.push(statements)?;
    context.variables = Scope::new(alloc);
    Ok(())
}
