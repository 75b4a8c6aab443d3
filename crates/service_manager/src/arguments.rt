//! Which constructor takes arguments, and what its parameters take of them.
ghost use Rattle.std.specs.Prelude.{◌≡◌, ◌↔◌, IsTrue, IsSome, IfOk, OnOk, None, Some, is_some, cond, map, MatchOption};
ghost use Rattle.uno_model.specs.Codes.{same_kind};
ghost use Rattle.uno_model.specs.Kinds as kd;
ghost use Rattle.uno_model.specs.Sound.{IsSound};
ghost use Rattle.uno_model.specs.Values.{list, plains};
ghost use Rattle.plan_model.specs.Services.{content_of, rest_filled, first_filled};
ghost use Rattle.plan_types.specs.Frames.{variable_of, variables_of};
ghost use Rattle.uno_entities.specs.Entities.{field_of, constructor_of};
ghost use Rattle.uno_entities.specs.TypeNames.{kind_of};
ghost use Rattle.uno_values.specs.Values.{plain_of, plains_of};
ghost use Rattle.service_manager.specs.Arguments.{takes, taken, all_taken, given, behind, IsFirstTaking};

use plan_types::Variable;
use std::alloc::Global;
use uno_base::NoMemory;
use uno_types::{Constructor, Field, Name, Registry, TypeName};
use uno_values::{Value, fits};

/// The first constructor that takes the arguments.
pub fn first_taking<'a>(
    registry: &Registry,
    constructors: &'a [Constructor],
    args: &[Value],
) -> Option<&'a Constructor>
    requires { IsSound registry.now }
    ensures { MatchOption result (first_filled registry.now (map constructor_of constructors.now) (map plain_of args.now) ≡ None) (λ c. IsFirstTaking registry.now (map constructor_of constructors.now) (map plain_of args.now) (constructor_of c.now)) }
{
    for constructor in constructors {
        if takes_all(registry, constructor, args) {
            return Some(constructor);
        }
    }
    None
}

/// Whether a constructor takes the arguments.
fn takes_all(registry: &Registry, constructor: &Constructor, args: &[Value]) -> bool
    requires { IsSound registry.now }
    ensures { result ≡ is_some (given registry.now (constructor_of constructor.now) (map plain_of args.now)) }
{
    let mut left = args;
    for param in &constructor.params {
        let Some((arg, others)) = left.split_first() else {
            return false
        };
        if !takes(registry, param, arg) {
            return false;
        }
        left = others;
    }
    takes_rest(&constructor.rest, left)
}

/// Whether there is a rest parameter for what is left of the arguments, or nothing is left.
fn takes_rest(rest: &Option<Name>, left: &[Value]) -> bool
    ensures { result ≡ is_some (rest_filled rest.now (map plain_of left.now)) }
{
    if left.is_empty() {
        return true;
    }
    rest.is_some()
}

/// Whether a parameter takes an argument.
fn takes(registry: &Registry, param: &Field, arg: &Value) -> bool
    requires { IsSound registry.now }
    ensures { result ≡ takes registry.now (field_of param.now) (plain_of arg.now) }
{
    if is_any(&param.kind) {
        return true;
    }
    fits(registry, content(arg), &param.kind)
}

/// Whether it is the type any.
fn is_any(kind: &TypeName) -> bool
    ensures { IsTrue result ↔ (kind_of kind.now ≡ kd.any) }
{
    kind.is(&TypeName::Any)
}

/// What an any holds; another value itself.
fn content(value: &Value) -> &Value
    ensures { plain_of result.now ≡ content_of (plain_of value.now) }
{
    let Value::Any(any) = value else { return value };
    &any.value
}

/// What the parameters of a constructor take of the arguments.
pub fn given(
    alloc: Global,
    constructor: &Constructor,
    args: &[Value],
) -> Result<Vec<Variable>, NoMemory>
    requires { IsSome (all_taken (map field_of constructor.now.params.items) constructor.now.rest (map plain_of args.now)) }
    ensures { IfOk result (λ xs. all_taken (map field_of constructor.now.params.items) constructor.now.rest (map plain_of args.now) ≡ Some (variables_of xs.items)) }
{
    let mut variables = Vec::new(alloc);
    let mut left = args;
    for param in &constructor.params {
        let Some((arg, others)) = left.split_first() else {
            unreachable!()
        };
        variables.push(taken(alloc, param, arg)?)?;
        left = others;
    }
    push_rest(alloc, &mut variables, &constructor.rest, left)?;
    Ok(variables)
}

/// What a parameter takes of an argument that it takes.
fn taken(alloc: Global, param: &Field, arg: &Value) -> Result<Variable, NoMemory>
    ensures { IfOk result (λ x. variable_of x ≡ taken (field_of param.now) (plain_of arg.now)) }
{
    let name = param.name.copy()?;
    let value = whole_or_content(&param.kind, arg).copy(alloc)?;
    Ok(Variable { name, value })
}

/// An argument itself for a parameter of the type any, what it holds for another one.
fn whole_or_content<'a>(kind: &TypeName, arg: &'a Value) -> &'a Value
    ensures { plain_of result.now ≡ cond (same_kind (kind_of kind.now) kd.any) (plain_of arg.now) (content_of (plain_of arg.now)) }
{
    if is_any(kind) {
        return arg;
    }
    content(arg)
}

/// Adds the rest parameter with what is left of the arguments.
fn push_rest(
    alloc: Global,
    variables: &mut Vec<Variable>,
    rest: &Option<Name>,
    left: &[Value],
) -> Result<(), NoMemory>
    requires { IsSome (rest_filled rest.now (map plain_of left.now)) }
    ensures { OnOk result (behind (variables_of variables.old.items) (rest_filled rest.now (map plain_of left.now)) ≡ Some (variables_of variables.new.items)) }
{
    let Some(name) = rest else { return Ok(()) };
    let name = name.copy()?;
    let value = list_of_anys(alloc, left)?;
    variables.push(Variable { name, value })?;
    Ok(())
}

/// The sequence of anys that has equal ones.
fn list_of_anys(alloc: Global, anys: &[Value]) -> Result<Value, NoMemory>
    ensures { IfOk result (λ v. plain_of v ≡ list kd.any (plains_of anys.now)) }
{
    let mut copies = Vec::new(alloc);
    for any in anys {
        copies.push(any.copy(alloc)?)?;
    }
    Ok(Value::List(TypeName::Any, copies))
}
