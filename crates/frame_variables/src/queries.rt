//! What the answer to a query does.
ghost use Rattle.std.specs.Prelude.{◌≡◌, [], IfOk, if◌then◌else◌, option_map};
ghost use Rattle.plan_model.specs.Holdings.{is_taken, reference_of, takes_reference};
ghost use Rattle.plan_types.specs.Frames.{variables_of};
ghost use Rattle.uno_entities.specs.TypeNames.{kind_of};
ghost use Rattle.uno_model.specs.Sound.{IsSound};
ghost use Rattle.uno_model.specs.Values.{refs};
ghost use Rattle.uno_values.specs.References.{ref_of};
ghost use Rattle.uno_values.specs.Values.{plain_of};
ghost use Rattle.frame_variables.specs.Taking.{reference_inside, refs_of_rest, taken_with};

use crate::variables::add;
use bridge_setting::is_base_of;
use plan_types::Variable;
use uno_base::NoMemory;
use uno_types::{Name, Registry};
use uno_values::{AnyValue, Reference, Value};

/// The reference that a query found, and what it was answered where that is not taken.
#[derive(Drop)]
pub struct Found {
    pub reference: Reference,
    pub rest: Option<Value>,
}

/// The reference in an any whose type is assignable to the wanted one; null in the place of all else, which is given back.
pub fn sort_answer(registry: &Registry, wanted: &Name, answer: Value) -> Found
    requires { IsSound registry.now }
    ensures reference { ref_of result.reference ≡ reference_of registry.now wanted.now (plain_of answer) }
    ensures rest { refs_of_rest result.rest ≡ (if is_taken registry.now wanted.now (plain_of answer) then [] else refs (plain_of answer)) }
{
    if !is_taken(registry, wanted, &answer) {
        return Found {
            reference: Reference::Null,
            rest: Some(answer),
        };
    }
    Found {
        reference: reference_in(answer),
        rest: None,
    }
}

/// Whether an answer is an any with a reference, whose type is assignable to the wanted one.
fn is_taken(registry: &Registry, wanted: &Name, answer: &Value) -> bool
    requires { IsSound registry.now }
    ensures { result ≡ is_taken registry.now wanted.now (plain_of answer.now) }
{
    let Value::Any(any) = answer else {
        return false;
    };
    let Some(face) = any.kind.interface() else {
        return false;
    };
    let Value::Ref(_) = &any.value else {
        return false;
    };
    is_base_of(registry, wanted.as_str(), face.as_str())
}

/// The reference in an any.
fn reference_in(answer: Value) -> Reference
    ensures { ref_of result ≡ reference_inside (plain_of answer) }
{
    match answer.into_any() {
        Some(any) => {
            let AnyValue { kind, value } = Box::into_inner(any);
            drop(kind);
            value.into_reference()
        }
        None => Reference::Null,
    }
}

/// The reference that a query found becomes a variable; the value is given whose references are let go for that.
#[tactic(auto, unfolding(plan_model::specs::Holdings::takes_reference))]
pub fn take_reference(
    registry: &Registry,
    wanted: &Name,
    to: Name,
    answer: Value,
    variables: &mut Vec<Variable>,
) -> Result<Option<Value>, NoMemory>
    requires { IsSound registry.now }
    ensures { IfOk result (λ rest. taken_with variables.new.items rest ≡ takes_reference registry.now wanted.now to (plain_of answer) (variables_of variables.old.items)) }
{
    let Found { reference, rest } = sort_answer(registry, wanted, answer);
    match add(variables, to, Value::Ref(reference)) {
        Ok(()) => Ok(rest),
        Err(error) => {
            drop(rest);
            Err(error)
        }
    }
}
