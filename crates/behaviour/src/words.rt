//! What words stand for.
ghost use Rattle.std.specs.Prelude.{◌≡◌, IfOk};
ghost use Rattle.plan_model.specs.Evaluation.{value_under, value_of_word};
ghost use Rattle.plan_types.specs.Expressions.{word_of};
ghost use Rattle.plan_types.specs.Frames.{variables_of};
ghost use Rattle.uno_values.specs.References.{ref_of};
ghost use Rattle.uno_values.specs.Values.{plain_of};
ghost use Rattle.behaviour.specs.Running.{scene_of, value_or_void};

use crate::running::Scene;
use plan_types::{Variable, Word};
use std::alloc::Global;
use uno_base::NoMemory;
use uno_types::Name;
use uno_values::{Reference, Value};

/// The value under a name, where one is there.
pub(crate) fn value_under<'a>(name: &Name, variables: &'a [Variable]) -> Option<&'a Value>
    ensures { value_or_void result ≡ value_under name.now (variables_of variables.now) }
{
    for variable in variables {
        if name.as_str() == variable.name.as_str() {
            return Some(&variable.value);
        }
    }
    None
}

/// A copy of the value under a name; a name that is not there is as one of type void.
pub(crate) fn copy_under(
    alloc: Global,
    name: &Name,
    variables: &[Variable],
) -> Result<Value, NoMemory>
    ensures { IfOk result (λ x. plain_of x ≡ value_under name.now (variables_of variables.now)) }
{
    copy_of(alloc, value_under(name, variables))
}

/// A copy of a value; one that is not there is as one of type void.
pub(crate) fn copy_of(alloc: Global, value: Option<&Value>) -> Result<Value, NoMemory>
    ensures { IfOk result (λ x. plain_of x ≡ value_or_void value.entry) }
{
    match value {
        Some(value) => value.copy(alloc),
        None => Ok(Value::Void),
    }
}

/// A copy of what a word stands for.
pub(crate) fn value_of_word(alloc: Global, scene: Scene, word: &Word) -> Result<Value, NoMemory>
    ensures { IfOk result (λ x. plain_of x ≡ value_of_word (scene_of scene.entry) (word_of word.now)) }
{
    match word {
        Word::Variable(name) => copy_of(alloc, scene.variables.get(name)),
        Word::Field(name) => copy_under(alloc, name, scene.fields),
        Word::Own => Ok(Value::Ref(own_object(scene)?)),
    }
}

/// The own object.
pub(crate) fn own_object(scene: Scene) -> Result<Reference, NoMemory>
    ensures { IfOk result (λ r. ref_of r ≡ (scene_of scene.entry).own) }
{
    scene.own.copy()
}
