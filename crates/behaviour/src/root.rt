//! A root in progress, and what its words stand for.
ghost use Rattle.std.specs.Prelude.{◌≡◌, IfOk, map, option_map};
ghost use Rattle.plan_model.specs.Calling.{given_values, object_of};
ghost use Rattle.plan_model.specs.Evaluation.{value_of_word};
ghost use Rattle.plan_model.specs.Roots.{opening_run};
ghost use Rattle.plan_types.specs.Expressions.{argument_of, word_of};
ghost use Rattle.plan_types.specs.Frames.{variables_of};
ghost use Rattle.named_variables.specs.Threads.{all_of};
ghost use Rattle.uno_values.specs.Values.{plain_of};
ghost use Rattle.behaviour.specs.Calling.{target_of};
ghost use Rattle.behaviour.specs.Roots.{run_of};
ghost use Rattle.behaviour.specs.Running.{root_scene, scene_of};

use crate::calling::given_values;
use crate::running::{Scene, Target, Variables};
use crate::target::object_of_word;
use named_variables::ThreadVariables;
use plan_types::{Argument, Word};
use std::alloc::Global;
use std::collections::VecDeque;
use uno_base::NoMemory;
use uno_types::Text;
use uno_values::{Reference, Value};

/// A root by its number from 1, the place of its next statement, its variables in the order in which they began, its lines so far, the name that it asks
/// for as the instance, the values that it holds and no longer names, and what is left of the references of one before them.
#[derive(Drop)]
pub struct RootRun {
    pub root: u32,
    pub place: u32,
    pub variables: ThreadVariables,
    pub lines: Vec<Text>,
    pub instance: Text,
    pub loose: Vec<Value>,
    pub letting: VecDeque<Reference>,
}

impl RootRun {
    /// A root at its beginning.
    #[tactic(auto, unfolding(plan_model::specs::Roots::opening_run))]
    pub fn new(alloc: Global, root: u32, instance: Text) -> RootRun
        ensures { run_of result ≡ opening_run root instance }
    {
        RootRun {
            root,
            place: 0,
            variables: ThreadVariables::new(alloc),
            lines: Vec::new(alloc),
            instance,
            loose: Vec::new(alloc),
            letting: VecDeque::new(alloc),
        }
    }
}

/// The object that a word of a root stands for. A root has no fields and no own object.
pub fn root_target<'a>(variables: &'a ThreadVariables, word: &Word) -> Target<'a>
    ensures { target_of result ≡ object_of (value_of_word (root_scene (variables_of (all_of variables.entry.now))) (word_of word.now)) }
{
    object_of_word(scene_of(variables), word)
}

/// The values that go with a call of a root: those of expressions, and of variables that go both ways; none where an operation has no result.
pub fn root_values(
    alloc: Global,
    variables: &ThreadVariables,
    arguments: &[Argument],
) -> Result<Option<Vec<Value>>, NoMemory>
    ensures { IfOk result (λ xs. option_map (λ vs. map plain_of vs.items) xs ≡ given_values (root_scene (variables_of (all_of variables.now))) (map argument_of arguments.now)) }
{
    given_values(alloc, scene_of(variables), arguments)
}

/// What words of a root stand for.
fn scene_of(variables: &ThreadVariables) -> Scene<'_>
    ensures { scene_of result ≡ root_scene (variables_of (all_of variables.entry.now)) }
{
    Scene {
        variables: Variables::Thread(variables),
        fields: &[],
        own: Target::Null,
    }
}
