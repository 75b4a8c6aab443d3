//! A frame that runs, as its statements see it.
ghost use Rattle.std.specs.Prelude.{◌≡◌};
ghost use Rattle.plan_model.specs.Evaluation.{value_under};
ghost use Rattle.plan_types.specs.Frames.{variables_of};
ghost use Rattle.named_variables.specs.Lending.{value_or_void};
ghost use Rattle.behaviour.specs.Variables.{variables_in};

use crate::words::value_under;
use named_variables::ThreadVariables;
use plan_types::Variable;
use type_registry::FunctionRef;
use uno_types::{Name, Text, Tid};
use uno_values::Value;

/// Null, or an object by its identity and the interface under which it is held.
#[derive(Clone, Copy)]
pub enum Target<'a> {
    Null,
    Local { oid: &'a Text, face: &'a Name },
    Remote { oid: &'a Text, face: &'a Name },
}

/// The variables of a frame, or those of a thread.
#[derive(Clone, Copy)]
pub(crate) enum Variables<'a> {
    Frame(&'a [Variable]),
    Thread(&'a ThreadVariables),
}

impl<'a> Variables<'a> {
    /// The value under a name, where one is there.
    pub fn get(&self, name: &Name) -> Option<&'a Value>
        ensures { value_or_void result ≡ value_under name.now (variables_in self.now) }
    {
        match self {
            Variables::Frame(variables) => value_under(name, *variables),
            Variables::Thread(variables) => variables.get(name),
        }
    }

    /// All of them, in their order.
    pub fn as_slice(&self) -> &'a [Variable]
        ensures { variables_of result.now ≡ variables_in self.now }
    {
        match self {
            Variables::Frame(variables) => *variables,
            Variables::Thread(variables) => variables.as_slice(),
        }
    }
}

/// What words stand for: variables, the fields of the own object, and that object.
#[derive(Clone, Copy)]
pub(crate) struct Scene<'a> {
    pub variables: Variables<'a>,
    pub fields: &'a [Variable],
    pub own: Target<'a>,
}

/// A frame that runs: its thread, the interface and number under which its function was called, the function, the frames of its stack, and what words
/// stand for.
#[derive(Clone, Copy)]
pub(crate) struct Running<'a> {
    pub tid: &'a Tid,
    pub face: &'a Name,
    pub number: u16,
    pub function: FunctionRef<'a>,
    pub depth: u32,
    pub scene: Scene<'a>,
}
