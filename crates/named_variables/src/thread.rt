//! The variables of a thread, found by an index of their names.
ghost use Rattle.std.specs.List.{list_any, position};
ghost use Rattle.std.specs.Prelude.{◌≡◌, ◌++◌, ◌∷◌, [], IsTrue, OnOk};
ghost use Rattle.std.specs.Str.{bytes_eq};
ghost use Rattle.plan_model.specs.Evaluation.{value_under};
ghost use Rattle.plan_model.specs.Holdings.{put, without};
ghost use Rattle.plan_types.specs.Frames.{variables_of};
ghost use Rattle.plan_types.specs.declared.frame.Variable.{Variable};
ghost use Rattle.uno_values.specs.Values.{plain_of};
ghost use Rattle.named_variables.specs.Lending.{value_or_void};
ghost use Rattle.named_variables.specs.Names.{names_of};

use crate::variables::{has, no_value, place_of, take_out};
use indexmap::IndexSet;
use plan_types::Variable;
use std::alloc::Global;
use std::mem;
use uno_base::NoMemory;
use uno_types::Name;
use uno_values::Value;

/// Variables in the order in which they began. Their names are noted in this order too, until two have one name or there is no memory for it: then they are
/// looked for one by one.
#[derive(Drop)]
pub struct ThreadVariables {
    all: Vec<Variable>,
    names: IndexSet<Name>,
    is_noted: bool,
    ghost noted: { IsTrue is_noted → names.keys ≡ names_of all.items },
}

impl ThreadVariables {
    ghost use Rattle.named_variables.specs.Threads.{HasRoom, all_of};

    /// None.
    pub fn new(alloc: Global) -> ThreadVariables
        ensures { all_of result ≡ [] }
    {
        ThreadVariables {
            all: Vec::new(alloc),
            names: IndexSet::new(alloc),
            is_noted: true,
        }
    }

    /// All of them, in their order.
    pub fn as_slice(&self) -> &[Variable]
        ensures { result.now ≡ all_of self.now }
    {
        self.all.as_slice()
    }

    /// Whether a variable is there.
    pub fn has(&self, name: &Name) -> bool
        ensures { result ≡ list_any (λ x. bytes_eq name.now x.name) (variables_of (all_of self.now)) }
    {
        if self.is_noted {
            return self.names.contains(name);
        }
        has(&self.all, name)
    }

    /// The value under a name, where one is there.
    pub fn get(&self, name: &Name) -> Option<&Value>
        ensures { value_or_void result ≡ value_under name.now (variables_of (all_of self.now)) }
    {
        let place = self.place_of(name)?;
        Some(&self.all[place].value)
    }

    /// The place of the first variable of a name.
    fn place_of(&self, name: &Name) -> Option<usize>
        ensures { result ≡ position (λ (x : Variable). bytes_eq name.now x.name) (all_of self.now) }
    {
        if self.is_noted {
            return self.names.get_index_of(name);
        }
        place_of(&self.all, name)
    }

    /// Makes room for one more.
    pub fn reserve(&mut self) -> Result<(), NoMemory>
        ensures same { all_of self.new ≡ all_of self.old }
        ensures room { OnOk result (HasRoom self.new) }
    {
        self.all.reserve(1)?;
        Ok(())
    }

    /// Puts a variable behind the others. There is room for it.
    pub fn add(&mut self, name: Name, value: Value)
        requires { HasRoom self.old }
        ensures { all_of self.new ≡ all_of self.old ++ record { name = name; value = value } ∷ [] }
    {
        self.is_noted = note(self.is_noted, &mut self.names, &name);
        self.all.push_reserved(Variable { name, value });
    }

    /// Puts another value under a name that is there, and gives the value that was there. Where the name is not there nothing changes, and what is
    /// given is void.
    pub fn put(&mut self, name: &Name, value: Value) -> Value
        ensures put { variables_of (all_of self.new) ≡ put name.now (plain_of value) (variables_of (all_of self.old)) }
        ensures was { plain_of result ≡ value_under name.now (variables_of (all_of self.old)) }
    {
        match self.place_of(name) {
            Some(place) => mem::replace(&mut self.all[place].value, value),
            None => {
                drop(value);
                no_value()
            }
        }
    }

    /// Takes out the variables of a name, and gives the value of the first; void where there is none.
    pub fn take_out(&mut self, name: &Name) -> Value
        ensures without { variables_of (all_of self.new) ≡ without name.now (variables_of (all_of self.old)) }
        ensures was { plain_of result ≡ value_under name.now (variables_of (all_of self.old)) }
    {
        if !self.is_noted {
            return take_out(&mut self.all, name);
        }
        match self.names.shift_remove_full(name) {
            Some((place, key)) => {
                drop(key);
                value_of(self.all.remove(place))
            }
            None => no_value(),
        }
    }
}

/// Notes a name behind others, where those are noted. False where it is there already, or there is no memory for it.
fn note(are_noted: bool, names: &mut IndexSet<Name>, name: &Name) -> bool
    ensures noted { IsTrue result → IsTrue are_noted }
    ensures behind { IsTrue result → names.new.keys ≡ names.old.keys ++ name.now ∷ [] }
{
    if !are_noted {
        return false;
    }
    let Ok(name) = name.copy() else {
        return false;
    };
    let Ok(is_new) = names.insert(name) else {
        return false;
    };
    is_new
}

/// The value of a variable that is taken out.
fn value_of(variable: Variable) -> Value
    ensures { result ≡ variable.value }
{
    let Variable { name, value } = variable;
    drop(name);
    value
}
