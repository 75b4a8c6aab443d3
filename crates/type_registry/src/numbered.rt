//! One function of an interface, looked up without memory of its own.
ghost use Rattle.std.specs.Prelude.{◌≡◌, ◌++◌, ◌∷◌, [], ℕ, List, option_map, slice_get, None, Some, Ok, IfOk, IsOk};
ghost use Rattle.uno_model.specs.Functions.{Function, functions_of};
ghost use Rattle.uno_model.specs.Registry.{find_entity};
ghost use Rattle.uno_entities.specs.Entities.{entity_of};
ghost use Rattle.type_registry.specs.Bases.{names_left};
ghost use Rattle.type_registry.specs.Frames.{names_in, tasks_in, Walked};
ghost use Rattle.type_registry.specs.Functions.{lent_function};
ghost use Rattle.type_registry.specs.Own.{Seeks};
ghost use Rattle.type_registry.specs.Tasks.{visit, leave, visits, doing_of};

use crate::FunctionRef;
use crate::bases::{Bases, bases_of, last_of};
use crate::frames::{Names, Todo, has};
use crate::in_line::{past_root_below, seek_from};
use crate::own::{Sought, seek_declared, seek_named, seek_owners};
use crate::walk::{Task, interfaces_of};
use uno_types::{Entity, Registry};

/// How many levels of bases a look-up goes down in a line, before it walks over them.
const MOST_IN_LINE: usize = 16;

/// How many tasks a look-up does in the frames of the stack, before it asks for memory.
const MOST_STEPS: u32 = 256;

/// The steps ran out.
#[derive(Clone, Copy)]
pub(crate) struct TooFar;

/// The function of an interface at a number, and none where the number is past its functions. In a sound registry a name that is
/// no interface's has none. It takes memory only past the most steps, and where there is none it goes on without.
pub fn function_numbered<'a>(
    registry: &'a Registry,
    name: &str,
    number: u16,
) -> Option<FunctionRef<'a>>
    ensures { option_map lent_function result ≡ slice_get (functions_of registry.now name.now) number }
{
    let _entities = registry.entities();
    let Some(entity) = registry.find(name) else {
        return None;
    };
    match past_root_below(entity, number as usize) {
        Some(left) => found(seek_declared(entity, left)),
        None => numbered_from(registry, name, entity, number),
    }
}

/// The function of an interface at a number, from its entity on.
fn numbered_from<'a>(
    registry: &'a Registry,
    name: &str,
    entity: &'a Entity,
    number: u16,
) -> Option<FunctionRef<'a>>
    requires { find_entity name.now registry.now ≡ Some (entity_of entity.now) }
    ensures { option_map lent_function result ≡ slice_get (functions_of registry.now name.now) number }
{
    let levels = registry.entities().len().min(MOST_IN_LINE);
    match seek_from(registry, name, entity, levels, number as usize) {
        Some(sought) => found(sought),
        None => numbered_over_all(registry, name, number),
    }
}

/// The function of an interface at a number, where a base may be met twice, or where they lie far down.
fn numbered_over_all<'a>(registry: &'a Registry, name: &str, number: u16) -> Option<FunctionRef<'a>>
    ensures { option_map lent_function result ≡ slice_get (functions_of registry.now name.now) number }
{
    if let Ok(found) = numbered_within(registry, name, number as usize, Some(MOST_STEPS)) {
        return found;
    }
    if let Ok(met) = interfaces_of(registry.allocator(), registry, name) {
        return seek_owners(registry, met.names(), number as usize);
    }
    match numbered_within(registry, name, number as usize, None) {
        Ok(found) => found,
        Err(_) => None,
    }
}

fn found(sought: Sought<'_>) -> Option<FunctionRef<'_>>
    ensures { (fs : List Function) (number : ℕ) → Seeks fs number sought.entry → option_map lent_function result ≡ slice_get fs number }
{
    match sought {
        Sought::Found(function) => Some(function),
        Sought::Past(_) => None,
    }
}

/// The function at a number, unless it takes more than so many steps.
fn numbered_within<'a>(
    registry: &'a Registry,
    name: &str,
    number: usize,
    steps: Option<u32>,
) -> Result<Option<FunctionRef<'a>>, TooFar>
    ensures found { IfOk result (λ found. option_map lent_function found ≡ slice_get (functions_of registry.now name.now) number) }
    ensures ends { steps ≡ None → IsOk result }
{
    let levels = registry.entities().len() as u128 + 1;
    let todo = Todo::More(Task::Visit(name, levels), &Todo::Nothing);
    walk(registry, &todo, &Names::Nothing, number, steps)
}

/// One step fewer, where they are counted.
fn one_fewer(steps: Option<u32>) -> Result<Option<u32>, TooFar>
    ensures { steps ≡ None → result ≡ Ok None }
{
    let Some(left) = steps else { return Ok(None) };
    match left.checked_sub(1) {
        Some(left) => Ok(Some(left)),
        None => Err(TooFar),
    }
}

/// Does all tasks, the last one first, until the number is reached.
#[cycle(walk)]
fn walk<'a>(
    registry: &'a Registry,
    todo: &Todo,
    met: &Names,
    number: usize,
    steps: Option<u32>,
) -> Result<Option<FunctionRef<'a>>, TooFar>
    ensures found { Walked registry.now (tasks_in todo.now) (names_in met.now) number result }
    ensures ends { steps ≡ None → IsOk result }
{
    match todo {
        Todo::Nothing => Ok(None),
        Todo::More(task, before) => {
            let steps = one_fewer(steps)?;
            do_task(registry, task, before, met, number, steps)
        }
    }
}

#[cycle(walk)]
fn do_task<'a>(
    registry: &'a Registry,
    task: &Task,
    before: &Todo,
    met: &Names,
    number: usize,
    steps: Option<u32>,
) -> Result<Option<FunctionRef<'a>>, TooFar>
    ensures found { Walked registry.now (tasks_in before.now ++ doing_of task.now ∷ []) (names_in met.now) number result }
    ensures ends { steps ≡ None → IsOk result }
{
    match task {
        Task::Visit(name, levels) => visit(registry, name, *levels, before, met, number, steps),
        Task::Leave(name) => leave(registry, name, before, met, number, steps),
    }
}

/// An interface whose bases were met is met itself, unless the number is one of its own.
#[cycle(walk)]
fn leave<'a>(
    registry: &'a Registry,
    name: &str,
    before: &Todo,
    met: &Names,
    number: usize,
    steps: Option<u32>,
) -> Result<Option<FunctionRef<'a>>, TooFar>
    ensures found { Walked registry.now (tasks_in before.now ++ leave name.now ∷ []) (names_in met.now) number result }
    ensures ends { steps ≡ None → IsOk result }
{
    match seek_named(registry, name, number) {
        Sought::Found(function) => Ok(Some(function)),
        Sought::Past(left) => walk(registry, before, &Names::More(&*name, &*met), left, steps),
    }
}

/// An interface that was not met, and for which levels are left, is left behind its bases.
#[cycle(walk)]
fn visit<'a>(
    registry: &'a Registry,
    name: &str,
    levels: u128,
    before: &Todo,
    met: &Names,
    number: usize,
    steps: Option<u32>,
) -> Result<Option<FunctionRef<'a>>, TooFar>
    ensures found { Walked registry.now (tasks_in before.now ++ visit name.now levels ∷ []) (names_in met.now) number result }
    ensures ends { steps ≡ None → IsOk result }
{
    let Some(levels) = levels.checked_sub(1) else {
        return walk(registry, before, met, number, steps);
    };
    if has(met, name) {
        return walk(registry, before, met, number, steps);
    }
    let todo = Todo::More(Task::Leave(&*name), &*before);
    let bases = bases_of(registry, name);
    visit_all(registry, bases, levels, &todo, met, number, steps)
}

/// The names are visited before all else, the first one on top.
#[cycle(walk)]
fn visit_all<'a>(
    registry: &'a Registry,
    bases: Bases<'_>,
    levels: u128,
    todo: &Todo,
    met: &Names,
    number: usize,
    steps: Option<u32>,
) -> Result<Option<FunctionRef<'a>>, TooFar>
    ensures found { Walked registry.now (tasks_in todo.now ++ visits levels (names_left bases.entry)) (names_in met.now) number result }
    ensures ends { steps ≡ None → IsOk result }
{
    let Some((name, others)) = last_of(bases) else {
        return walk(registry, todo, met, number, steps);
    };
    let steps = one_fewer(steps)?;
    let todo = Todo::More(Task::Visit(name, levels), &*todo);
    visit_all(registry, others, levels, &todo, met, number, steps)
}
