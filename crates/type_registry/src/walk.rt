//! The interfaces whose functions an interface has, without recursion over its bases.
ghost use Rattle.std.specs.Prelude.{◌≡◌, ◌++◌, ◌+◌, ◌<◌, IfOk, OnOk};
ghost use Rattle.uno_model.specs.Functions.{interfaces_of, met_within};
ghost use Rattle.uno_model.specs.Registry.{stands_on};
ghost use Rattle.type_registry.specs.Tasks.{visits, do_one, done, cost, cost_within, costs, doing_of, tasks_of};

use crate::bases::{bases_of, last_of};
use crate::met::Met;
use std::alloc::Global;
use uno_base::NoMemory;
use uno_types::Registry;

/// What is left to do.
#[derive(Clone, Copy)]
pub(crate) enum Task<'a> {
    /// Bring in what an interface brings in over so many levels of bases.
    Visit(&'a str, u128),
    /// Bring in the interface itself, whose bases were brought in.
    Leave(&'a str),
}

/// The interfaces whose functions an interface has, in the order in which they are numbered, itself the last. A struct or an exception comes behind those
/// on which it stands.
pub fn interfaces_of<'a>(
    alloc: Global,
    registry: &'a Registry,
    name: &'a str,
) -> Result<Met<'a>, NoMemory>
    ensures { IfOk result (λ met. met ≡ interfaces_of registry.now name.now) }
{
    let levels = registry.entities().len() as u128 + 1;
    let mut tasks = Vec::new(alloc);
    tasks.push(Task::Visit(name, levels))?;
    let mut met = Met::new(alloc);
    while let Some(task) = tasks.pop() {
        do_one(registry, &mut met, &mut tasks, task)?;
    }
    Ok(met)
}

/// Does a task, which was taken off.
fn do_one<'a>(
    registry: &'a Registry,
    met: &mut Met<'a>,
    tasks: &mut Vec<Task<'a>>,
    task: Task<'a>,
) -> Result<(), NoMemory>
    ensures done { OnOk result (done registry.now (tasks_of tasks.new.items) met.new ≡ done registry.now (tasks_of tasks.old.items) (do_one registry.now (doing_of task.entry) met.old)) }
    ensures less { OnOk result (costs registry.now (tasks_of tasks.new.items) < costs registry.now (tasks_of tasks.old.items) + cost registry.now (doing_of task.entry)) }
{
    match task {
        Task::Visit(name, levels) => visit(registry, met, tasks, name, levels),
        Task::Leave(name) => met.add(name),
    }
}

/// An interface that was not met, and for which levels are left, is left behind its bases.
fn visit<'a>(
    registry: &'a Registry,
    met: &Met<'a>,
    tasks: &mut Vec<Task<'a>>,
    name: &'a str,
    levels: u128,
) -> Result<(), NoMemory>
    ensures done { OnOk result (done registry.now (tasks_of tasks.new.items) met.now ≡ done registry.now (tasks_of tasks.old.items) (met_within levels registry.now met.now name.now)) }
    ensures less { OnOk result (costs registry.now (tasks_of tasks.new.items) < costs registry.now (tasks_of tasks.old.items) + cost_within levels registry.now name.now) }
{
    let Some(levels) = levels.checked_sub(1) else {
        return Ok(())
    };
    if met.has(name) {
        return Ok(());
    }
    tasks.push(Task::Leave(name))?;
    push_visits(registry, tasks, name, levels)
}

/// The bases that are not optional, the first one on top.
fn push_visits<'a>(
    registry: &'a Registry,
    tasks: &mut Vec<Task<'a>>,
    name: &str,
    levels: u128,
) -> Result<(), NoMemory>
    ensures { OnOk result (tasks_of tasks.new.items ≡ tasks_of tasks.old.items ++ visits levels (stands_on registry.now name.now)) }
{
    let mut left = bases_of(registry, name);
    while let Some((base, others)) = last_of(left) {
        tasks.push(Task::Visit(base, levels))?;
        left = others;
    }
    Ok(())
}
