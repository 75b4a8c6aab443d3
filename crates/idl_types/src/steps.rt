//! Typedefs as steps from number to number of paths.
ghost use Rattle.std.specs.Prelude.{◌≡◌, get_or, map, None};
ghost use Rattle.idl_trees.specs.Trees.{declaration_of};
ghost use Rattle.idl_trees.specs.Types.{type_of};
ghost use Rattle.idl_types.specs.Bodies.{bodies_of, told_at};
ghost use Rattle.idl_types.specs.Steps as plain;
ghost use Rattle.idl_types.specs.Steps.{body_at, step_if};

use idl_names::Declared;
use idl_trees::{Declaration, WrittenType};
use idl_values::Told;
use typedef_chains::Step;

/// Of more sequences than 64 there count so many, which is one too many.
pub(crate) const MOST: u32 = 65;

/// What is no typedef leads to nothing.
const LAST: Step = Step {
    adds: 0,
    next: None,
};

/// The step of a number: that of the declaration which the table has for it.
pub(crate) fn step(told: &Told, table: &[Option<u32>], all: &[Declared<'_>], number: u32) -> Step
    ensures { result ≡ step_if (told_at told.now) number (body_at (bodies_of all.now) table.now number) }
{
    let Some(place) = noted(table, number) else {
        return LAST;
    };
    let Some(declared) = all.get(place as usize) else {
        return LAST;
    };
    step_of(told, number, declared.body)
}

fn noted(table: &[Option<u32>], number: u32) -> Option<u32>
    ensures { result ≡ get_or table.now number None }
{
    match table.get(number as usize) {
        Some(place) => *place,
        None => None,
    }
}

fn step_of(told: &Told, number: u32, body: &Declaration) -> Step
    ensures { result ≡ plain.step_of (told_at told.now) number (declaration_of body.now) }
{
    match body {
        Declaration::Typedef(target) => step_in(told, number, target),
        Declaration::Forward => LAST,
        Declaration::Interface(_, _) => LAST,
        Declaration::Struct(_, _) => LAST,
        Declaration::Exception(_, _) => LAST,
        Declaration::Enum(_) => LAST,
        Declaration::Constants(_) => LAST,
        Declaration::NewService(_, _) => LAST,
        Declaration::OldService(_) => LAST,
        Declaration::NewSingleton(_) => LAST,
        Declaration::OldSingleton(_) => LAST,
    }
}

/// The step of a typedef with this target.
#[tactic(auto, unfolding(crate::specs::Steps::step_in))]
fn step_in(told: &Told, number: u32, target: &WrittenType) -> Step
    ensures { result ≡ plain.step_in (told_at told.now) number (type_of target.now) }
{
    match target {
        WrittenType::Simple(_, _) => LAST,
        WrittenType::Named(path) => Step {
            adds: 0,
            next: Some(told.at(path.place).unwrap_or(number)),
        },
        WrittenType::SequenceOf(_, inner) => more(step_in(told, number, inner)),
    }
}

fn more(step: Step) -> Step
    ensures { result ≡ plain.more step }
{
    let adds = if step.adds < MOST {
        step.adds + 1
    } else {
        MOST
    };
    Step {
        adds,
        next: step.next,
    }
}
