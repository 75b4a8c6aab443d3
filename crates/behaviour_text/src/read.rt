//! The plan that a text says.
ghost use Rattle.std.specs.Prelude.{◌≡◌, ℕ, suc, ◌+◌, ◌≤◌, length, List, ◌∷◌, Err, IfOk, IfErr, OnOk};
ghost use Rattle.plan_model.specs.Contexts.{opening};
ghost use Rattle.plan_model.specs.Keeps.{at_end, IsTextOf, IsVerdict};
ghost use Rattle.plan_model.specs.PlanText.{said_from, lines_of};
ghost use Rattle.plan_model.specs.declared.line_reason.LineReason.{LineReason};
ghost use Rattle.uno_model.specs.Sound.{IsSound};
ghost use Rattle.plan_reading_model.specs.TextReading.{comes};
ghost use Rattle.plan_types.specs.Plans.{plan_of};
ghost use Rattle.plan_checks.specs.Contexts.{context_of};
ghost use Rattle.behaviour_text.specs.Reading.{Reads, Stops};

mod text;

use crate::PlanError;
use crate::step::step;
use plan_checks::{Block, Context, LineError, Scope};
use plan_lines::{Words, read_line};
use plan_types::{LineReason, Plan};
use std::alloc::Global;
use text::{begins_plan, behind_blanks, is_skipped, next_line, split_line};
use uno_types::Registry;

/// How many bytes a plan may have.
const MOST_BYTES: usize = 4_194_304;

/// The plan that a text says, or the first line of it that is wrong.
#[tactic(auto, unfolding(plan_reading_model::specs::TextReading::verdict, plan_model::specs::Keeps::is_too_large))]
pub fn read_plan(alloc: Global, registry: &Registry, bytes: &[u8]) -> Result<Plan, PlanError>
    requires { IsSound registry.now }
    ensures text { IfOk result (λ p. IsTextOf registry.now bytes.now (plan_of p)) }
    ensures refused { (n : ℕ) (why : LineReason) → result ≡ Err (PlanError.BadLine n why) → IsVerdict registry.now bytes.now (Err (record { line = n; reason = why })) }
{
    if bytes.len() > MOST_BYTES {
        return Err(PlanError::BadLine(0, LineReason::Limit));
    }
    let (first, rest) = split_line(bytes);
    if !begins_plan(first) {
        return Err(PlanError::BadLine(1, LineReason::Form));
    }
    read_lines(alloc, registry, rest)
}

/// What comes of the lines behind the first one.
fn read_lines(alloc: Global, registry: &Registry, bytes: &[u8]) -> Result<Plan, PlanError>
    requires sound { IsSound registry.now }
    requires within { length bytes.now ≤ 4194304 }
    ensures { Reads result (comes registry.now (1 + length (lines_of bytes.now)) opening (said_from 2 (lines_of bytes.now))) }
{
    let words = Words::new(alloc, registry)?;
    read_with(alloc, registry, &words, bytes)
}

/// The same, with what is looked up in each line.
fn read_with(
    alloc: Global,
    registry: &Registry,
    words: &Words<'_>,
    bytes: &[u8],
) -> Result<Plan, PlanError>
    requires sound { IsSound registry.now }
    requires same { words.now ≡ registry.now }
    requires within { length bytes.now ≤ 4194304 }
    ensures { Reads result (comes registry.now (1 + length (lines_of bytes.now)) opening (said_from 2 (lines_of bytes.now))) }
{
    let mut context = opening(alloc);
    let last = read_each(alloc, registry, words, &mut context, bytes)?;
    at_end(last, context)
}

/// Reads each line, and gives the number of the last one.
fn read_each(
    alloc: Global,
    registry: &Registry,
    words: &Words<'_>,
    context: &mut Context,
    bytes: &[u8],
) -> Result<u32, PlanError>
    requires sound { IsSound registry.now }
    requires same { words.now ≡ registry.now }
    requires within { length bytes.now ≤ 4194304 }
    ensures read { IfOk result (λ last. comes registry.now (1 + length (lines_of bytes.now)) (context_of context.old) (said_from 2 (lines_of bytes.now)) ≡ at_end last (context_of context.new)) }
    ensures wrong { IfErr result (λ e. Stops e (comes registry.now (1 + length (lines_of bytes.now)) (context_of context.old) (said_from 2 (lines_of bytes.now)))) }
{
    let mut rest = bytes;
    let mut number: u32 = 1;
    while let Some((line, behind)) = next_line(rest) {
        number += 1;
        read_said(alloc, registry, words, context, number, line)?;
        rest = behind;
    }
    Ok(number)
}

/// The context in which nothing is read.
fn opening(alloc: Global) -> Context
    ensures { context_of result ≡ opening }
{
    Context {
        plan: Plan {
            behaviours: Vec::new(alloc),
            exports: Vec::new(alloc),
            services: Vec::new(alloc),
            singletons: Vec::new(alloc),
            threads: Vec::new(alloc),
        },
        block: Block::Top,
        variables: Scope::new(alloc),
    }
}

/// The plan, where no block is open behind the last line.
fn at_end(last: u32, context: Context) -> Result<Plan, PlanError>
    ensures { Reads result (at_end last (context_of context)) }
{
    let Context {
        plan,
        block,
        variables,
    } = context;
    drop(variables);
    match block {
        Block::Top => Ok(plan),
        other => {
            drop(other);
            drop(plan);
            Err(PlanError::BadLine(last, LineReason::Open))
        }
    }
}

/// Reads a line, unless it says nothing.
fn read_said(
    alloc: Global,
    registry: &Registry,
    words: &Words<'_>,
    context: &mut Context,
    number: u32,
    line: &[u8],
) -> Result<(), PlanError>
    requires sound { IsSound registry.now }
    requires same { words.now ≡ registry.now }
    ensures on { OnOk result ((last : ℕ) (ls : List (List ℕ)) → comes registry.now last (context_of context.old) (said_from number (line.now ∷ ls)) ≡ comes registry.now last (context_of context.new) (said_from (suc number) ls)) }
    ensures wrong { IfErr result (λ e. (last : ℕ) (ls : List (List ℕ)) → Stops e (comes registry.now last (context_of context.old) (said_from number (line.now ∷ ls)))) }
{
    let text = behind_blanks(line);
    if is_skipped(text) {
        return Ok(());
    }
    let found = read_line(alloc, words, text)?;
    let Some(line) = found else {
        return Err(PlanError::BadLine(number, LineReason::Form));
    };
    match step(alloc, registry, context, &line) {
        Ok(()) => Ok(()),
        Err(LineError::NoMemory) => Err(PlanError::NoMemory),
        Err(LineError::Wrong(why)) => Err(PlanError::BadLine(number, why)),
    }
}
