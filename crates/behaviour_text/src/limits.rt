//! How many lines of a kind a plan may have, and how deep a term may be nested.
ghost use Rattle.std.specs.Prelude.{◌≡◌, ◌&&◌, length, map, nat_le, nat_lt, option_map, IfOk};
ghost use Rattle.std.specs.List.{list_all};
ghost use Rattle.plan_model.specs.Limits.{is_flat, is_back_flat, terms_are_flat, block_has_room, plan_has_room};
ghost use Rattle.plan_model.specs.Contexts.{behaviours_before};
ghost use Rattle.plan_lines.specs.Lines.{line_of};
ghost use Rattle.plan_lines.specs.Terms.{term_of};
ghost use Rattle.plan_checks.specs.Contexts.{block_of, context_of};

mod nesting;

use nesting::{Levels, levels_of};
use plan_checks::{Block, Context, open_behaviour};
use plan_lines::{Line, Term};
use std::alloc::Global;
use uno_base::NoMemory;

/// How many behaviours a plan may have, and how many exports, services and singletons each.
const MOST_BEHAVIOURS: usize = 256;

const MOST_EXPORTS: usize = 256;

const MOST_OFFERS: usize = 256;

/// How many roots a plan may have.
const MOST_THREADS: usize = 32;

/// How many statements a method may have, and a root.
const MOST_STATEMENTS: usize = 256;

const MOST_ROOT_STATEMENTS: usize = 16384;

/// How deep a term may be nested, and how many parentheses of operations may stand open in it.
const MOST_LEVELS: u32 = 64;

const MOST_PARENTHESES: u32 = 64;

/// Whether no term of the line is nested too deep.
#[tactic(auto, unfolding(plan_model::specs::Limits::terms_are_flat))]
pub(crate) fn terms_are_flat(alloc: Global, line: &Line) -> Result<bool, NoMemory>
    ensures { IfOk result (λ flat. flat ≡ terms_are_flat (line_of line.now)) }
{
    match line {
        Line::Let(_, term)
        | Line::SetVariable(_, term)
        | Line::SetField(_, term)
        | Line::Raise(_, term) => is_flat(alloc, term),
        Line::Call { arguments, .. } => are_flat(alloc, arguments),
        Line::When { right, back, .. } => are_both_flat(alloc, right, back),
        Line::Return(back) => is_back_flat(alloc, back),
        _ => Ok(true),
    }
}

fn are_flat(alloc: Global, terms: &[Term]) -> Result<bool, NoMemory>
    ensures { IfOk result (λ flat. flat ≡ list_all is_flat (map term_of terms.now)) }
{
    for term in terms {
        if !is_flat(alloc, term)? {
            return Ok(false);
        }
    }
    Ok(true)
}

fn are_both_flat(alloc: Global, right: &Term, back: &Option<Term>) -> Result<bool, NoMemory>
    ensures { IfOk result (λ flat. flat ≡ (is_flat (term_of right.now) && is_back_flat (option_map term_of back.now))) }
{
    if !is_flat(alloc, right)? {
        return Ok(false);
    }
    is_back_flat(alloc, back)
}

fn is_back_flat(alloc: Global, back: &Option<Term>) -> Result<bool, NoMemory>
    ensures { IfOk result (λ flat. flat ≡ is_back_flat (option_map term_of back.now)) }
{
    match back {
        Some(term) => is_flat(alloc, term),
        None => Ok(true),
    }
}

#[tactic(auto, unfolding(plan_model::specs::Limits::is_flat))]
fn is_flat(alloc: Global, term: &Term) -> Result<bool, NoMemory>
    ensures { IfOk result (λ flat. flat ≡ is_flat (term_of term.now)) }
{
    let levels = levels_of(alloc, term)?;
    Ok(are_within(levels))
}

fn are_within(levels: Levels) -> bool
    ensures { result ≡ (nat_le levels.depth 64 && nat_le levels.parentheses 64) }
{
    levels.depth <= MOST_LEVELS && levels.parentheses <= MOST_PARENTHESES
}

/// Whether the plan has room for the line.
#[tactic(auto, unfolding(plan_model::specs::Limits::plan_has_room, plan_model::specs::Limits::has_room))]
pub(crate) fn plan_has_room(context: &Context, line: &Line) -> bool
    ensures { result ≡ plan_has_room (context_of context.now) (line_of line.now) }
{
    match line {
        Line::Behaviour { .. } => count_of_behaviours(context) < MOST_BEHAVIOURS,
        Line::Service { .. } => context.plan.services.len() < MOST_OFFERS,
        Line::Singleton { .. } => context.plan.singletons.len() < MOST_OFFERS,
        Line::Export { .. } => context.plan.exports.len() < MOST_EXPORTS,
        Line::Thread => context.plan.threads.len() < MOST_THREADS,
        _ => block_has_room(&context.block, line),
    }
}

/// How many behaviours stand before a line; more than 2^64 are told as so many.
fn count_of_behaviours(context: &Context) -> usize
    ensures { nat_lt result 256 ≡ nat_lt (length (behaviours_before (context_of context.now))) 256 }
{
    let closed = context.plan.behaviours.len();
    match open_behaviour(&context.block) {
        Some(_) => closed.saturating_add(1),
        None => closed,
    }
}

#[tactic(auto, unfolding(plan_model::specs::Limits::block_has_room, plan_model::specs::Limits::has_room))]
fn block_has_room(block: &Block, line: &Line) -> bool
    ensures { result ≡ block_has_room (block_of block.now) (line_of line.now) }
{
    if let Line::End = line {
        return true;
    }
    match block {
        Block::Method(_, opened) => opened.method.body.len() < MOST_STATEMENTS,
        Block::Thread(statements) => statements.len() < MOST_ROOT_STATEMENTS,
        Block::Top | Block::Behaviour(_) => true,
    }
}
