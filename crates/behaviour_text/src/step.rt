//! A line behind those before it: the reason for which it is wrong, or what stands behind it.
ghost use Rattle.std.specs.Prelude.{◌≡◌, ◌∷◌, ◌++◌, [], false, true, is_some, map, Some, IsTrue, OnOk};
ghost use Rattle.plan_model.specs.Building.{behind};
ghost use Rattle.plan_model.specs.Fitting.{all_fits};
ghost use Rattle.plan_model.specs.Forms.{is_line};
ghost use Rattle.plan_model.specs.Keeps.{reason_of};
ghost use Rattle.plan_model.specs.TypedStatements as typed;
ghost use Rattle.uno_model.specs.Sound.{IsSound};
ghost use Rattle.plan_types.specs.Statements.{statement_of, root_statement_of};
ghost use Rattle.plan_lines.specs.Lines.{line_of};
ghost use Rattle.plan_checks.specs.Contexts.{block_of, context_of};
ghost use Rattle.behaviour_text.specs.Reasons.{Clears};
ghost use Rattle.behaviour_text.specs.Steps.{early_reason, late_reason, is_statement, is_thread, by_found, scoped_behind, with_method_statement, with_thread_statement};

use crate::building::{add_field, close, open_behaviour, open_method, open_thread};
use crate::limits::{plan_has_room, terms_are_flat};
use crate::new_names::names_are_new;
use crate::offers::{add_export, add_service, add_singleton};
use crate::places::may_stand;
use crate::variables::{scope_behind, scope_behind_root};
use plan_checks::{Block, Checker, Context, LineError, Scope};
use plan_lines::Line;
use plan_types::{LineReason, RootStatement, Statement};
use std::alloc::Global;
use uno_base::NoMemory;
use uno_types::Registry;

/// Goes on behind a line, unless that is wrong.
#[tactic(auto, unfolding(plan_model::specs::Keeps::reason_of, plan_model::specs::Keeps::has_form))]
pub(crate) fn step(
    alloc: Global,
    registry: &Registry,
    context: &mut Context,
    line: &Line,
) -> Result<(), LineError>
    requires sound { IsSound registry.now }
    requires formed { IsTrue (is_line registry.now (line_of line.now)) }
    ensures reason { Clears result (reason_of registry.now (context_of context.old) (line_of line.now)) }
    ensures behind { OnOk result (context_of context.new ≡ behind registry.now (line_of line.now) (context_of context.old)) }
{
    check_names(alloc, registry, context, line)?;
    if !is_statement(line) {
        return block_step(alloc, registry, context, line);
    }
    if is_thread(&context.block) {
        return thread_step(alloc, registry, context, line);
    }
    method_step(alloc, registry, context, line)
}

/// Refuses a line that may not stand there, or of which a name is not known or not new.
fn check_names(
    alloc: Global,
    registry: &Registry,
    context: &Context,
    line: &Line,
) -> Result<(), LineError>
    requires { IsSound registry.now }
    ensures { Clears result (early_reason registry.now (context_of context.now) (line_of line.now)) }
{
    if !may_stand(&context.block, line) {
        return Err(LineError::Wrong(LineReason::Form));
    }
    let checker = Checker {
        alloc,
        registry,
        context,
    };
    checker.knows_names(line)?;
    if !names_are_new(alloc, context, line)? {
        return Err(LineError::Wrong(LineReason::Twice));
    }
    Ok(())
}

/// The other reasons of a line that is no statement, and what stands behind it.
#[tactic(auto, unfolding(plan_model::specs::Fitting::all_fits, plan_model::specs::Building::behind))]
fn block_step(
    alloc: Global,
    registry: &Registry,
    context: &mut Context,
    line: &Line,
) -> Result<(), LineError>
    requires sound { IsSound registry.now }
    requires other { is_statement (line_of line.now) ≡ false }
    ensures reason { Clears result (late_reason registry.now (context_of context.old) (line_of line.now)) }
    ensures behind { OnOk result (context_of context.new ≡ behind registry.now (line_of line.now) (context_of context.old)) }
{
    if !line_fits(alloc, registry, context, line) {
        return Err(LineError::Wrong(LineReason::Misfit));
    }
    if !plan_has_room(context, line) {
        return Err(LineError::Wrong(LineReason::Limit));
    }
    go_behind(alloc, registry, context, line)?;
    Ok(())
}

/// Whether the line is a statement, of a method or of a root.
fn is_statement(line: &Line) -> bool
    ensures { result ≡ is_statement (line_of line.now) }
{
    match line {
        Line::Behaviour { .. }
        | Line::Field(_)
        | Line::Method { .. }
        | Line::Service { .. }
        | Line::Singleton { .. }
        | Line::Export { .. }
        | Line::Thread
        | Line::End => false,
        _ => true,
    }
}

/// Whether the behaviour that a line names fits its place, where the line is no statement.
#[tactic(auto, unfolding(plan_model::specs::Fitting::all_fits))]
fn line_fits(alloc: Global, registry: &Registry, context: &Context, line: &Line) -> bool
    requires sound { IsSound registry.now }
    requires other { is_statement (line_of line.now) ≡ false }
    ensures { result ≡ all_fits registry.now (context_of context.now) (line_of line.now) }
{
    let checker = Checker {
        alloc,
        registry,
        context,
    };
    match line {
        Line::Method { face, function: _ } => checker.method_fits(face),
        Line::Service { name, behaviour } => checker.service_fits(name, behaviour),
        Line::Singleton { name, behaviour } => checker.singleton_fits(name, behaviour),
        _ => true,
    }
}

/// What stands behind a line that is no statement.
#[tactic(auto, unfolding(plan_model::specs::Building::behind))]
fn go_behind(
    alloc: Global,
    registry: &Registry,
    context: &mut Context,
    line: &Line,
) -> Result<(), NoMemory>
    requires sound { IsSound registry.now }
    requires other { is_statement (line_of line.now) ≡ false }
    ensures { OnOk result (context_of context.new ≡ behind registry.now (line_of line.now) (context_of context.old)) }
{
    match line {
        Line::Behaviour { name, faces } => open_behaviour(alloc, context, name, faces),
        Line::Field(declared) => add_field(alloc, registry, context, declared),
        Line::Method { face, function } => open_method(alloc, registry, context, face, function),
        Line::Service { name, behaviour } => add_service(context, name, behaviour),
        Line::Singleton { name, behaviour } => add_singleton(context, name, behaviour),
        Line::Export { name, behaviour } => add_export(context, name, behaviour),
        Line::Thread => {
            open_thread(alloc, context);
            Ok(())
        }
        Line::End => close(alloc, context),
        _ => Ok(()),
    }
}

/// Whether the block is that of a root.
fn is_thread(block: &Block) -> bool
    ensures { result ≡ is_thread (block_of block.now) }
{
    matches!(block, Block::Thread(_))
}

/// The other reasons of a statement of a method, and what stands behind it.
fn method_step(
    alloc: Global,
    registry: &Registry,
    context: &mut Context,
    line: &Line,
) -> Result<(), LineError>
    requires sound { IsSound registry.now }
    ensures reason { Clears result (by_found (is_some (typed.statement_of registry.now (context_of context.old) (line_of line.now))) (context_of context.old) (line_of line.now)) }
    ensures behind { OnOk result (context_of context.new ≡ with_method_statement (typed.statement_of registry.now (context_of context.old) (line_of line.now)) (context_of context.old)) }
{
    let checker = Checker {
        alloc,
        registry,
        context,
    };
    let flat = terms_are_flat(alloc, line)?;
    if !flat {
        checker.statement_fits(line)?;
        return Err(LineError::Wrong(LineReason::Limit));
    }
    let statement = checker.statement_of(line)?;
    if !plan_has_room(context, line) {
        return Err(LineError::Wrong(LineReason::Limit));
    }
    push_statement(alloc, context, statement)?;
    Ok(())
}

/// A statement more of the open method, and the variables behind it.
fn push_statement(
    alloc: Global,
    context: &mut Context,
    statement: Statement,
) -> Result<(), NoMemory>
    ensures { OnOk result (context_of context.new ≡ with_method_statement (Some (statement_of statement)) (context_of context.old)) }
{
    match &mut context.block {
        Block::Method(_, opened) => push_behind(
            alloc,
            &mut context.variables,
            &mut opened.method.body,
            statement,
        ),
        _ => Ok(()),
    }
}

fn push_behind(
    alloc: Global,
    variables: &mut Scope,
    body: &mut Vec<Statement>,
    statement: Statement,
) -> Result<(), NoMemory>
    ensures scoped { OnOk result (variables.new ≡ scoped_behind (statement_of statement) variables.old) }
    ensures pushed { OnOk result (map statement_of body.new.items ≡ map statement_of body.old.items ++ statement_of statement ∷ []) }
{
    scope_behind(alloc, variables, &statement)?;
    body.push(statement)?;
    Ok(())
}

/// The other reasons of a statement of a root, and what stands behind it.
fn thread_step(
    alloc: Global,
    registry: &Registry,
    context: &mut Context,
    line: &Line,
) -> Result<(), LineError>
    requires sound { IsSound registry.now }
    ensures reason { Clears result (by_found (is_some (typed.root_statement_of registry.now (context_of context.old) (line_of line.now))) (context_of context.old) (line_of line.now)) }
    ensures behind { OnOk result (context_of context.new ≡ with_thread_statement (typed.root_statement_of registry.now (context_of context.old) (line_of line.now)) (context_of context.old)) }
{
    let checker = Checker {
        alloc,
        registry,
        context,
    };
    let flat = terms_are_flat(alloc, line)?;
    if !flat {
        checker.root_statement_fits(line)?;
        return Err(LineError::Wrong(LineReason::Limit));
    }
    let statement = checker.root_statement_of(line)?;
    if !plan_has_room(context, line) {
        return Err(LineError::Wrong(LineReason::Limit));
    }
    push_root_statement(alloc, context, statement)?;
    Ok(())
}

/// A statement more of the open root, and the variables behind it.
fn push_root_statement(
    alloc: Global,
    context: &mut Context,
    statement: RootStatement,
) -> Result<(), NoMemory>
    ensures { OnOk result (context_of context.new ≡ with_thread_statement (Some (root_statement_of statement)) (context_of context.old)) }
{
    match &mut context.block {
        Block::Thread(statements) => {
            scope_behind_root(alloc, &mut context.variables, &statement)?;
            statements.push(statement)?;
            Ok(())
        }
        _ => Ok(()),
    }
}
