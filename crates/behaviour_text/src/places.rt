//! Where a line may stand.
ghost use Rattle.std.specs.Prelude.{◌≡◌, ◌&&◌, ◌||◌, map, option_map};
ghost use Rattle.std.specs.List.{list_all};
ghost use Rattle.plan_model.specs.Forms.{is_root_word, is_root_term, are_root_terms};
ghost use Rattle.plan_model.specs.LinePlaces.{may_stand, stands_at_top, stands_in_behaviour, stands_in_method, stands_in_thread, is_void, returns_rightly, ends_frame, last_ends, is_whole_method};
ghost use Rattle.plan_types.specs.Expressions.{word_of};
ghost use Rattle.plan_types.specs.Plans.{method_of};
ghost use Rattle.plan_types.specs.Statements.{statement_of};
ghost use Rattle.plan_lines.specs.Lines.{line_of};
ghost use Rattle.plan_lines.specs.Terms.{term_of, terms_of};
ghost use Rattle.type_registry.specs.Functions.{function_of};
ghost use Rattle.plan_checks.specs.Contexts.{block_of};

mod roots;

use plan_checks::{Block, OpenMethod};
use plan_lines::{Line, Term};
use plan_types::Statement;
use roots::{are_root_arguments, is_root_word};
use type_registry::Function;
use uno_types::TypeName;

/// Whether the line may stand in the block.
#[tactic(auto, unfolding(plan_model::specs::LinePlaces::may_stand))]
pub(crate) fn may_stand(block: &Block, line: &Line) -> bool
    ensures { result ≡ may_stand (block_of block.now) (line_of line.now) }
{
    match block {
        Block::Top => stands_at_top(line),
        Block::Behaviour(_) => stands_in_behaviour(line),
        Block::Method(_, opened) => stands_in_method(opened, line),
        Block::Thread(_) => stands_in_thread(line),
    }
}

fn stands_at_top(line: &Line) -> bool
    ensures { result ≡ stands_at_top (line_of line.now) }
{
    matches!(
        line,
        Line::Behaviour { .. }
            | Line::Service { .. }
            | Line::Singleton { .. }
            | Line::Export { .. }
            | Line::Thread
    )
}

fn stands_in_behaviour(line: &Line) -> bool
    ensures { result ≡ stands_in_behaviour (line_of line.now) }
{
    matches!(line, Line::Field(_) | Line::Method { .. } | Line::End)
}

fn stands_in_method(opened: &OpenMethod, line: &Line) -> bool
    ensures { result ≡ stands_in_method (method_of opened.now.method) (function_of opened.now.function) (line_of line.now) }
{
    match line {
        Line::Let(_, _)
        | Line::SetVariable(_, _)
        | Line::SetField(_, _)
        | Line::Call { .. }
        | Line::Query(_, _)
        | Line::Make(_, _)
        | Line::Drop(_)
        | Line::Raise(_, _)
        | Line::Dispose => true,
        Line::When { back, .. } | Line::Return(back) => returns_rightly(&opened.function, back),
        Line::End => is_whole_method(opened),
        _ => false,
    }
}

/// What is returned is written exactly where the result is not void.
fn returns_rightly(function: &Function, back: &Option<Term>) -> bool
    ensures { result ≡ returns_rightly (function_of function.now) (option_map term_of back.now) }
{
    match back {
        Some(_) => !is_void(function),
        None => is_void(function),
    }
}

#[tactic(auto, unfolding(uno_model::specs::Codes::same_kind))]
fn is_void(function: &Function) -> bool
    ensures { result ≡ is_void (function_of function.now) }
{
    matches!(&function.result, TypeName::Void)
}

/// A method that is not void ends with `return` or `raise`.
fn is_whole_method(opened: &OpenMethod) -> bool
    ensures { result ≡ is_whole_method (method_of opened.now.method) (function_of opened.now.function) }
{
    is_void(&opened.function) || last_ends(&opened.method.body)
}

fn last_ends(statements: &[Statement]) -> bool
    ensures { result ≡ last_ends (map statement_of statements.now) }
{
    match statements.split_last() {
        Some((last, _)) => ends_frame(last),
        None => false,
    }
}

fn ends_frame(statement: &Statement) -> bool
    ensures { result ≡ ends_frame (statement_of statement.now) }
{
    matches!(statement, Statement::Return(_) | Statement::Raise(_, _))
}

/// A root writes neither a field nor the own object, and no operation.
fn stands_in_thread(line: &Line) -> bool
    ensures { result ≡ stands_in_thread (line_of line.now) }
{
    match line {
        Line::Ask(_, _)
        | Line::AskInstance(_)
        | Line::Make(_, _)
        | Line::Drop(_)
        | Line::Same(_, _)
        | Line::Dispose
        | Line::End => true,
        Line::Call {
            target,
            arguments,
            ..
        } => is_root_word(target) && are_root_arguments(arguments),
        Line::Query(_, target) => is_root_word(target),
        _ => false,
    }
}
