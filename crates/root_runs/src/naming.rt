//! The variables that a statement names, and whether they are there.
ghost use Rattle.std.specs.Prelude.{◌≡◌, map};
ghost use Rattle.std.specs.List.{flat_map, list_all};
ghost use Rattle.bridge_model.specs.RootRuns.{argument_names, is_skipped, is_there, names_in, names_in_all, word_names};
ghost use Rattle.named_variables.specs.Threads.{all_of};
ghost use Rattle.plan_types.specs.Expressions.{argument_of, expression_of, expressions_of, word_of};
ghost use Rattle.plan_types.specs.Frames.{variables_of};
ghost use Rattle.plan_types.specs.Statements.{root_statement_of};

use named_variables::ThreadVariables;
use plan_types::{Argument, Expression, RootStatement, Word};

/// Whether a variable that a statement names has no value, since the statement that was to give it one gave none.
#[tactic(auto, unfolding(bridge_model::specs::RootRuns::names_of))]
pub fn is_skipped(variables: &ThreadVariables, statement: &RootStatement) -> bool
    ensures { result ≡ is_skipped (variables_of (all_of variables.now)) (root_statement_of statement.now) }
{
    match statement {
        RootStatement::Call(call) => {
            !has_word(variables, &call.target) || !has_arguments(variables, &call.arguments)
        }
        RootStatement::Query(query) => !has_word(variables, &query.target),
        RootStatement::Same(left, right) => !variables.has(left) || !variables.has(right),
        _ => false,
    }
}

fn has_word(variables: &ThreadVariables, word: &Word) -> bool
    ensures { result ≡ list_all (is_there (variables_of (all_of variables.now))) (word_names (word_of word.now)) }
{
    match word {
        Word::Variable(name) => variables.has(name),
        _ => true,
    }
}

fn has_arguments(variables: &ThreadVariables, arguments: &[Argument]) -> bool
    ensures { result ≡ list_all (is_there (variables_of (all_of variables.now))) (flat_map argument_names (map argument_of arguments.now)) }
{
    for argument in arguments {
        if !has_argument(variables, argument) {
            return false;
        }
    }
    true
}

fn has_argument(variables: &ThreadVariables, argument: &Argument) -> bool
    ensures { result ≡ list_all (is_there (variables_of (all_of variables.now))) (argument_names (argument_of argument.now)) }
{
    match argument {
        Argument::Into(expression) => has_all(expression, variables),
        Argument::Out(name) | Argument::Both(name) => variables.has(name),
    }
}

/// As deep as the expression is nested.
#[cycle(has)]
#[tactic(auto, unfolding(bridge_model::specs::RootRuns::names_in))]
fn has_all(expression: &Expression, variables: &ThreadVariables) -> bool
    ensures { result ≡ list_all (is_there (variables_of (all_of variables.now))) (names_in (expression_of expression.now)) }
{
    match expression {
        Expression::Constant(_) => true,
        Expression::Word(word) => has_word(variables, word),
        Expression::Operation(_, left, right) => {
            has_all(left, variables) && has_all(right, variables)
        }
        Expression::Any(_, held) => has_all(held, variables),
        Expression::Tuple(_, members) => have_all(members, variables),
        Expression::List(_, elements) => have_all(elements, variables),
        Expression::Bytes(elements) => have_all(elements, variables),
    }
}

#[cycle(has)]
fn have_all(expressions: &[Expression], variables: &ThreadVariables) -> bool
    ensures { result ≡ list_all (is_there (variables_of (all_of variables.now))) (names_in_all (expressions_of expressions.now)) }
{
    for expression in expressions {
        if !has_all(expression, variables) {
            return false;
        }
    }
    true
}
