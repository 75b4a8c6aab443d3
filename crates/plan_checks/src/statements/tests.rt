//! Tests, and what is returned.
ghost use Rattle.std.specs.Prelude.{◌≡◌, Some, option_map};
ghost use Rattle.plan_model.specs.Contexts.{open_function};
ghost use Rattle.plan_model.specs.Evaluation.{both_values};
ghost use Rattle.plan_model.specs.Statements as s;
ghost use Rattle.plan_model.specs.TypedStatements as typed;
ghost use Rattle.plan_model.specs.TypedStatements.{is_compared, result_kind_of};
ghost use Rattle.plan_model.specs.Typing as typing;
ghost use Rattle.plan_types.specs.Expressions.{expression_of, word_of};
ghost use Rattle.plan_types.specs.Statements.{statement_of, test_of};
ghost use Rattle.plan_lines.specs.Terms.{term_of};
ghost use Rattle.uno_entities.specs.TypeNames.{kind_of};
ghost use Rattle.plan_checks.specs.Checks.{Gives, before};

use crate::checker::Checker;
use crate::context::Block;
use crate::kinds::is_whole;
use crate::line_error::LineError;
use crate::words::{copy_word, kind_of_word};
use plan_lines::Term;
use plan_types::{Comparison, Expression, LineReason, Statement, Test, Word};
use uno_types::TypeName;

impl Checker<'_> {
    /// A test, and what is returned where it holds.
    pub(crate) fn when_of(
        &self,
        left: &Word,
        comparison: Comparison,
        right: &Term,
        back: &Option<Term>,
    ) -> Result<Statement, LineError>
        ensures { Gives statement_of result (both_values (typed.test_of self.now.registry.now (before self.now) (word_of left.now) comparison (term_of right.now)) (typed.back_of self.now.registry.now (before self.now) (option_map term_of back.now)) (λ t b. Some (s.when t b))) }
    {
        let test = self.test_of(left, comparison, right)?;
        let back = self.back_of(back)?;
        Ok(Statement::When(test, back))
    }

    /// A test of what a word stands for.
    fn test_of(&self, left: &Word, comparison: Comparison, right: &Term) -> Result<Test, LineError>
        ensures { Gives test_of result (typed.test_of self.now.registry.now (before self.now) (word_of left.now) comparison (term_of right.now)) }
    {
        let Some(kind) = kind_of_word(self.context, left) else {
            return Err(LineError::Wrong(LineReason::Misfit));
        };
        let kind = kind.copy(self.alloc)?;
        self.test_at(left, comparison, right, &kind)
    }

    fn test_at(
        &self,
        left: &Word,
        comparison: Comparison,
        right: &Term,
        kind: &TypeName,
    ) -> Result<Test, LineError>
        ensures { Gives test_of result (typing.only_if (is_compared comparison (kind_of kind.now)) (option_map (λ a. record { left = word_of left.now; comparison = comparison; right = a }) (typing.expression_of self.now.registry.now (before self.now) (term_of right.now) (kind_of kind.now)))) }
    {
        if !is_compared(comparison, kind) {
            return Err(LineError::Wrong(LineReason::Misfit));
        }
        let left = copy_word(left)?;
        let right = self.expression_of(right, kind)?;
        Ok(Test {
            left,
            comparison,
            right,
        })
    }

    /// What is returned, at the type of the open function's result.
    pub(crate) fn back_of(&self, back: &Option<Term>) -> Result<Option<Expression>, LineError>
        ensures { Gives (λ b. option_map expression_of b) result (typed.back_of self.now.registry.now (before self.now) (option_map term_of back.now)) }
    {
        match back {
            Some(term) => Ok(Some(self.returned(term)?)),
            None => Ok(None),
        }
    }

    fn returned(&self, term: &Term) -> Result<Expression, LineError>
        ensures { Gives expression_of result (typing.expression_of self.now.registry.now (before self.now) (term_of term.now) (result_kind_of (open_function (before self.now).block))) }
    {
        match &self.context.block {
            Block::Method(_, opened) => self.expression_of(term, &opened.function.result),
            Block::Top | Block::Behaviour(_) | Block::Thread(_) => {
                self.expression_of(term, &TypeName::Void)
            }
        }
    }
}

/// Only numbers of a whole type are less than one another.
pub(crate) fn is_compared(comparison: Comparison, kind: &TypeName) -> bool
    ensures { result ≡ is_compared comparison (kind_of kind.now) }
{
    match comparison {
        Comparison::Equal => true,
        Comparison::Less => is_whole(kind),
    }
}
