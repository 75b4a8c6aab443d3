//! The expressions in which no other term stands.
ghost use Rattle.std.specs.Prelude.{option_map};
ghost use Rattle.literal_model.specs.Readings.{single};
ghost use Rattle.plan_model.specs.Contexts.{kind_of_word};
ghost use Rattle.plan_model.specs.Expressions as e;
ghost use Rattle.plan_model.specs.Typing.{type_value, void_any_at, word_at};
ghost use Rattle.uno_model.specs.NamedTypes.{type_of_text};
ghost use Rattle.literal_reading.specs.Scanning.{token_of};
ghost use Rattle.plan_types.specs.Expressions.{expression_of, word_of};
ghost use Rattle.uno_entities.specs.TypeNames.{kind_of};
ghost use Rattle.plan_checks.specs.Checks.{Gives, before};

use crate::checker::Checker;
use crate::line_error::LineError;
use crate::words::{copy_word, kind_of_word};
use literal_reading::{Token, token_value};
use plan_types::{Expression, LineReason, Word};
use uno_types::{Name, TypeName};
use uno_values::{AnyValue, Value};

impl Checker<'_> {
    /// A value that is one token.
    pub(super) fn constant_of(
        &self,
        kind: &TypeName,
        token: &Token,
    ) -> Result<Expression, LineError>
        ensures { Gives expression_of result (option_map e.constant (single self.now.registry.now (kind_of kind.now) (token_of token.now))) }
    {
        match token_value(self.alloc, self.registry, kind, token)? {
            Some(value) => Ok(Expression::Constant(value)),
            None => Err(LineError::Wrong(LineReason::Misfit)),
        }
    }

    /// A type as a value.
    pub(super) fn type_value(&self, kind: &TypeName, text: &Name) -> Result<Expression, LineError>
        ensures { Gives expression_of result (type_value (kind_of kind.now) (type_of_text self.now.registry.now text.now)) }
    {
        if !matches!(kind, TypeName::Kind) {
            return Err(LineError::Wrong(LineReason::Misfit));
        }
        let named = self.type_named(text)?;
        Ok(Expression::Constant(Value::Kind(named)))
    }

    /// The any that holds nothing.
    pub(super) fn void_any_at(&self, kind: &TypeName) -> Result<Expression, LineError>
        ensures { Gives expression_of result (void_any_at (kind_of kind.now)) }
    {
        if !matches!(kind, TypeName::Any) {
            return Err(LineError::Wrong(LineReason::Misfit));
        }
        let held = AnyValue {
            kind: TypeName::Void,
            value: Value::Void,
        };
        let any = Box::new(self.alloc, held)?;
        Ok(Expression::Constant(Value::Any(any)))
    }

    /// A word whose type fits.
    pub(super) fn word_at(&self, kind: &TypeName, word: &Word) -> Result<Expression, LineError>
        ensures { Gives expression_of result (word_at self.now.registry.now (kind_of kind.now) (word_of word.now) (kind_of_word (before self.now) (word_of word.now))) }
    {
        let Some(from) = kind_of_word(self.context, word) else {
            return Err(LineError::Wrong(LineReason::Misfit));
        };
        if !self.kind_fits(kind, from) {
            return Err(LineError::Wrong(LineReason::Misfit));
        }
        Ok(Expression::Word(copy_word(word)?))
    }
}
