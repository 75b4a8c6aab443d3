//! Whether the terms of a line fit their places, however deep they are nested.
ghost use Rattle.std.specs.Prelude.{◌≡◌, ◌&&◌, map, option_map, is_some};
ghost use Rattle.plan_model.specs.Contexts.{open_function};
ghost use Rattle.plan_model.specs.TypedStatements as typed;
ghost use Rattle.plan_model.specs.TypedStatements.{result_kind_of};
ghost use Rattle.plan_model.specs.Typing as typing;
ghost use Rattle.plan_model.specs.declared.line_reason.LineReason.TheVariants.{Misfit};
ghost use Rattle.uno_model.specs.Kinds.{exception_of};
ghost use Rattle.plan_types.specs.Expressions.{word_of};
ghost use Rattle.plan_lines.specs.Lines.{declared_of, line_of};
ghost use Rattle.plan_lines.specs.Terms.{term_of};
ghost use Rattle.type_registry.specs.Functions.{lent_function, lent_param};
ghost use Rattle.uno_entities.specs.TypeNames.{kind_of};
ghost use Rattle.plan_checks.specs.Checks.{Passes, before};
ghost use Rattle.plan_checks.specs.Fits.{term_fits, call_fits_with};

use crate::checker::Checker;
use crate::context::Block;
use crate::line_error::LineError;
use crate::statements::face_of_word;
use crate::statements::tests::is_compared;
use crate::words::{kind_of_field, kind_of_variable, kind_of_word};
use plan_lines::{Declared, Line, Term};
use plan_types::{Comparison, LineReason, Word};
use type_registry::{FunctionRef, ParamRef};
use uno_types::{Name, TypeName, Way};

impl Checker<'_> {
    /// Refuses a line that is no statement of a method, or does not fit.
    #[tactic(auto, unfolding(plan_model::specs::TypedStatements::statement_of))]
    pub fn statement_fits(&self, line: &Line) -> Result<(), LineError>
        ensures { Passes Misfit result (is_some (typed.statement_of self.now.registry.now (before self.now) (line_of line.now))) }
    {
        match line {
            Line::Let(declared, term) => self.let_fits(declared, term),
            Line::SetVariable(name, term) => {
                self.set_fits(kind_of_variable(self.context, name), term)
            }
            Line::SetField(name, term) => {
                self.set_fits(kind_of_field(self.context, name.as_str()), term)
            }
            Line::Call {
                to,
                target,
                function,
                arguments,
            } => self.call_fits(to, target, function, arguments),
            Line::When {
                left,
                comparison,
                right,
                back,
            } => self.when_fits(left, *comparison, right, back),
            Line::Return(back) => self.back_fits(back),
            Line::Raise(kind, term) => self.raise_fits(kind, term),
            _ => {
                let statement = self.statement_of(line)?;
                drop(statement);
                Ok(())
            }
        }
    }

    /// Refuses a line that is no statement of a root, or does not fit.
    #[tactic(auto, unfolding(plan_model::specs::TypedStatements::root_statement_of))]
    pub fn root_statement_fits(&self, line: &Line) -> Result<(), LineError>
        ensures { Passes Misfit result (is_some (typed.root_statement_of self.now.registry.now (before self.now) (line_of line.now))) }
    {
        match line {
            Line::Call {
                to,
                target,
                function,
                arguments,
            } => self.call_fits(to, target, function, arguments),
            _ => {
                let statement = self.root_statement_of(line)?;
                drop(statement);
                Ok(())
            }
        }
    }

    fn let_fits(&self, declared: &Declared, term: &Term) -> Result<(), LineError>
        ensures { Passes Misfit result (is_some (typed.let_of self.now.registry.now (before self.now) (declared_of declared.now) (term_of term.now))) }
    {
        let kind = self.type_named(&declared.kind)?;
        self.term_fits(term, &kind)
    }

    fn set_fits(&self, kind: Option<&TypeName>, term: &Term) -> Result<(), LineError>
        ensures { Passes Misfit result (term_fits self.now.registry.now (before self.now) (option_map (λ k. kind_of k.now) kind.entry) (term_of term.now)) }
    {
        match kind {
            Some(kind) => self.term_fits(term, kind),
            None => Err(LineError::Wrong(LineReason::Misfit)),
        }
    }

    fn raise_fits(&self, text: &Name, term: &Term) -> Result<(), LineError>
        ensures { Passes Misfit result (is_some (typed.raise_of self.now.registry.now (before self.now) text.now (term_of term.now))) }
    {
        let kind = self.type_named(text)?;
        if !is_exception(&kind) {
            return Err(LineError::Wrong(LineReason::Misfit));
        }
        self.term_fits(term, &kind)
    }

    fn when_fits(
        &self,
        left: &Word,
        comparison: Comparison,
        right: &Term,
        back: &Option<Term>,
    ) -> Result<(), LineError>
        ensures { Passes Misfit result (is_some (typed.test_of self.now.registry.now (before self.now) (word_of left.now) comparison (term_of right.now)) && is_some (typed.back_of self.now.registry.now (before self.now) (option_map term_of back.now))) }
    {
        self.test_fits(left, comparison, right)?;
        self.back_fits(back)
    }

    fn test_fits(&self, left: &Word, comparison: Comparison, right: &Term) -> Result<(), LineError>
        ensures { Passes Misfit result (is_some (typed.test_of self.now.registry.now (before self.now) (word_of left.now) comparison (term_of right.now))) }
    {
        let Some(kind) = kind_of_word(self.context, left) else {
            return Err(LineError::Wrong(LineReason::Misfit));
        };
        let kind = kind.copy(self.alloc)?;
        if !is_compared(comparison, &kind) {
            return Err(LineError::Wrong(LineReason::Misfit));
        }
        self.term_fits(right, &kind)
    }

    fn back_fits(&self, back: &Option<Term>) -> Result<(), LineError>
        ensures { Passes Misfit result (is_some (typed.back_of self.now.registry.now (before self.now) (option_map term_of back.now))) }
    {
        match back {
            Some(term) => self.returned_fits(term),
            None => Ok(()),
        }
    }

    fn returned_fits(&self, term: &Term) -> Result<(), LineError>
        ensures { Passes Misfit result (is_some (typing.expression_of self.now.registry.now (before self.now) (term_of term.now) (result_kind_of (open_function (before self.now).block)))) }
    {
        match &self.context.block {
            Block::Method(_, opened) => self.term_fits(term, &opened.function.result),
            Block::Top | Block::Behaviour(_) | Block::Thread(_) => {
                self.term_fits(term, &TypeName::Void)
            }
        }
    }

    #[tactic(auto, unfolding(plan_model::specs::TypedStatements::call_of))]
    fn call_fits(
        &self,
        to: &Option<Declared>,
        target: &Word,
        function: &Name,
        terms: &[Term],
    ) -> Result<(), LineError>
        ensures { Passes Misfit result (is_some (typed.call_of self.now.registry.now (before self.now) (option_map declared_of to.now) (word_of target.now) function.now (map term_of terms.now))) }
    {
        let Some(face) = face_of_word(self.context, target) else {
            return Err(LineError::Wrong(LineReason::Misfit));
        };
        let found = self.called_function(face.as_str(), function.as_str())?;
        let Some(called) = found else {
            return Err(LineError::Wrong(LineReason::Misfit));
        };
        self.call_fits_with(to, &called, terms)
    }

    fn call_fits_with(
        &self,
        to: &Option<Declared>,
        called: &FunctionRef<'_>,
        terms: &[Term],
    ) -> Result<(), LineError>
        ensures { Passes Misfit result (call_fits_with self.now.registry.now (before self.now) (lent_function called.now) (option_map declared_of to.now) (map term_of terms.now)) }
    {
        let to = self.result_field(called, to)?;
        drop(to);
        self.arguments_fit(called, terms)
    }

    fn arguments_fit(&self, called: &FunctionRef<'_>, terms: &[Term]) -> Result<(), LineError>
        ensures { Passes Misfit result (is_some (typing.arguments_of self.now.registry.now (before self.now) (lent_function called.now).params (map term_of terms.now))) }
    {
        let mut place = 0;
        for term in terms {
            let Some(param) = called.param(place) else {
                return Err(LineError::Wrong(LineReason::Misfit));
            };
            self.argument_fits(param, term)?;
            place += 1;
        }
        if place < called.param_count() {
            return Err(LineError::Wrong(LineReason::Misfit));
        }
        Ok(())
    }

    #[tactic(auto, unfolding(plan_model::specs::Typing::argument_of))]
    fn argument_fits(&self, param: ParamRef<'_>, term: &Term) -> Result<(), LineError>
        ensures { Passes Misfit result (is_some (typing.argument_of self.now.registry.now (before self.now) (lent_param param.entry) (term_of term.now))) }
    {
        match param.way {
            Way::Into => self.term_fits(term, param.kind),
            Way::Out | Way::Both => {
                let name = self.variable_for(param, term)?;
                drop(name);
                Ok(())
            }
        }
    }
}

fn is_exception(kind: &TypeName) -> bool
    ensures { result ≡ is_some (exception_of (kind_of kind.now)) }
{
    match kind {
        TypeName::Exception(_) => true,
        TypeName::Void
        | TypeName::Char
        | TypeName::Boolean
        | TypeName::Byte
        | TypeName::Short
        | TypeName::UnsignedShort
        | TypeName::Long
        | TypeName::UnsignedLong
        | TypeName::Hyper
        | TypeName::UnsignedHyper
        | TypeName::Str
        | TypeName::Kind
        | TypeName::Any
        | TypeName::Enum(_)
        | TypeName::Struct(_)
        | TypeName::Interface(_)
        | TypeName::Sequence(_) => false,
    }
}
