//! The statement that a line is, where all that it names fits.
ghost use Rattle.std.specs.Prelude.{◌≡◌, Some, map, option_map};
ghost use Rattle.literal_model.specs.Readings.{and_then};
ghost use Rattle.plan_model.specs.Contexts as plain;
ghost use Rattle.plan_model.specs.Statements as s;
ghost use Rattle.plan_model.specs.TypedStatements as typed;
ghost use Rattle.plan_model.specs.Typing as typing;
ghost use Rattle.uno_model.specs.Kinds.{exception_of};
ghost use Rattle.uno_model.specs.Kinds as kd;
ghost use Rattle.plan_types.specs.Expressions.{expression_of};
ghost use Rattle.plan_types.specs.Statements.{statement_of};
ghost use Rattle.plan_lines.specs.Lines.{declared_of, line_of};
ghost use Rattle.plan_lines.specs.Terms.{term_of};
ghost use Rattle.uno_entities.specs.Entities.{field_of};
ghost use Rattle.uno_entities.specs.TypeNames.{kind_of};
ghost use Rattle.plan_checks.specs.Checks.{Gives, before};

mod calls;
mod fits;
mod roots;
mod tests;

use crate::checker::Checker;
use crate::line_error::LineError;
use crate::words::{kind_of_field, kind_of_variable};
pub(crate) use calls::face_of_word;
use plan_lines::{Declared, Line, Term};
use plan_types::{Expression, LineReason, Statement};
use uno_types::{Field, Name, TypeName};

impl Checker<'_> {
    /// The statement of a method that a line is.
    #[tactic(auto, unfolding(plan_model::specs::TypedStatements::statement_of))]
    pub fn statement_of(&self, line: &Line) -> Result<Statement, LineError>
        ensures { Gives statement_of result (typed.statement_of self.now.registry.now (before self.now) (line_of line.now)) }
    {
        match line {
            Line::Let(declared, term) => self.let_of(declared, term),
            Line::SetVariable(name, term) => self.set_variable(name, term),
            Line::SetField(name, term) => self.set_field(name, term),
            Line::Call {
                to,
                target,
                function,
                arguments,
            } => Ok(Statement::Call(self.call_of(to, target, function, arguments)?)),
            Line::Query(declared, target) => Ok(Statement::Query(self.query_of(declared, target)?)),
            Line::Make(declared, name) => Ok(Statement::Make(self.making_of(declared, name)?)),
            Line::Drop(name) => self.drop_of(name),
            Line::When {
                left,
                comparison,
                right,
                back,
            } => self.when_of(left, *comparison, right, back),
            Line::Return(back) => Ok(Statement::Return(self.back_of(back)?)),
            Line::Raise(kind, term) => self.raise_of(kind, term),
            Line::Dispose => Ok(Statement::Dispose),
            Line::Behaviour { .. }
            | Line::Field(_)
            | Line::Method { .. }
            | Line::Service { .. }
            | Line::Singleton { .. }
            | Line::Export { .. }
            | Line::Thread
            | Line::End
            | Line::Ask(_, _)
            | Line::AskInstance(_)
            | Line::Same(_, _) => Err(LineError::Wrong(LineReason::Misfit)),
        }
    }

    /// A declared name with its type.
    pub(crate) fn declared_field(&self, declared: &Declared) -> Result<Field, LineError>
        ensures { Gives field_of result (typed.declared_field self.now.registry.now (declared_of declared.now)) }
    {
        let name = declared.name.copy()?;
        let kind = self.type_named(&declared.kind)?;
        Ok(Field { name, kind })
    }

    fn let_of(&self, declared: &Declared, term: &Term) -> Result<Statement, LineError>
        ensures { Gives statement_of result (typed.let_of self.now.registry.now (before self.now) (declared_of declared.now) (term_of term.now)) }
    {
        let field = self.declared_field(declared)?;
        let value = self.expression_of(term, &field.kind)?;
        Ok(Statement::Let(field, value))
    }

    fn set_variable(&self, name: &Name, term: &Term) -> Result<Statement, LineError>
        ensures { Gives statement_of result (typed.set_of self.now.registry.now (before self.now) (s.set_variable name.now) (plain.kind_of_variable (before self.now) name.now) (term_of term.now)) }
    {
        let Some(kind) = kind_of_variable(self.context, name) else {
            return Err(LineError::Wrong(LineReason::Misfit));
        };
        let name = name.copy()?;
        let value = self.expression_of(term, kind)?;
        Ok(Statement::SetVariable(name, value))
    }

    fn set_field(&self, name: &Name, term: &Term) -> Result<Statement, LineError>
        ensures { Gives statement_of result (typed.set_of self.now.registry.now (before self.now) (s.set_field name.now) (plain.kind_of_field (before self.now) name.now) (term_of term.now)) }
    {
        let Some(kind) = kind_of_field(self.context, name.as_str()) else {
            return Err(LineError::Wrong(LineReason::Misfit));
        };
        let name = name.copy()?;
        let value = self.expression_of(term, kind)?;
        Ok(Statement::SetField(name, value))
    }

    /// A parameter whose value comes out stays.
    fn drop_of(&self, name: &Name) -> Result<Statement, LineError>
        ensures { Gives statement_of result (typed.drop_of (before self.now) name.now) }
    {
        if self.context.variables.comes_out(name) {
            return Err(LineError::Wrong(LineReason::Misfit));
        }
        Ok(Statement::Drop(name.copy()?))
    }

    fn raise_of(&self, text: &Name, term: &Term) -> Result<Statement, LineError>
        ensures { Gives statement_of result (typed.raise_of self.now.registry.now (before self.now) text.now (term_of term.now)) }
    {
        let kind = self.type_named(text)?;
        self.raise_kind(kind, term)
    }

    fn raise_kind(&self, kind: TypeName, term: &Term) -> Result<Statement, LineError>
        ensures { Gives statement_of result (and_then (exception_of (kind_of kind)) (λ name. option_map (s.raise name) (typing.expression_of self.now.registry.now (before self.now) (term_of term.now) (kd.exception name)))) }
    {
        let value = self.expression_of(term, &kind)?;
        raised(kind, value)
    }
}

fn raised(kind: TypeName, value: Expression) -> Result<Statement, LineError>
    ensures { Gives statement_of result (option_map (λ name. s.raise name (expression_of value)) (exception_of (kind_of kind))) }
{
    match kind.into_exception() {
        Some(name) => Ok(Statement::Raise(name, value)),
        None => {
            drop(value);
            Err(LineError::Wrong(LineReason::Misfit))
        }
    }
}
