//! The statement of a root that a line is.
ghost use Rattle.std.specs.Prelude.{◌≡◌, Some, map, option_map};
ghost use Rattle.plan_model.specs.Statements as s;
ghost use Rattle.plan_model.specs.TypedStatements as typed;
ghost use Rattle.plan_model.specs.TypedStatements.{face_of_text};
ghost use Rattle.plan_types.specs.Statements.{root_statement_of};
ghost use Rattle.plan_lines.specs.Lines.{declared_of, line_of};
ghost use Rattle.plan_checks.specs.Checks.{Gives, before};

use crate::checker::Checker;
use crate::line_error::LineError;
use plan_lines::{Declared, Line};
use plan_types::{LineReason, RootStatement};
use uno_types::{Name, Text};

impl Checker<'_> {
    /// The statement of a root that a line is.
    #[tactic(auto, unfolding(plan_model::specs::TypedStatements::root_statement_of))]
    pub fn root_statement_of(&self, line: &Line) -> Result<RootStatement, LineError>
        ensures { Gives root_statement_of result (typed.root_statement_of self.now.registry.now (before self.now) (line_of line.now)) }
    {
        match line {
            Line::Ask(declared, name) => self.ask_of(declared, name),
            Line::AskInstance(declared) => self.ask_instance_of(declared),
            Line::Call {
                to,
                target,
                function,
                arguments,
            } => Ok(RootStatement::Call(self.call_of(to, target, function, arguments)?)),
            Line::Query(declared, target) => Ok(RootStatement::Query(self.query_of(
                declared, target,
            )?)),
            Line::Make(declared, name) => Ok(RootStatement::Make(self.making_of(declared, name)?)),
            Line::Drop(name) => Ok(RootStatement::Drop(name.copy()?)),
            Line::Same(one, other) => same_of(one, other),
            Line::Dispose => Ok(RootStatement::Dispose),
            Line::Behaviour { .. }
            | Line::Field(_)
            | Line::Method { .. }
            | Line::Service { .. }
            | Line::Singleton { .. }
            | Line::Export { .. }
            | Line::Thread
            | Line::End
            | Line::Let(_, _)
            | Line::SetVariable(_, _)
            | Line::SetField(_, _)
            | Line::When { .. }
            | Line::Return(_)
            | Line::Raise(_, _) => Err(LineError::Wrong(LineReason::Misfit)),
        }
    }

    fn ask_of(&self, declared: &Declared, name: &Text) -> Result<RootStatement, LineError>
        ensures { Gives root_statement_of result (option_map (λ wanted. s.ask declared.now.name wanted name.now) (face_of_text self.now.registry.now declared.now.kind)) }
    {
        let wanted = self.face_named(&declared.kind)?;
        let to = declared.name.copy()?;
        let name = name.copy()?;
        Ok(RootStatement::Ask { to, wanted, name })
    }

    fn ask_instance_of(&self, declared: &Declared) -> Result<RootStatement, LineError>
        ensures { Gives root_statement_of result (option_map (s.ask_instance declared.now.name) (face_of_text self.now.registry.now declared.now.kind)) }
    {
        let wanted = self.face_named(&declared.kind)?;
        let to = declared.name.copy()?;
        Ok(RootStatement::AskInstance { to, wanted })
    }
}

fn same_of(one: &Name, other: &Name) -> Result<RootStatement, LineError>
    ensures { Gives root_statement_of result (Some (s.same one.now other.now)) }
{
    let one = one.copy()?;
    let other = other.copy()?;
    Ok(RootStatement::Same(one, other))
}
