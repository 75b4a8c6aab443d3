//! The variables behind a statement.
ghost use Rattle.std.specs.Prelude.{◌≡◌, option_map, OnOk};
ghost use Rattle.plan_types.specs.Statements.{statement_of, root_statement_of};
ghost use Rattle.uno_entities.specs.Entities.{field_of};
ghost use Rattle.uno_entities.specs.TypeNames.{kind_of};
ghost use Rattle.uno_model.specs.Kinds as kd;
ghost use Rattle.behaviour_text.specs.Steps.{scoped_more, scoped_less, scoped_result, scoped_behind, scoped_behind_root};

use plan_checks::{Scope, Scoped};
use plan_types::{RootStatement, Statement};
use std::alloc::Global;
use uno_base::NoMemory;
use uno_types::{Field, Name, TypeName};

/// The variables behind a statement of a method.
pub(crate) fn scope_behind(
    alloc: Global,
    variables: &mut Scope,
    statement: &Statement,
) -> Result<(), NoMemory>
    ensures { OnOk result (variables.new ≡ scoped_behind (statement_of statement.now) variables.old) }
{
    match statement {
        Statement::Let(field, _) => add(alloc, variables, field),
        Statement::Call(call) => add_result(alloc, variables, &call.to),
        Statement::Query(query) => add_interface(variables, &query.to, &query.wanted),
        Statement::Make(making) => add_interface(variables, &making.to, &making.face),
        Statement::Drop(name) => {
            variables.remove(name);
            Ok(())
        }
        Statement::SetVariable(_, _)
        | Statement::SetField(_, _)
        | Statement::When(_, _)
        | Statement::Return(_)
        | Statement::Raise(_, _)
        | Statement::Dispose => Ok(()),
    }
}

/// The variables behind a statement of a root.
pub(crate) fn scope_behind_root(
    alloc: Global,
    variables: &mut Scope,
    statement: &RootStatement,
) -> Result<(), NoMemory>
    ensures { OnOk result (variables.new ≡ scoped_behind_root (root_statement_of statement.now) variables.old) }
{
    match statement {
        RootStatement::Ask {
            to,
            wanted,
            name: _,
        } => add_interface(variables, to, wanted),
        RootStatement::AskInstance { to, wanted } => add_interface(variables, to, wanted),
        RootStatement::Call(call) => add_result(alloc, variables, &call.to),
        RootStatement::Query(query) => add_interface(variables, &query.to, &query.wanted),
        RootStatement::Make(making) => add_interface(variables, &making.to, &making.face),
        RootStatement::Drop(name) => {
            variables.remove(name);
            Ok(())
        }
        RootStatement::Same(_, _) | RootStatement::Dispose => Ok(()),
    }
}

fn add(alloc: Global, variables: &mut Scope, field: &Field) -> Result<(), NoMemory>
    ensures { OnOk result (variables.new ≡ scoped_more (field_of field.now).name (field_of field.now).kind variables.old) }
{
    let kind = field.kind.copy(alloc)?;
    add_kind(variables, &field.name, kind)
}

fn add_result(alloc: Global, variables: &mut Scope, to: &Option<Field>) -> Result<(), NoMemory>
    ensures { OnOk result (variables.new ≡ scoped_result (option_map field_of to.now) variables.old) }
{
    match to {
        Some(field) => add(alloc, variables, field),
        None => Ok(()),
    }
}

fn add_interface(variables: &mut Scope, name: &Name, face: &Name) -> Result<(), NoMemory>
    ensures { OnOk result (variables.new ≡ scoped_more name.now (kd.interface face.now) variables.old) }
{
    let kind = TypeName::Interface(face.copy()?);
    add_kind(variables, name, kind)
}

fn add_kind(variables: &mut Scope, name: &Name, kind: TypeName) -> Result<(), NoMemory>
    ensures { OnOk result (variables.new ≡ scoped_more name.now (kind_of kind) variables.old) }
{
    let name = name.copy()?;
    variables.push(Scoped {
        name,
        kind,
        comes_out: false,
    })
}
