//! Lines of the top and of a behaviour.
ghost use Rattle.std.specs.Prelude.{length};
ghost use Rattle.plan_model.specs.Lines as plain;
ghost use Rattle.plan_reading_model.specs.LineReading as model;
ghost use Rattle.plan_reading_model.specs.Parts.{paths_on};
ghost use Rattle.plan_lines.specs.Lines.{line_of};
ghost use Rattle.plan_lines.specs.Fronts.{behind_paths};
ghost use Rattle.plan_lines.specs.Reads.{Gives};

use crate::line::{Declared, Line};
use crate::marks::{before_blank, whole};
use crate::names::{export_name_at, function_at, identifier_at, path_at, two_names};
use crate::types::type_at;
use crate::unread::Unread;
use std::alloc::Global;
use uno_types::{Name, Text};

/// `behaviour ID PATH ..`.
#[tactic(auto, unfolding(plan_reading_model::specs::LineReading::behaviour_at))]
pub(crate) fn behaviour_at(alloc: Global, bytes: &[u8]) -> Result<Line, Unread>
    ensures { Gives line_of result (model.behaviour_at bytes.now) }
{
    let Some((name, rest)) = before_blank(identifier_at(bytes)) else {
        return Err(Unread::Form);
    };
    let faces = paths_on(alloc, rest)?;
    let Ok(name) = Name::of(alloc, name) else {
        drop(faces);
        return Err(Unread::NoMemory);
    };
    Ok(Line::Behaviour { name, faces })
}

/// Paths with one blank between any two, up to the end.
fn paths_on(alloc: Global, bytes: &[u8]) -> Result<Vec<Name>, Unread>
    ensures { Gives (λ paths. paths.items) result (paths_on (length bytes.now) bytes.now) }
{
    let mut paths = Vec::new(alloc);
    match push_paths(alloc, bytes, &mut paths) {
        Ok(_) => Ok(paths),
        Err(unread) => {
            drop(paths);
            Err(unread)
        }
    }
}

/// The paths from the first one on, behind those that are there. There are no more of them than bytes.
fn push_paths(alloc: Global, bytes: &[u8], paths: &mut Vec<Name>) -> Result<(), Unread>
    ensures { Gives (λ _. paths.new.items) result (behind_paths paths.old.items (paths_on (length bytes.now) bytes.now)) }
{
    let mut rest = bytes;
    for _ in 0..bytes.len() {
        let Some((path, behind)) = path_at(rest) else {
            return Err(Unread::Form);
        };
        let path = Name::of(alloc, path)?;
        paths.push(path)?;
        let Some((first, next)) = behind.split_first() else {
            return Ok(());
        };
        if *first != b' ' {
            return Err(Unread::Form);
        }
        rest = next;
    }
    Err(Unread::Form)
}

/// `field ID TYPE`.
#[tactic(auto, unfolding(plan_reading_model::specs::LineReading::field_at))]
pub(crate) fn field_at(alloc: Global, bytes: &[u8]) -> Result<Line, Unread>
    ensures { Gives line_of result (model.field_at bytes.now) }
{
    let Some((name, rest)) = before_blank(identifier_at(bytes)) else {
        return Err(Unread::Form);
    };
    let Some(kind) = whole(type_at(rest)) else {
        return Err(Unread::Form);
    };
    match two_names(alloc, name, kind) {
        Ok((name, kind)) => Ok(Line::Field(Declared { name, kind })),
        Err(_) => Err(Unread::NoMemory),
    }
}

/// `method PATH FUNCTION`.
#[tactic(auto, unfolding(plan_reading_model::specs::LineReading::method_at))]
pub(crate) fn method_at(alloc: Global, bytes: &[u8]) -> Result<Line, Unread>
    ensures { Gives line_of result (model.method_at bytes.now) }
{
    let Some((face, rest)) = before_blank(path_at(bytes)) else {
        return Err(Unread::Form);
    };
    let Some(function) = whole(function_at(rest)) else {
        return Err(Unread::Form);
    };
    match two_names(alloc, face, function) {
        Ok((face, function)) => Ok(Line::Method { face, function }),
        Err(_) => Err(Unread::NoMemory),
    }
}

/// `service PATH ID`.
#[tactic(auto, unfolding(plan_reading_model::specs::LineReading::offer_at))]
pub(crate) fn service_at(alloc: Global, bytes: &[u8]) -> Result<Line, Unread>
    ensures { Gives line_of result (model.offer_at plain.service bytes.now) }
{
    let Some((name, rest)) = before_blank(path_at(bytes)) else {
        return Err(Unread::Form);
    };
    let Some(behaviour) = whole(identifier_at(rest)) else {
        return Err(Unread::Form);
    };
    match two_names(alloc, name, behaviour) {
        Ok((name, behaviour)) => Ok(Line::Service { name, behaviour }),
        Err(_) => Err(Unread::NoMemory),
    }
}

/// `singleton PATH ID`.
#[tactic(auto, unfolding(plan_reading_model::specs::LineReading::offer_at))]
pub(crate) fn singleton_at(alloc: Global, bytes: &[u8]) -> Result<Line, Unread>
    ensures { Gives line_of result (model.offer_at plain.singleton bytes.now) }
{
    let Some((name, rest)) = before_blank(path_at(bytes)) else {
        return Err(Unread::Form);
    };
    let Some(behaviour) = whole(identifier_at(rest)) else {
        return Err(Unread::Form);
    };
    match two_names(alloc, name, behaviour) {
        Ok((name, behaviour)) => Ok(Line::Singleton { name, behaviour }),
        Err(_) => Err(Unread::NoMemory),
    }
}

/// `export "NAME" ID`.
#[tactic(auto, unfolding(plan_reading_model::specs::LineReading::export_at))]
pub(crate) fn export_at(alloc: Global, bytes: &[u8]) -> Result<Line, Unread>
    ensures { Gives line_of result (model.export_at bytes.now) }
{
    let Some((name, rest)) = before_blank(export_name_at(bytes)) else {
        return Err(Unread::Form);
    };
    let Some(behaviour) = whole(identifier_at(rest)) else {
        return Err(Unread::Form);
    };
    let Ok(behaviour) = Name::of(alloc, behaviour) else {
        return Err(Unread::NoMemory);
    };
    match Text::of(alloc, name) {
        Ok(name) => Ok(Line::Export { name, behaviour }),
        Err(_) => {
            drop(behaviour);
            Err(Unread::NoMemory)
        }
    }
}
