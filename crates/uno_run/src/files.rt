//! The texts of the files that the words name.
ghost use Rattle.std.specs.Prelude.{◌≡◌, IfOk, IfErr, OnOk, Some, length, map, vec_items};
ghost use Rattle.uno_run.specs.Compile.{AllTell};
ghost use Rattle.uno_run.specs.Compiling.{AddsText, OneUnread};
ghost use Rattle.uno_run.specs.Idl.{Tells};
ghost use Rattle.uno_run.specs.Printing.{refused};
ghost use Rattle.uno_run.specs.Reading.{Unread};
ghost use Rattle.uno_run.specs.declared.status.Status.TheVariants.{BadRegistry};

use crate::{RegistryReason, Status};
use registry_reading::RegError;
use std::alloc::Global;
use uno_io::{FileError, Files};

/// The text of the file of this name, which is at this place among those that the words name.
pub(crate) fn text_of<F: Files>(files: &mut F, name: &str, place: u32) -> Result<Vec<u8>, Status>
    ensures found { IfOk result (λ text. Tells (F.stored files.old) name.now (Some text.items)) }
    ensures same { IfOk result (λ text. F.faults files.new ≡ F.faults files.old) }
    ensures unread { IfErr result (Unread (F.stored files.old) name.now place (F.faults files.old) (F.faults files.new)) }
    ensures kept { F.stored files.new ≡ F.stored files.old }
{
    match files.read(name) {
        Ok(Some(text)) => Ok(text),
        Ok(None) => Err(Status::NoFile(place)),
        Err(FileError::Failed) => Err(Status::ReadFault),
        Err(FileError::NoMemory) => Err(Status::NoMemory),
    }
}

/// The texts of the files of these names, in their order.
pub(crate) fn texts_of<F: Files>(
    alloc: Global,
    names: &[&str],
    files: &mut F,
) -> Result<Vec<Vec<u8>>, Status>
    ensures found { IfOk result (λ texts. AllTell (F.stored files.old) (map (λ s. s.now) names.now) (map vec_items texts.items)) }
    ensures same { IfOk result (λ texts. F.faults files.new ≡ F.faults files.old) }
    ensures unread { IfErr result (OneUnread (F.stored files.old) (map (λ s. s.now) names.now) (F.faults files.old) (F.faults files.new)) }
{
    let mut texts = Vec::new(alloc);
    for name in names {
        add_text(files, name, &mut texts)?;
    }
    Ok(texts)
}

/// Adds the text of the next file.
fn add_text<F: Files>(files: &mut F, name: &str, texts: &mut Vec<Vec<u8>>) -> Result<(), Status>
    ensures added { OnOk result (AddsText (F.stored files.old) name.now (map vec_items texts.old.items) (map vec_items texts.new.items)) }
    ensures same { OnOk result (F.faults files.new ≡ F.faults files.old) }
    ensures unread { IfErr result (Unread (F.stored files.old) name.now (length texts.old.items) (F.faults files.old) (F.faults files.new)) }
    ensures kept { F.stored files.new ≡ F.stored files.old }
{
    let Ok(place) = u32::try_from(texts.len()) else {
        return Err(Status::NoMemory);
    };
    let text = text_of(files, name, place)?;
    let Ok(()) = texts.push(text) else {
        return Err(Status::NoMemory);
    };
    Ok(())
}

/// The status of a refused text of a registry, which is that of the first file.
pub(crate) fn refused(error: RegError) -> Status
    ensures { result ≡ refused error }
{
    match error {
        RegError::NoMemory => Status::NoMemory,
        RegError::BadLine(line) => bad_registry(line, RegistryReason::BadLine),
        RegError::Order(line) => bad_registry(line, RegistryReason::Order),
        RegError::Rule(rule, line) => bad_registry(line, RegistryReason::Rule(rule)),
        RegError::TooLong => bad_registry(0, RegistryReason::TooLong),
    }
}

fn bad_registry(line: u32, reason: RegistryReason) -> Status
    ensures { result ≡ BadRegistry 0 line reason }
{
    Status::BadRegistry {
        file: 0,
        line,
        reason,
    }
}
