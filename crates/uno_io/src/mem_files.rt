//! Files in memory, which tell their contents.
ghost use Rattle.std.specs.Prelude.{◌≡◌, ◌↔◌, ◌≤◌, Contains, length, Some, Err, IfOk, IfErr, IfSome, MatchResult, option_map, vec_items};
ghost use Rattle.std.specs.Map.{lookup};
ghost use Rattle.std.specs.Str.{bytes_eq};
ghost use Rattle.uno_io.specs.Calls.{raised};
ghost use Rattle.uno_io.specs.Files.{read_at, read_front, CountAt};
ghost use Rattle.uno_io.specs.declared.file_error.FileError.{FileError};
ghost use Rattle.uno_io.specs.MemFiles.{stored_of};

use crate::failing::Failing;
use crate::files::MOST_READ;
use crate::{FileError, Files};
use std::alloc::Global;
use std::marker::Model;

/// A file in memory.
#[derive(Drop)]
pub struct MemFile {
    pub name: String,
    pub bytes: Vec<u8>,
}

/// Files in memory, whose readings fail where they are told to.
#[derive(Drop)]
pub struct MemFiles {
    alloc: Global,
    files: Vec<MemFile>,
    failing: Failing,
}

impl Model for MemFiles {
    ghost use Rattle.uno_io.specs.Files.{Shelf};
    ghost use Rattle.uno_io.specs.MemFiles.{stored_of};

    ghost Value = { Shelf };

    ghost view = { λ f. record {
      files = stored_of f.files.items;
      failing = f.failing.failing;
      calls = f.failing.calls;
      faults = f.failing.faults;
    } };
}

impl MemFiles {
    /// These files, of which the first of a name counts. The calls that have these numbers, from 0, will fail.
    pub fn new(alloc: Global, files: Vec<MemFile>, failing: Vec<u64>) -> MemFiles
        ensures { result ≡ record { files = stored_of files.items; failing = failing.items; calls = 0; faults = 0 } }
    {
        MemFiles {
            alloc,
            files,
            failing: Failing::new(failing),
        }
    }
}

/// The bytes of the first file of a name.
fn bytes_of<'a>(files: &'a [MemFile], name: &str) -> Option<&'a [u8]>
    ensures { option_map (λ bytes. bytes.now) result ≡ lookup (bytes_eq name.now) (stored_of files.now) }
{
    for file in files {
        if name == file.name.as_str() {
            return Some(file.bytes.as_slice());
        }
    }
    None
}

/// A copy of bytes, or of the first of them where there are more than are read.
fn read_of(alloc: Global, bytes: &[u8]) -> Result<Vec<u8>, FileError>
    ensures read { IfOk result (λ read. read.items ≡ read_front bytes.now) }
    ensures bound { IfOk result (λ read. length read.items ≤ 4194305) }
    ensures want { IfErr result (λ e. e ≡ FileError.NoMemory) }
{
    let (front, _) = bytes.split_at(bytes.len().min(MOST_READ));
    let read = Vec::from_slice(alloc, front)?;
    Ok(read)
}

impl Files for MemFiles {
    ghost stored = { λ f. Some f.files };

    ghost faults = { λ f. f.faults };

    #[tactic(auto, unfolding(crate::specs::Files::read_at))]
    fn read(&mut self, name: &str) -> Result<Option<Vec<u8>>, FileError>
        ensures found { IfOk result (λ found. option_map vec_items found ≡ read_at name.now self.old.files) }
        ensures bound { IfOk result (λ found. IfSome found (λ bytes. length bytes.items ≤ 4194305)) }
        ensures kept { self.new.files ≡ self.old.files }
        ensures cause { MatchResult result (λ _. self.new.faults ≡ self.old.faults) (CountAt self.old.faults self.new.faults) }
        ensures listed { (result ≡ Err FileError.Failed) ↔ (Contains self.old.failing self.old.calls) }
        ensures failing { self.new.failing ≡ self.old.failing }
        ensures calls { self.new.calls ≡ raised self.old.calls }
    {
        if self.failing.is_next() {
            self.failing.fail();
            return Err(FileError::Failed);
        }
        self.failing.pass();
        let Some(bytes) = bytes_of(&self.files, name) else {
            return Ok(None);
        };
        let read = read_of(self.alloc, bytes)?;
        Ok(Some(read))
    }
}
