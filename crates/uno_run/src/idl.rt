//! The command `idl`: canonical UNOIDL of the registry whose text a file is.
ghost use Rattle.std.specs.Prelude.{◌≡◌, ◌≢◌};
ghost use Rattle.uno_run.specs.Idl.{IdlRun};
ghost use Rattle.uno_run.specs.Printing.{RegistryPrinted, TextPrinted, TextWritten};

use crate::Status;
use crate::files::{refused, text_of};
use idl_print::print;
use registry_reading::read_registry;
use std::alloc::Global;
use uno_io::{Failed, Files, Sink, write_all};
use uno_types::Registry;

/// Writes the canonical UNOIDL of the registry whose text the file of this name is.
pub fn idl<F: Files, O: Sink>(alloc: Global, name: &str, files: &mut F, output: &mut O) -> Status
    ensures run { IdlRun F.stored F.faults O.taken O.faults name.now files.old files.new output.old output.new result }
    ensures no_words { result ≢ Status.Words }
    ensures stays { O.closed output.new ≡ O.closed output.old }
{
    match text_of(files, name, 0) {
        Ok(text) => print_text(alloc, text.as_slice(), output),
        Err(status) => status,
    }
}

/// The same of a text.
fn print_text<O: Sink>(alloc: Global, text: &[u8], output: &mut O) -> Status
    ensures printed { TextPrinted text.now (O.taken output.old) (O.taken output.new) (O.faults output.old) (O.faults output.new) result }
    ensures silent { result ≢ Status.Done → result ≢ Status.WriteFault → output.new ≡ output.old }
    ensures no_words { result ≢ Status.Words }
    ensures stays { O.closed output.new ≡ O.closed output.old }
{
    match read_registry(alloc, text) {
        Ok(registry) => print_registry(alloc, &registry, output),
        Err(error) => refused(error),
    }
}

/// The same of a registry.
fn print_registry<O: Sink>(alloc: Global, registry: &Registry, output: &mut O) -> Status
    ensures printed { RegistryPrinted registry.now (O.taken output.old) (O.taken output.new) (O.faults output.old) (O.faults output.new) result }
    ensures silent { result ≢ Status.Done → result ≢ Status.WriteFault → output.new ≡ output.old }
    ensures no_words { result ≢ Status.Words }
    ensures stays { O.closed output.new ≡ O.closed output.old }
{
    match print(alloc, registry) {
        Ok(text) => write_text(text.as_slice(), output),
        Err(_) => Status::NoMemory,
    }
}

/// Writes a text.
pub(crate) fn write_text<O: Sink>(text: &[u8], output: &mut O) -> Status
    ensures written { TextWritten text.now (O.taken output.old) (O.taken output.new) (O.faults output.old) (O.faults output.new) result }
    ensures no_words { result ≢ Status.Words }
    ensures stays { O.closed output.new ≡ O.closed output.old }
{
    match write_all(output, text) {
        Ok(()) => Status::Done,
        Err(Failed) => Status::WriteFault,
    }
}
