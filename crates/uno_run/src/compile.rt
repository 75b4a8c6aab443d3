//! The command `compile`: the text of the registry that files of UNOIDL mean together.
ghost use Rattle.std.specs.Prelude.{◌≡◌, ◌≢◌, Err, IfErr, IfOk, Ok, map, vec_items};
ghost use Rattle.idl_compile.specs.Refusing.{Tells};
ghost use Rattle.idl_compiled_model.specs.Compiling.{IsCompiled};
ghost use Rattle.uno_run.specs.Compile.{CompileRun};
ghost use Rattle.uno_run.specs.Compiling.{RegistryWritten, TextsCompiled, status_of};

use crate::Status;
use crate::files::texts_of;
use crate::idl::write_text;
use idl_compile::{CompileError, compile as compile_files};
use reg_text::write_registry;
use std::alloc::Global;
use uno_base::NoMemory;
use uno_io::{Files, Sink};
use uno_types::Registry;

/// Writes the text of the registry that the files of these names mean together. All are read before one is judged.
pub(crate) fn compile<F: Files, O: Sink>(
    alloc: Global,
    names: &[&str],
    files: &mut F,
    output: &mut O,
) -> Status
    ensures run { CompileRun F.stored F.faults O.taken O.faults (map (λ s. s.now) names.now) files.old files.new output.old output.new result }
    ensures no_words { result ≢ Status.Words }
    ensures stays { O.closed output.new ≡ O.closed output.old }
{
    match texts_of(alloc, names, files) {
        Ok(texts) => compile_texts(alloc, texts.as_slice(), output),
        Err(status) => status,
    }
}

/// The same of their texts.
fn compile_texts<O: Sink>(alloc: Global, texts: &[Vec<u8>], output: &mut O) -> Status
    ensures compiled { TextsCompiled (map vec_items texts.now) (O.taken output.old) (O.taken output.new) (O.faults output.old) (O.faults output.new) result }
    ensures silent { result ≢ Status.Done → result ≢ Status.WriteFault → output.new ≡ output.old }
    ensures stays { O.closed output.new ≡ O.closed output.old }
{
    match registry_of(alloc, texts) {
        Ok(registry) => write(alloc, &registry, output),
        Err(error) => refused(error),
    }
}

/// The registry that texts mean together.
fn registry_of(alloc: Global, texts: &[Vec<u8>]) -> Result<Registry, CompileError>
    ensures accepted { IfOk result (λ registry. IsCompiled (map vec_items texts.now) (Ok registry)) }
    ensures refused { IfErr result (λ e. Tells e (λ refusal. IsCompiled (map vec_items texts.now) (Err refusal))) }
{
    match slices(alloc, texts) {
        Ok(files) => compile_files(alloc, files.as_slice()),
        Err(NoMemory) => Err(CompileError::NoMemory),
    }
}

/// Texts, borrowed.
fn slices(alloc: Global, texts: &[Vec<u8>]) -> Result<Vec<&[u8]>, NoMemory>
    ensures { IfOk result (λ files. map (λ text. text.now) files.items ≡ map vec_items texts.now) }
{
    let mut files = Vec::new(alloc);
    for text in texts {
        files.push(text.as_slice())?;
    }
    Ok(files)
}

/// Writes the text of a registry.
fn write<O: Sink>(alloc: Global, registry: &Registry, output: &mut O) -> Status
    ensures written { RegistryWritten registry.now (O.taken output.old) (O.taken output.new) (O.faults output.old) (O.faults output.new) result }
    ensures silent { result ≢ Status.Done → result ≢ Status.WriteFault → output.new ≡ output.old }
    ensures stays { O.closed output.new ≡ O.closed output.old }
{
    match write_registry(alloc, registry) {
        Ok(text) => write_text(text.as_slice(), output),
        Err(NoMemory) => Status::NoMemory,
    }
}

/// The status of refused texts.
fn refused(error: CompileError) -> Status
    ensures { result ≡ status_of error }
{
    match error {
        CompileError::NoMemory => Status::NoMemory,
        CompileError::Refused(place, reason) => Status::BadUnoidl {
            file: place.file,
            byte: place.byte,
            reason,
        },
    }
}
