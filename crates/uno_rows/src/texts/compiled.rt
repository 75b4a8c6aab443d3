//! What files of UNOIDL mean together.

use crate::spelling::bytes_of;
use crate::texts::answer::Answer;
use idl_compile::{CompileError, compile};
use idl_print::print;
use reg_text::write_registry;
use std::alloc::Global;
use uno_types::Registry;

/// `compile TEXT`, with `\0` between two files: the text of the registry that they mean, or why they are refused, the file and the byte.
pub(crate) fn compiled(alloc: Global, text: &str, answer: &mut Answer) {
    put_compiled(alloc, &bytes_of(alloc, text), answer);
}

fn put_compiled(alloc: Global, bytes: &[u8], answer: &mut Answer) {
    match compile_parts(alloc, bytes) {
        Ok(registry) => {
            put_text(&registry, answer);
            drop(registry);
        }
        Err(CompileError::NoMemory) => answer.word("NoMemory"),
        Err(CompileError::Refused(place, reason)) => {
            answer.show(&reason);
            answer.show(&place.file);
            answer.show(&place.byte);
        }
    }
}

fn compile_parts(alloc: Global, bytes: &[u8]) -> Result<Registry, CompileError> {
    let mut files = Vec::new(alloc);
    for file in bytes.split(|byte| *byte == 0) {
        files.push(file)?;
    }
    compile(alloc, &files)
}

fn put_text(registry: &Registry, answer: &mut Answer) {
    match write_registry(registry.allocator(), registry) {
        Ok(text) => answer.put(&text),
        Err(error) => answer.show(&error),
    }
}

/// `again`: whether the UNOIDL of the file's registry compiles to that registry.
pub(crate) fn again(registry: &Registry, answer: &mut Answer) {
    let mut own = Answer::new(registry.allocator());
    put_text(registry, &mut own);
    answer.yes_or_no(own.bytes() == printed_and_compiled(registry).bytes());
}

fn printed_and_compiled(registry: &Registry) -> Answer {
    let mut answer = Answer::new(registry.allocator());
    if let Ok(text) = print(registry.allocator(), registry) {
        put_compiled(registry.allocator(), &text, &mut answer);
    }
    answer
}
