//! What texts say of entities, and what a registry tells of them.

use crate::spelling::{bytes_of, cut};
use crate::texts::answer::Answer;
use idl_print::print;
use reg_text::write_registry;
use registry_reading::read_registry;
use std::alloc::Global;
use type_registry::{Function, FunctionRef, function_numbered, function_table};
use uno_types::Registry;

/// `registry TEXT`: `yes` where it is the text of its registry, or why it is none.
pub(crate) fn read(alloc: Global, text: &str, answer: &mut Answer) {
    let bytes = bytes_of(alloc, text);
    match read_registry(alloc, &bytes) {
        Ok(registry) => {
            judge_text(&registry, &bytes, answer);
            drop(registry);
        }
        Err(error) => answer.show(&error),
    }
}

fn judge_text(registry: &Registry, bytes: &[u8], answer: &mut Answer) {
    match write_registry(registry.allocator(), registry) {
        Ok(text) => answer.yes_or_no(text.as_slice() == bytes),
        Err(error) => answer.show(&error),
    }
}

/// `idl NUMBER`: the line of that number, from 1 on, of the UNOIDL of the file's registry.
pub(crate) fn idl(registry: &Registry, number: &str, answer: &mut Answer) {
    match print(registry.allocator(), registry) {
        Ok(text) => put_line(&text, number.parse::<u32>().unwrap_or(0), answer),
        Err(error) => answer.show(&error),
    }
}

fn put_line(text: &[u8], number: u32, answer: &mut Answer) {
    let mut place: u32 = 0;
    for line in std::str::from_utf8(text).unwrap_or("").lines() {
        place = place.saturating_add(1);
        if place == number {
            answer.word(line);
        }
    }
}

/// `members NAME PLACE`: the members that stand there and at the four places behind it, `-` where there is none.
pub(crate) fn members(registry: &Registry, row: &str, answer: &mut Answer) {
    let (name, place) = cut(row, " ");
    let first = place.parse::<u32>().unwrap_or(0);
    for place in first..first.saturating_add(5) {
        match registry.member(name, place) {
            Some(member) => answer.word(member.name.as_str()),
            None => answer.word("-"),
        }
    }
}

/// `functions NAME`: who declares each function of an interface, and its name.
pub(crate) fn functions(registry: &Registry, name: &str, answer: &mut Answer) {
    match function_table(registry.allocator(), registry, name) {
        Ok(table) => {
            put_functions(&table, answer);
            drop(table);
        }
        Err(error) => answer.show(&error),
    }
}

fn put_functions(functions: &[Function], answer: &mut Answer) {
    for function in functions {
        put_function(function, answer);
    }
}

fn put_function(function: &Function, answer: &mut Answer) {
    answer.word(function.owner.as_str());
    answer.word(function.name.as_str());
}

/// `function NAME NUMBER`: the same of the one of that number.
pub(crate) fn function(registry: &Registry, row: &str, answer: &mut Answer) {
    let (name, number) = cut(row, " ");
    match function_numbered(registry, name, number.parse::<u16>().unwrap_or(0)) {
        Some(function) => put_copy(registry.allocator(), &function, answer),
        None => answer.word("none"),
    }
}

fn put_copy(alloc: Global, function: &FunctionRef<'_>, answer: &mut Answer) {
    match function.copy(alloc) {
        Ok(copy) => {
            put_function(&copy, answer);
            drop(copy);
        }
        Err(error) => answer.show(&error),
    }
}
