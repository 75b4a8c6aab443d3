//! Types and values of words, among them such as no text says: values with other members than their type has, of types that the registry
//! has not, and with objects.
//!
//! A type is its name; `struct/t.None` is also one where the registry has none of that name, or one of another kind, and `seq/` makes a
//! sequence of any. A value stands behind its parts, with `; ` between them: `long: 5; string: "abc"; tuple: 2 t.Pair` is a struct of two
//! members. `own: t.XTop a` is the object `a` of the own side, `peer: t.XTop a` one of the peer's; `list: 2 long` and `any of: long` have
//! so many values and the last one; `kind: long` is a type and `enum: 7 t.Colour` an item. Any other word is a type, with a literal.
ghost use Rattle.uno_model.specs.Sound.{IsSound};

use crate::spelling::cut;
use crate::texts::answer::Answer;
use crate::texts::values::value_of;
use std::alloc::Global;
use uno_types::{Name, Registry, Text, TypeName};
use uno_values::{AnyValue, Reference, Value, depth_of, fits, refs_of, weight};

/// `stands TYPE | TYPE, TYPE, ..`: those that may stand where the first is asked.
pub(crate) fn standing(registry: &Registry, row: &str, answer: &mut Answer)
    requires { IsSound registry.now }
{
    let (word, words) = cut(row, " | ");
    match type_made(registry, word) {
        Some(to) => {
            put_standing(registry, &to, words, answer);
            drop(to);
        }
        None => answer.word("no type"),
    }
}

fn put_standing(registry: &Registry, to: &TypeName, words: &str, answer: &mut Answer)
    requires { IsSound registry.now }
{
    for word in words.split(", ") {
        match type_made(registry, word) {
            Some(from) => {
                put_if(registry.assignable(to, &from), word, answer);
                drop(from);
            }
            None => answer.word("no type"),
        }
    }
}

fn put_if(it_may: bool, word: &str, answer: &mut Answer) {
    if it_may {
        answer.word(word);
    }
}

/// `fits TYPE | VALUE`: whether the value fits the type.
pub(crate) fn fitting(registry: &Registry, row: &str, answer: &mut Answer)
    requires { IsSound registry.now }
{
    let (word, words) = cut(row, " | ");
    match type_made(registry, word) {
        Some(kind) => {
            judge_fit(registry, &kind, words, answer);
            drop(kind);
        }
        None => answer.word("no type"),
    }
}

fn judge_fit(registry: &Registry, kind: &TypeName, words: &str, answer: &mut Answer)
    requires { IsSound registry.now }
{
    match value_made(registry, words) {
        Some(value) => {
            answer.yes_or_no(fits(registry, &value, kind));
            drop(value);
        }
        None => answer.word("no value"),
    }
}

/// `weight VALUE`: how many bytes it takes at most, how deep it is, and the literal and the objects of a copy.
pub(crate) fn weighed(registry: &Registry, words: &str, answer: &mut Answer)
    requires { IsSound registry.now }
{
    match value_made(registry, words) {
        Some(value) => {
            answer.show(&weight(registry, &value));
            answer.show(&depth_of(&value));
            put_copy(registry, &value, answer);
            drop(value);
        }
        None => answer.word("no value"),
    }
}

fn put_copy(registry: &Registry, value: &Value, answer: &mut Answer) {
    match value.copy(registry.allocator()) {
        Ok(copy) => {
            answer.value(registry, &copy);
            put_objects(registry.allocator(), &copy, answer);
            drop(copy);
        }
        Err(error) => answer.show(&error),
    }
}

fn put_objects(alloc: Global, value: &Value, answer: &mut Answer) {
    match refs_of(alloc, value) {
        Ok(references) => {
            for reference in &references {
                put_object(reference, answer);
            }
            drop(references);
        }
        Err(error) => answer.show(&error),
    }
}

fn put_object(reference: &Reference, answer: &mut Answer) {
    match reference {
        Reference::Null => answer.word("null"),
        Reference::Local { oid, .. } => {
            answer.word("own");
            answer.word(oid.as_str());
        }
        Reference::Remote { oid, .. } => {
            answer.word("peer");
            answer.word(oid.as_str());
        }
    }
}

/// The type of a word.
pub(crate) fn type_made(registry: &Registry, word: &str) -> Option<TypeName>
    requires { IsSound registry.now }
{
    match word.strip_prefix("seq/") {
        Some(element) => match one_type(registry, element) {
            Some(element) => TypeName::sequence(registry.allocator(), element).ok(),
            None => None,
        },
        None => one_type(registry, word),
    }
}

fn one_type(registry: &Registry, word: &str) -> Option<TypeName>
    requires { IsSound registry.now }
{
    let (class, name) = cut(word, "/");
    if name.is_empty() {
        return registry
            .type_named(registry.allocator(), word)
            .unwrap_or(None);
    }
    match Name::of(registry.allocator(), name) {
        Ok(name) => Some(of_class(class, name)),
        Err(_) => None,
    }
}

fn of_class(class: &str, name: Name) -> TypeName {
    match class {
        "enum" => TypeName::Enum(name),
        "struct" => TypeName::Struct(name),
        "exception" => TypeName::Exception(name),
        _ => TypeName::Interface(name),
    }
}

/// The value of the last word.
fn value_made(registry: &Registry, words: &str) -> Option<Value>
    requires { IsSound registry.now }
{
    let mut stack = Vec::new(registry.allocator());
    for word in words.split("; ") {
        push_word(registry, &mut stack, word);
    }
    stack.pop()
}

/// Puts the value of a word on the stack, with its parts taken from there.
fn push_word(registry: &Registry, stack: &mut Vec<Value>, word: &str)
    requires { IsSound registry.now }
{
    let (what, rest) = cut(word, ": ");
    let (front, name) = cut(rest, " ");
    match what {
        "own" | "peer" => push_object(registry.allocator(), stack, what, front, name),
        "enum" | "tuple" => push_named(registry.allocator(), stack, what, front, name),
        "list" => push_typed(registry, stack, what, name, front),
        "any of" | "kind" => push_typed(registry, stack, what, rest, ""),
        _ => push_typed(registry, stack, "literal", what, rest),
    }
}

fn push(stack: &mut Vec<Value>, value: Value) {
    stack.push(value).ok();
}

/// So many parts from the stack.
fn parts_of(alloc: Global, stack: &mut Vec<Value>, count: &str) -> Vec<Value> {
    let count = count.parse::<usize>().unwrap_or(0);
    match stack.split_off(stack.len().saturating_sub(count)) {
        Ok(parts) => parts,
        Err(_) => Vec::new(alloc),
    }
}

fn push_object(alloc: Global, stack: &mut Vec<Value>, what: &str, face: &str, oid: &str) {
    if let Ok(oid) = Text::of(alloc, oid) {
        push_reference(alloc, stack, what, face, oid);
    }
}

fn push_reference(alloc: Global, stack: &mut Vec<Value>, what: &str, face: &str, oid: Text) {
    match Name::of(alloc, face) {
        Ok(face) if what == "own" => push(stack, Value::Ref(Reference::Local { oid, face })),
        Ok(face) => push(stack, Value::Ref(Reference::Remote { oid, face })),
        Err(_) => drop(oid),
    }
}

/// An item of an enum, or a struct or an exception.
fn push_named(alloc: Global, stack: &mut Vec<Value>, what: &str, count: &str, name: &str) {
    let Ok(name) = Name::of(alloc, name) else {
        return;
    };
    match what {
        "enum" => push(stack, Value::Enum(name, count.parse::<i32>().unwrap_or(0))),
        _ => {
            let parts = parts_of(alloc, stack, count);
            push(stack, Value::Tuple(name, parts));
        }
    }
}

fn push_typed(registry: &Registry, stack: &mut Vec<Value>, what: &str, word: &str, text: &str)
    requires { IsSound registry.now }
{
    if let Some(kind) = type_made(registry, word) {
        push_of_type(registry, stack, what, kind, text);
    }
}

fn push_of_type(registry: &Registry, stack: &mut Vec<Value>, what: &str, kind: TypeName, text: &str)
    requires { IsSound registry.now }
{
    match what {
        "kind" => push(stack, Value::Kind(kind)),
        "any of" => push_any(registry.allocator(), stack, kind),
        "list" => {
            let parts = parts_of(registry.allocator(), stack, text);
            push(stack, Value::List(kind, parts));
        }
        _ => {
            push_literal(registry, stack, &kind, text);
            drop(kind);
        }
    }
}

fn push_any(alloc: Global, stack: &mut Vec<Value>, kind: TypeName) {
    match stack.pop() {
        Some(value) => push_boxed(alloc, stack, AnyValue { kind, value }),
        None => drop(kind),
    }
}

fn push_boxed(alloc: Global, stack: &mut Vec<Value>, any: AnyValue) {
    match Box::new(alloc, any) {
        Ok(any) => push(stack, Value::Any(any)),
        Err(failed) => drop(failed),
    }
}

fn push_literal(registry: &Registry, stack: &mut Vec<Value>, kind: &TypeName, text: &str)
    requires { IsSound registry.now }
{
    if let Ok(value) = value_of(registry, kind, text) {
        push(stack, value);
    }
}
