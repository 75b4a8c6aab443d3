//! Types, values by their literals, and values by their bytes.
ghost use Rattle.uno_model.specs.Sound.{IsSound};

use crate::spelling::{bytes_of, cut};
use crate::texts::answer::Answer;
use uno_types::{Registry, TypeName};
use uno_values::{Value, default_of, depth_of, fits, weight};
use urp_cache::{ReadCaches, SendCaches};
use urp_wire::{read_value as read_bytes, write_value};
use value_text::{TextError, read_value};

/// A row whose first part is a type.
pub(crate) fn answer_typed(registry: &Registry, what: &str, row: &str, answer: &mut Answer)
    requires { IsSound registry.now }
{
    let (name, rest) = cut(row, " | ");
    match registry.type_named(registry.allocator(), name) {
        Ok(Some(kind)) => {
            answer_of_type(registry, what, &kind, rest, answer);
            drop(kind);
        }
        Ok(None) => answer.word("no type"),
        Err(error) => answer.show(&error),
    }
}

fn answer_of_type(registry: &Registry, what: &str, kind: &TypeName, rest: &str, answer: &mut Answer)
    requires { IsSound registry.now }
{
    match what {
        "default" => default(registry, kind, answer),
        "literal" => literal(registry, kind, rest, answer),
        "spelled" => spelled(registry, kind, rest, answer),
        "read" => read(registry, kind, rest, answer),
        _ => answer.word("no such row"),
    }
}

/// `default TYPE`: the literal of the default.
fn default(registry: &Registry, kind: &TypeName, answer: &mut Answer)
    requires { IsSound registry.now }
{
    match default_of(registry.allocator(), registry, kind) {
        Ok(value) => {
            answer.value(registry, &value);
            drop(value);
        }
        Err(error) => answer.show(&error),
    }
}

/// The value of a literal.
pub(crate) fn value_of(registry: &Registry, kind: &TypeName, text: &str) -> Result<Value, TextError>
    requires { IsSound registry.now }
{
    let bytes = bytes_of(registry.allocator(), text);
    read_value(
        registry.allocator(),
        registry,
        std::str::from_utf8(&bytes).unwrap_or(""),
        kind,
    )
}

/// `literal TYPE | TEXT`: the literal of its value, or why and where it has none.
fn literal(registry: &Registry, kind: &TypeName, text: &str, answer: &mut Answer)
    requires { IsSound registry.now }
{
    match value_of(registry, kind, text) {
        Ok(value) => {
            answer.value(registry, &value);
            drop(value);
        }
        Err(error) => answer.show(&error),
    }
}

/// `spelled TYPE | TEXT | TEXT ..`: the bytes of each of the values, which one new end writes.
fn spelled(registry: &Registry, kind: &TypeName, texts: &str, answer: &mut Answer)
    requires { IsSound registry.now }
{
    match SendCaches::new(registry.allocator()) {
        Ok(mut caches) => {
            for text in texts.split(" | ") {
                spell(registry, &mut caches, kind, text, answer);
            }
            drop(caches);
        }
        Err(error) => answer.show(&error),
    }
}

fn spell(
    registry: &Registry,
    caches: &mut SendCaches,
    kind: &TypeName,
    text: &str,
    answer: &mut Answer,
)
    requires { IsSound registry.now }
{
    match value_of(registry, kind, text) {
        Ok(value) => {
            put_bytes(registry, caches, kind, &value, answer);
            drop(value);
        }
        Err(error) => answer.show(&error),
    }
}

fn put_bytes(
    registry: &Registry,
    caches: &mut SendCaches,
    kind: &TypeName,
    value: &Value,
    answer: &mut Answer,
)
    requires { IsSound registry.now }
{
    if !fits(registry, value, kind) || depth_of(value) > 64 {
        return answer.word("not to be written");
    }
    if weight(registry, value) > 16_777_216 {
        return answer.word("too large");
    }
    let mut bytes = Vec::new(registry.allocator());
    match write_value(
        registry.allocator(),
        registry,
        caches,
        value,
        kind,
        &mut bytes,
    ) {
        Ok(()) => {
            answer.word("");
            answer.put(&bytes);
        }
        Err(error) => answer.show(&error),
    }
}

/// `read TYPE | BYTES`: the literal of the value that a new end reads, and how many bytes spell it, or why it is refused.
fn read(registry: &Registry, kind: &TypeName, text: &str, answer: &mut Answer)
    requires { IsSound registry.now }
{
    match ReadCaches::new(registry.allocator()) {
        Ok(mut caches) => {
            read_with(registry, &mut caches, kind, text, answer);
            drop(caches);
        }
        Err(error) => answer.show(&error),
    }
}

fn read_with(
    registry: &Registry,
    caches: &mut ReadCaches,
    kind: &TypeName,
    text: &str,
    answer: &mut Answer,
)
    requires { IsSound registry.now }
{
    let bytes = bytes_of(registry.allocator(), text);
    match read_bytes(registry.allocator(), registry, caches, kind, &bytes) {
        Ok((value, used)) => {
            answer.value(registry, &value);
            drop(value);
            answer.word("of");
            answer.show(&used);
        }
        Err(error) => answer.show(&error),
    }
}
