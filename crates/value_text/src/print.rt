//! The text of a value.
ghost use Rattle.std.specs.Prelude.{◌≡◌, ◌++◌, true, IfOk, OnOk, codes};
ghost use Rattle.std.specs.List.{flat_map};
ghost use Rattle.std.specs.Char.{encode_utf8};
ghost use Rattle.std.specs.Fmt.{decimal, signed_decimal};
ghost use Rattle.std.specs.Str.{IsUtf8};
ghost use Rattle.std.specs.String.{string_bytes};
ghost use Rattle.uno_model.specs.Defaults.{items_of};
ghost use Rattle.uno_model.specs.Kinds.{name_of};
ghost use Rattle.literal_model.specs.Literals.{print, spell, spells, tokens_of, tokens_in, byte_tokens, comma_tokens, ref_token, item_token, quoted, escaped, first_item};
ghost use Rattle.uno_model.specs.Registry.{find_entity};
ghost use Rattle.uno_model.specs.Values as plain;
ghost use Rattle.uno_entities.specs.TypeNames.{kind_of};
ghost use Rattle.uno_values.specs.References.{ref_of};
ghost use Rattle.uno_values.specs.Values.{plain_of, plains_of, any_of};

use literal_reading::{first_item, items_of};
use std::alloc::Global;
use uno_base::NoMemory;
use uno_types::{Registry, TypeName};
use uno_values::{AnyValue, Reference, Value};

/// The literal of a value; that of an object is its identity and its interface behind `@`.
pub fn print_value(alloc: Global, registry: &Registry, value: &Value) -> Result<Vec<u8>, NoMemory>
    ensures literal { IfOk result (λ text. text.items ≡ print registry.now (plain_of value.now)) }
    ensures utf8 { IfOk result (λ text. IsUtf8 text.items) }
{
    let mut text = String::new(alloc);
    push_value(alloc, &mut text, registry, value)?;
    Ok(text.into_bytes())
}

/// Puts the literal of a value behind a text.
#[cycle(print)]
#[tactic(auto, using(crate::proofs::PrintLemmas::spells_append), unfolding(literal_model::specs::Literals::tokens_of))]
pub fn push_value(
    alloc: Global,
    text: &mut String,
    registry: &Registry,
    value: &Value,
) -> Result<(), NoMemory>
    ensures { OnOk result (string_bytes text.new ≡ string_bytes text.old ++ print registry.now (plain_of value.now)) }
{
    match value {
        Value::Void => push_text(text, "void"),
        Value::Char(number) => push_number(alloc, text, *number as u64),
        Value::Boolean(true) => push_text(text, "true"),
        Value::Boolean(false) => push_text(text, "false"),
        Value::Byte(number) => push_signed(alloc, text, *number as i64),
        Value::Short(number) => push_signed(alloc, text, *number as i64),
        Value::UnsignedShort(number) => push_number(alloc, text, *number as u64),
        Value::Long(number) => push_signed(alloc, text, *number as i64),
        Value::UnsignedLong(number) => push_number(alloc, text, *number as u64),
        Value::Hyper(number) => push_signed(alloc, text, *number),
        Value::UnsignedHyper(number) => push_number(alloc, text, *number),
        Value::Str(string) => push_quoted(text, string.as_str()),
        Value::Kind(kind) => push_type(text, kind, "<", ">"),
        Value::Any(any) => push_any(alloc, text, registry, any),
        Value::Enum(name, number) => push_item(alloc, text, registry, name.as_str(), *number),
        Value::Tuple(_, members) => push_list(alloc, text, registry, members, "{", "}"),
        Value::List(_, elements) => push_list(alloc, text, registry, elements, "[", "]"),
        Value::Bytes(bytes) => push_bytes(alloc, text, bytes),
        Value::Ref(reference) => push_reference(text, reference),
    }
}

/// Puts that of an any behind a text: the type in brackets, and behind it the value; void has none.
#[cycle(print)]
#[tactic(auto, using(crate::proofs::PrintLemmas::spells_append), unfolding(literal_model::specs::Literals::tokens_of))]
pub fn push_any(
    alloc: Global,
    text: &mut String,
    registry: &Registry,
    any: &AnyValue,
) -> Result<(), NoMemory>
    ensures { OnOk result (string_bytes text.new ≡ string_bytes text.old ++ print registry.now (plain.any (any_of any.now).0 (any_of any.now).1)) }
{
    push_type(text, &any.kind, "(", ")")?;
    match &any.value {
        Value::Void => Ok(()),
        _ => push_value(alloc, text, registry, &any.value),
    }
}

/// Values between brackets, with a comma between any two.
#[cycle(print)]
fn push_list(
    alloc: Global,
    text: &mut String,
    registry: &Registry,
    values: &[Value],
    front: &str,
    back: &str,
) -> Result<(), NoMemory>
    ensures { OnOk result (string_bytes text.new ≡ string_bytes text.old ++ (front.now ++ (spells (tokens_in registry.now true (plains_of values.now)) ++ back.now))) }
{
    push_text(text, front)?;
    push_all(alloc, text, registry, values)?;
    push_text(text, back)
}

#[cycle(print)]
fn push_all(
    alloc: Global,
    text: &mut String,
    registry: &Registry,
    values: &[Value],
) -> Result<(), NoMemory>
    ensures { OnOk result (string_bytes text.new ≡ string_bytes text.old ++ spells (tokens_in registry.now true (plains_of values.now))) }
{
    let mut is_first = true;
    for value in values {
        push_comma(text, is_first)?;
        push_value(alloc, text, registry, value)?;
        is_first = false;
    }
    Ok(())
}

/// The comma before a value that is not the first.
fn push_comma(text: &mut String, is_first: bool) -> Result<(), NoMemory>
    ensures { OnOk result (string_bytes text.new ≡ string_bytes text.old ++ spells (comma_tokens is_first)) }
{
    if is_first {
        return Ok(());
    }
    push_text(text, ",")
}

fn push_text(text: &mut String, word: &str) -> Result<(), NoMemory>
    ensures { OnOk result (string_bytes text.new ≡ string_bytes text.old ++ word.now) }
{
    text.push_str(word)?;
    Ok(())
}

fn push_number(alloc: Global, text: &mut String, number: u64) -> Result<(), NoMemory>
    ensures { OnOk result (string_bytes text.new ≡ string_bytes text.old ++ decimal number) }
{
    let digits = number.to_string(alloc)?;
    push_text(text, digits.as_str())
}

fn push_signed(alloc: Global, text: &mut String, number: i64) -> Result<(), NoMemory>
    ensures { OnOk result (string_bytes text.new ≡ string_bytes text.old ++ signed_decimal number) }
{
    let digits = number.to_string(alloc)?;
    push_text(text, digits.as_str())
}

/// A text between quotes, in which quotes, backslashes and line feeds are written as two characters.
fn push_quoted(text: &mut String, string: &str) -> Result<(), NoMemory>
    ensures { OnOk result (string_bytes text.new ≡ string_bytes text.old ++ quoted string.now) }
{
    push_text(text, "\"")?;
    push_escaped(text, string)?;
    push_text(text, "\"")
}

fn push_escaped(text: &mut String, string: &str) -> Result<(), NoMemory>
    ensures { OnOk result (string_bytes text.new ≡ string_bytes text.old ++ flat_map escaped string.now) }
{
    for character in string.chars() {
        push_character(text, character)?;
    }
    Ok(())
}

fn push_character(text: &mut String, character: char) -> Result<(), NoMemory>
    ensures { OnOk result (string_bytes text.new ≡ string_bytes text.old ++ flat_map escaped (encode_utf8 character)) }
{
    if character == '"' {
        return push_text(text, "\\\"");
    }
    if character == '\\' {
        return push_text(text, "\\\\");
    }
    if character == '\n' {
        return push_text(text, "\\n");
    }
    text.push(character)?;
    Ok(())
}

/// The name of a type between two marks.
fn push_type(text: &mut String, kind: &TypeName, front: &str, back: &str) -> Result<(), NoMemory>
    ensures { OnOk result (string_bytes text.new ≡ string_bytes text.old ++ (front.now ++ (name_of (kind_of kind.now) ++ back.now))) }
{
    push_text(text, front)?;
    push_name(text, kind)?;
    push_text(text, back)
}

/// As deep as there are sequences round it.
fn push_name(text: &mut String, kind: &TypeName) -> Result<(), NoMemory>
    ensures { OnOk result (string_bytes text.new ≡ string_bytes text.old ++ name_of (kind_of kind.now)) }
{
    push_text(text, kind.front())?;
    let TypeName::Sequence(inner) = kind else {
        return Ok(());
    };
    push_name(text, inner)
}

/// The first item of the number, or the number where the enum has none of it.
fn push_item(
    alloc: Global,
    text: &mut String,
    registry: &Registry,
    name: &str,
    number: i32,
) -> Result<(), NoMemory>
    ensures { OnOk result (string_bytes text.new ≡ string_bytes text.old ++ spell (item_token (first_item (items_of (find_entity name.now registry.now)) number) number)) }
{
    let items = items_of(registry, name);
    match first_item(items, number) {
        Some(item) => push_text(text, item),
        None => push_signed(alloc, text, number as i64),
    }
}

/// The elements of a sequence of bytes, each as a signed number.
fn push_bytes(alloc: Global, text: &mut String, bytes: &[u8]) -> Result<(), NoMemory>
    ensures { OnOk result (string_bytes text.new ≡ string_bytes text.old ++ (codes "[" ++ (spells (byte_tokens true bytes.now) ++ codes "]"))) }
{
    push_text(text, "[")?;
    push_numbers(alloc, text, bytes)?;
    push_text(text, "]")
}

fn push_numbers(alloc: Global, text: &mut String, bytes: &[u8]) -> Result<(), NoMemory>
    ensures { OnOk result (string_bytes text.new ≡ string_bytes text.old ++ spells (byte_tokens true bytes.now)) }
{
    let mut is_first = true;
    for byte in bytes {
        push_comma(text, is_first)?;
        push_signed(alloc, text, byte.cast_signed() as i64)?;
        is_first = false;
    }
    Ok(())
}

fn push_reference(text: &mut String, reference: &Reference) -> Result<(), NoMemory>
    ensures { OnOk result (string_bytes text.new ≡ string_bytes text.old ++ spell (ref_token (ref_of reference.now))) }
{
    match reference {
        Reference::Null => push_text(text, "null"),
        Reference::Local { oid, face } => push_object(text, oid.as_str(), face.as_str()),
        Reference::Remote { oid, face } => push_object(text, oid.as_str(), face.as_str()),
    }
}

fn push_object(text: &mut String, oid: &str, face: &str) -> Result<(), NoMemory>
    ensures { OnOk result (string_bytes text.new ≡ string_bytes text.old ++ (codes "@" ++ (quoted oid.now ++ (codes "<" ++ (face.now ++ codes ">"))))) }
{
    push_text(text, "@")?;
    push_quoted(text, oid)?;
    push_text(text, "<")?;
    push_text(text, face)?;
    push_text(text, ">")
}
