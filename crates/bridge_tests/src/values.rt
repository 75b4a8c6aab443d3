//! Values as words: `5` is a long, `own:S;2/n` and `peer:C;1/n` are references under the interface `n`, and `null:/n` is none; `<W` is an
//! any of `W`, `[V&W` a sequence and `{V&W` a struct of `V` and `W`. They are shown as they are written, but for `null` and `void`. The
//! product's own literals have no word for an object of this end.

use crate::shown::{Shown, cut};
use crate::texts::{name_of, text_of};
use std::alloc::Global;
use std::process::Abort;
use uno_types::{Name, Text, TypeName};
use uno_values::{AnyValue, Reference, Value};
use urp_message::Answer;

pub(crate) fn reference_of(rt: &impl Abort, alloc: Global, word: &str) -> Reference {
    let (whose, pair) = cut(word, ':');
    let (oid, face) = cut(pair, '/');
    match whose {
        "own" => Reference::Local {
            oid: text_of(rt, alloc, oid),
            face: name_of(rt, alloc, face),
        },
        "peer" => Reference::Remote {
            oid: text_of(rt, alloc, oid),
            face: name_of(rt, alloc, face),
        },
        "null" => Reference::Null,
        _ => panic!(rt; "no reference"),
    }
}

/// The values of words with a blank between them; of no words, none.
pub(crate) fn values_of(rt: &impl Abort, alloc: Global, words: &str) -> Vec<Value> {
    let mut values = Vec::new(alloc);
    for word in words.split(' ') {
        if !word.is_empty() {
            values.push(value_of(rt, alloc, word)).ok();
        }
    }
    values
}

pub(crate) fn value_of(rt: &impl Abort, alloc: Global, word: &str) -> Value {
    if let Some(words) = word.strip_prefix('[') {
        return Value::List(TypeName::Any, parts_of(rt, alloc, words));
    }
    if let Some(words) = word.strip_prefix('{') {
        return Value::Tuple(name_of(rt, alloc, "demo.Pair"), parts_of(rt, alloc, words));
    }
    part_of(rt, alloc, word)
}

fn parts_of(rt: &impl Abort, alloc: Global, words: &str) -> Vec<Value> {
    let mut parts = Vec::new(alloc);
    for word in words.split('&') {
        parts.push(part_of(rt, alloc, word)).ok();
    }
    parts
}

fn part_of(rt: &impl Abort, alloc: Global, word: &str) -> Value {
    let Some(inner) = word.strip_prefix('<') else {
        return plain_of(rt, alloc, word)
    };
    match Box::new(alloc, any_of(rt, alloc, inner)) {
        Ok(any) => Value::Any(any),
        Err(_) => panic!(rt; "no memory"),
    }
}

/// An any of a long, or of a reference with the interface under which it stands.
pub(crate) fn any_of(rt: &impl Abort, alloc: Global, word: &str) -> AnyValue {
    AnyValue {
        kind: kind_of(rt, alloc, word),
        value: plain_of(rt, alloc, word),
    }
}

fn kind_of(rt: &impl Abort, alloc: Global, word: &str) -> TypeName {
    match word.split_once('/') {
        Some((_, face)) => TypeName::Interface(name_of(rt, alloc, face)),
        None => TypeName::Long,
    }
}

fn plain_of(rt: &impl Abort, alloc: Global, word: &str) -> Value {
    match word.parse::<i32>() {
        Ok(number) => Value::Long(number),
        Err(_) => Value::Ref(reference_of(rt, alloc, word)),
    }
}

/// Shows values, each behind a blank; where there is none, a mark.
pub(crate) fn show_values(shown: &mut Shown, values: &[Value]) {
    if values.is_empty() {
        return shown.word("-");
    }
    for value in values {
        show_value(shown, value);
    }
}

/// Shows a value behind a blank.
pub(crate) fn show_value(shown: &mut Shown, value: &Value) {
    shown.put(" ");
    put_value(shown, value);
}

pub(crate) fn put_value(shown: &mut Shown, value: &Value) {
    match value {
        Value::List(_, parts) => put_parts(shown, "[", parts),
        Value::Tuple(_, parts) => put_parts(shown, "{", parts),
        part => put_part(shown, part),
    }
}

fn put_parts(shown: &mut Shown, mark: &str, parts: &[Value]) {
    let mut mark = mark;
    for part in parts {
        shown.put(mark);
        put_part(shown, part);
        mark = "&";
    }
}

fn put_part(shown: &mut Shown, part: &Value) {
    match part {
        Value::Any(any) => put_any(shown, any),
        plain => put_plain(shown, plain),
    }
}

fn put_any(shown: &mut Shown, any: &AnyValue) {
    shown.put("<");
    put_plain(shown, &any.value);
}

fn put_plain(shown: &mut Shown, value: &Value) {
    match value {
        Value::Void => shown.put("void"),
        Value::Long(number) => shown.put_long(*number),
        Value::Ref(reference) => put_reference(shown, reference),
        _ => shown.put("?"),
    }
}

pub(crate) fn put_reference(shown: &mut Shown, reference: &Reference) {
    match reference {
        Reference::Null => shown.put("null"),
        Reference::Local { oid, face } => put_pair(shown, "own:", oid, face),
        Reference::Remote { oid, face } => put_pair(shown, "peer:", oid, face),
    }
}

fn put_pair(shown: &mut Shown, whose: &str, oid: &Text, face: &Name) {
    shown.put(whose);
    shown.put(oid.as_str());
    shown.put("/");
    shown.put(face.as_str());
}

/// Shows an answer: its value and what came out with it, or the any that was raised.
pub(crate) fn show_answer(shown: &mut Shown, answer: &Answer) {
    match answer {
        Answer::Returned { value, outs } => {
            show_value(shown, value);
            show_values(shown, outs);
        }
        Answer::Raised(any) => {
            shown.put(" ");
            put_any(shown, any);
        }
    }
}
