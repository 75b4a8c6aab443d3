//! Names as texts: which are identifiers, which are identifiers joined by points, and how many parts they have.
ghost use Rattle.std.specs.Prelude.{◌≡◌, ◌+◌, length, map};
ghost use Rattle.std.specs.List.{list_all, list_any};
ghost use Rattle.std.specs.Str.{bytes_eq};
ghost use Rattle.uno_model.specs.Names.{is_identifier, is_entity_name, begins_identifier, goes_on_identifier, reserved_words, parts_of};
ghost use Rattle.uno_model.specs.Sound.{few_modules};
ghost use Rattle.uno_entities.specs.Words.{words_with};

use crate::MOST_LEVELS;

/// Whether it is a letter or `_`, then letters, digits and `_`, and no reserved word.
pub fn is_identifier(name: &str) -> bool
    ensures { result ≡ is_identifier name.now }
{
    let [first, rest @ ..] = name.as_bytes() else {
        return false;
    };
    begins_identifier(*first) && go_on_identifier(rest) && !is_reserved(name)
}

/// Whether an identifier may begin with it: a letter or `_`.
pub fn begins_identifier(byte: u8) -> bool
    ensures { result ≡ begins_identifier byte }
{
    byte.is_ascii_alphabetic() || byte == b'_'
}

/// Whether an identifier may go on with it: a letter, digit or `_`.
pub fn goes_on_identifier(byte: u8) -> bool
    ensures { result ≡ goes_on_identifier byte }
{
    byte.is_ascii_alphanumeric() || byte == b'_'
}

fn go_on_identifier(bytes: &[u8]) -> bool
    ensures { result ≡ list_all goes_on_identifier bytes.now }
{
    bytes.iter().all(|byte| goes_on_identifier(*byte))
}

fn is_reserved(name: &str) -> bool
    ensures { result ≡ list_any (bytes_eq name.now) reserved_words }
{
    let [first, ..] = name.as_bytes() else {
        return false;
    };
    is_among(name, reserved_with(*first))
}

fn is_among(name: &str, words: &[&str]) -> bool
    ensures { result ≡ list_any (λ word. bytes_eq name.now word.now) words.now }
{
    words.iter().any(|word| name == *word)
}

/// The words of the grammar, of the simple types and of the two truths that begin with this letter.
fn reserved_with(first: u8) -> &'static [&'static str]
    ensures { map (λ word. word.now) result.now ≡ words_with first reserved_words }
{
    match first {
        b'F' => &["FALSE", "False"],
        b'T' => &["TRUE", "True"],
        b'a' => &["any", "attribute"],
        b'b' => &["boolean", "bound", "byte"],
        b'c' => &["char", "const", "constants", "constrained"],
        b'd' => &["double"],
        b'e' => &["enum", "exception"],
        b'f' => &["float"],
        b'g' => &["get"],
        b'h' => &["hyper"],
        b'i' => &["in", "inout", "interface"],
        b'l' => &["long"],
        b'm' => &["maybeambiguous", "maybedefault", "maybevoid", "module"],
        b'o' => &["oneway", "optional", "out"],
        b'p' => &["property", "published"],
        b'r' => &["raises", "readonly", "removable"],
        b's' => &[
            "sequence",
            "service",
            "set",
            "short",
            "singleton",
            "string",
            "struct",
        ],
        b't' => &["transient", "type", "typedef"],
        b'u' => &["unsigned"],
        b'v' => &["void"],
        _ => &[],
    }
}

/// Whether it is identifiers joined by points.
pub fn is_entity_name(name: &str) -> bool
    ensures { result ≡ is_entity_name name.now }
{
    let mut rest = name;
    while let Some((part, behind)) = rest.split_once('.') {
        if !is_identifier(part) {
            return false;
        }
        rest = behind;
    }
    is_identifier(rest)
}

/// How many points stand in it.
fn points(name: &str) -> usize
    ensures { length (parts_of name.now) ≡ result + 1 }
{
    name.bytes().filter(|byte| *byte == b'.').count()
}

/// Whether it stands in at most 64 modules.
pub fn few_modules(name: &str) -> bool
    ensures { result ≡ few_modules name.now }
{
    points(name) <= MOST_LEVELS
}
