//! All headers of a text, whose names rise.
ghost use Rattle.std.specs.Prelude.{◌≡◌, ◌+◌, ◌≤◌, ◌<◌, IfOk, OnOk, length, true, false, option_map, slice_get, [], codes, ℕ, Some, None, IfSome, ◌||◌, ◌==◌};
ghost use Rattle.registry_reading_model.specs.Heads as model;
ghost use Rattle.std.specs.List.{position};
ghost use Rattle.std.specs.Str.{bytes_eq};
ghost use Rattle.registry_text_model.specs.EnumValues.{is_long};
ghost use Rattle.registry_reading_model.specs.Numbers.{number_of};
ghost use Rattle.registry_reading_model.specs.TextLines.{lines_in, all_plain, is_plain};
ghost use Rattle.uno_model.specs.Names.{is_entity_name};
ghost use Rattle.registry_reading.specs.Heads.{plain_head, plain_heads, NamesRise};
ghost use Rattle.registry_reading.specs.Judging.{line_of_head};

use crate::guesses::Guesses;
use crate::head::Head;
use crate::last::take_last;
use crate::lines::{first_line, text_or_empty};
use crate::number::number;
use crate::words::{behind, identifier, word};
use std::alloc::Global;
use std::marker::Model;
use uno_base::NoMemory;
use uno_types::{TypeClass, is_entity_name};

#[derive(Drop)]
pub(crate) struct Heads<'a> {
    heads: Vec<Head<'a>>,
    guesses: Guesses,
}

impl<'a> Model for Heads<'a> {
    ghost use Rattle.std.specs.Prelude.{List};
    ghost use Rattle.registry_reading_model.specs.Heads.{Head as Plain};

    ghost Value = { List Plain };

    ghost use Rattle.registry_reading.specs.Heads.{plain_heads, NamesRise};

    ghost view = { λ h. plain_heads h.heads.items };

    ghost invariant = { λ h. NamesRise (plain_heads h.heads.items) };
}

impl<'a> Heads<'a> {
    pub(crate) fn new(alloc: Global) -> Heads<'a>
        ensures { result ≡ [] }
    {
        Heads {
            heads: Vec::new(alloc),
            guesses: Guesses::none(alloc),
        }
    }

    /// One line more, of which it is known whether it is a header.
    pub(crate) fn look(
        self,
        number: u32,
        is_header: bool,
        line: &'a [u8],
    ) -> Result<Heads<'a>, NoMemory>
        ensures { IfOk result (λ heads. is_plain line.now ≡ true → heads ≡ model.one_line_on number is_header self.entry line.now) }
    {
        if is_header {
            return self.with_header(number, line);
        }
        self.with_line(line)
    }

    fn with_header(self, number: u32, line: &'a [u8]) -> Result<Heads<'a>, NoMemory>
        ensures { IfOk result (λ heads. is_plain line.now ≡ true → heads ≡ model.one_line_on number true self.entry line.now) }
    {
        let Heads { heads, guesses } = self;
        let heads = added(heads, head(number, text_or_empty(line)))?;
        Ok(Heads { heads, guesses })
    }

    /// With a line that is no header.
    fn with_line(self, line: &[u8]) -> Result<Heads<'a>, NoMemory>
        ensures { IfOk result (λ heads. is_plain line.now ≡ true → heads ≡ model.one_line_on 0 false self.entry line.now) }
    {
        if !is_item_beyond(line) {
            return Ok(self);
        }
        let Heads { heads, guesses } = self;
        let heads = marked(heads)?;
        Ok(Heads { heads, guesses })
    }

    /// The same headers, whose names are found faster.
    fn guessed(self, alloc: Global) -> Result<Heads<'a>, NoMemory>
        ensures { IfOk result (λ heads. heads ≡ self.entry) }
    {
        let Heads { heads, guesses: _ } = self;
        let guesses = Guesses::of(alloc, heads.as_slice())?;
        Ok(Heads { heads, guesses })
    }

    /// The line of the first header under which a value is beyond those of `long`.
    pub(crate) fn first_beyond(&self) -> Option<u32>
        ensures none { result ≡ None → position (λ h. h.beyond) self.now ≡ None }
        ensures some { IfSome result (λ line. (place : ℕ) × (position (λ h. h.beyond) self.now ≡ Some place) × (line_of_head (slice_get self.now place) ≡ line)) }
    {
        first_beyond(self.heads.as_slice())
    }

    /// The header of this name.
    pub(crate) fn named(&self, name: &str) -> Option<&Head<'a>>
        ensures head { option_map (λ h. plain_head h.now) result ≡ model.head_named name.now self.now }
        ensures name { IfSome result (λ h. h.now.name.now ≡ name.now) }
    {
        match tried(self.heads.as_slice(), self.guesses.place(name), name) {
            Some(head) => Some(head),
            None => find(self.heads.as_slice(), name),
        }
    }

    /// Whether it is a name that an entity may have, which is known of one that stands in a header.
    pub(crate) fn is_entity_name(&self, name: &str) -> bool
        ensures { result ≡ is_entity_name name.now }
    {
        is_name(self.named(name), name)
    }
}

/// Whether an entity may have this name, perhaps that of a header.
pub(crate) fn is_name(head: Option<&Head<'_>>, name: &str) -> bool
    requires { IfSome head (λ h. h.now.name.now ≡ name.now) }
    ensures { result ≡ is_entity_name name.now }
{
    match head {
        Some(head) => head.is_name,
        None => is_entity_name(name),
    }
}

/// The header at this place, if it is that of the name.
fn tried<'b, 'a>(heads: &'b [Head<'a>], place: Option<usize>, name: &str) -> Option<&'b Head<'a>>
    requires { NamesRise (plain_heads heads.now) }
    ensures head { IfSome result (λ h. Some (plain_head h.now) ≡ model.head_named name.now (plain_heads heads.now)) }
    ensures name { IfSome result (λ h. h.now.name.now ≡ name.now) }
{
    let head = at(heads, place?)?;
    if head.name != name {
        return None;
    }
    Some(head)
}

/// The header of this name among some whose names rise.
fn find<'b, 'a>(heads: &'b [Head<'a>], name: &str) -> Option<&'b Head<'a>>
    requires { NamesRise (plain_heads heads.now) }
    ensures { option_map (λ h. plain_head h.now) result ≡ model.head_named name.now (plain_heads heads.now) }
{
    match heads.binary_search_by(|head| head.name.cmp(name)) {
        Ok(place) => at(heads, place),
        Err(_) => None,
    }
}

fn at<'b, 'a>(heads: &'b [Head<'a>], place: usize) -> Option<&'b Head<'a>>
    ensures { option_map (λ h. plain_head h.now) result ≡ slice_get (plain_heads heads.now) place }
{
    heads.get(place)
}

/// The header on a line.
#[tactic(auto, unfolding(registry_reading_model::specs::Heads::head_of))]
fn head(number: u32, line: &str) -> Head<'_>
    ensures { plain_head result ≡ model.head_of number line.now }
{
    let words = behind(line, "published ").unwrap_or(line);
    let (first, rest) = first_word(words);
    let (name, _) = first_word(rest);
    Head {
        name,
        class: class_of_word(first),
        line: number,
        beyond: false,
        is_name: is_entity_name(name),
    }
}

/// A first word, and what stands behind the blank after it; nothing, where there is no blank.
fn first_word(text: &str) -> (&str, &str)
    ensures { (result.0.now, result.1.now) ≡ model.first_word text.now }
{
    match word(text) {
        Some(words) => words,
        None => (text, ""),
    }
}

#[tactic(auto, unfolding(registry_reading_model::specs::Heads::class_of_word))]
fn class_of_word(word: &str) -> Option<TypeClass>
    ensures { result ≡ model.class_of_word word.now }
{
    match word {
        "interface" => Some(TypeClass::Interface),
        "struct" => Some(TypeClass::Struct),
        "exception" => Some(TypeClass::Exception),
        "enum" => Some(TypeClass::Enum),
        _ => None,
    }
}

/// The first word of the line of an item.
const ITEM: &[u8] = b"value ";

/// Whether a line is that of an item whose value is beyond those of `long`. Only the line of an item is read as a text.
fn is_item_beyond(line: &[u8]) -> bool
    ensures { is_plain line.now ≡ true → result ≡ model.beyond_long line.now }
{
    match line.strip_prefix(ITEM) {
        Some(_) => is_beyond_long(text_or_empty(line)),
        None => false,
    }
}

#[tactic(auto, unfolding(registry_reading_model::specs::Heads::beyond_long))]
fn is_beyond_long(line: &str) -> bool
    ensures { result ≡ model.beyond_long line.now }
{
    let Some(text) = behind(line, "value ") else {
        return false;
    };
    let Some((_, digits)) = identifier(text) else {
        return false;
    };
    is_beyond(digits)
}

#[tactic(auto, using(crate::proofs::NumberLemmas::beyond_some, crate::proofs::NumberLemmas::beyond_none))]
fn is_beyond(digits: &str) -> bool
    ensures { result ≡ model.is_beyond (number_of digits.now) }
{
    let Some(value) = number(digits) else {
        return false;
    };
    !is_long(value)
}

fn is_long(number: i128) -> bool
    ensures { result ≡ is_long number }
{
    -2_147_483_648 <= number && number <= 2_147_483_647
}

/// One header more, where its name is above the last.
#[tactic(auto, using(crate::proofs::HeadLemmas::added_rise, crate::proofs::HeadLemmas::added_heads))]
fn added<'a>(heads: Vec<Head<'a>>, head: Head<'a>) -> Result<Vec<Head<'a>>, NoMemory>
    requires { NamesRise (plain_heads heads.items) }
    ensures heads { IfOk result (λ hs. plain_heads hs.items ≡ model.head_added (plain_heads heads.entry.items) (plain_head head.entry)) }
    ensures rise { IfOk result (λ hs. NamesRise (plain_heads hs.items)) }
{
    if !is_above_last(heads.as_slice(), head.name) {
        return Ok(heads);
    }
    let mut heads = heads;
    heads.push(head)?;
    Ok(heads)
}

fn is_above_last(heads: &[Head<'_>], name: &str) -> bool
    ensures { result ≡ model.is_above_last (plain_heads heads.now) name.now }
{
    match heads.last() {
        Some(last) => last.name < name,
        None => true,
    }
}

/// The last of them is marked.
fn marked(heads: Vec<Head<'_>>) -> Result<Vec<Head<'_>>, NoMemory>
    requires { NamesRise (plain_heads heads.items) }
    ensures heads { IfOk result (λ hs. plain_heads hs.items ≡ model.last_marked (plain_heads heads.entry.items)) }
    ensures rise { IfOk result (λ hs. NamesRise (plain_heads hs.items)) }
{
    let mut heads = heads;
    let Some(mut last) = take_last(&mut heads) else {
        return Ok(heads);
    };
    last.beyond = true;
    heads.push(last)?;
    Ok(heads)
}

const END: &[u8] = b"end";

/// Whether a header stands behind this line: it is the first of a text, or an `end`.
fn precedes_header(number: u32, line: &[u8]) -> bool
    ensures { result ≡ ((number == 1) || bytes_eq line.now (codes "end")) }
{
    number == 1 || line == END
}

/// All headers of a text of lines.
pub(crate) fn heads_of(alloc: Global, bytes: &[u8]) -> Result<Heads<'_>, NoMemory>
    requires { length bytes.now ≤ 4194304 }
    ensures { IfOk result (λ heads. all_plain (lines_in bytes.now) ≡ true → heads ≡ model.heads_in (lines_in bytes.now)) }
{
    let mut heads = Heads::new(alloc);
    let mut rest = bytes;
    let mut number = 1u32;
    let mut is_header = false;
    while let Some((line, behind)) = first_line(rest) {
        heads = heads.look(number, is_header, line)?;
        is_header = precedes_header(number, line);
        number += 1;
        rest = behind;
    }
    heads.guessed(alloc)
}

fn first_beyond(heads: &[Head<'_>]) -> Option<u32>
    ensures none { result ≡ None → position (λ h. h.beyond) (plain_heads heads.now) ≡ None }
    ensures some { IfSome result (λ line. (place : ℕ) × (position (λ h. h.beyond) (plain_heads heads.now) ≡ Some place) × (line_of_head (slice_get (plain_heads heads.now) place) ≡ line)) }
{
    let place = place_beyond(heads)?;
    Some(line_at(heads, place))
}

#[tactic(auto, using(registry_reading_model::proofs::RulePlaces::position_mapped))]
fn place_beyond(heads: &[Head<'_>]) -> Option<usize>
    ensures { result ≡ position (λ h. h.beyond) heads.now }
{
    heads.iter().position(|head| head.beyond)
}

fn line_at(heads: &[Head<'_>], place: usize) -> u32
    ensures { result ≡ line_of_head (slice_get (plain_heads heads.now) place) }
{
    match at(heads, place) {
        Some(head) => head.line,
        None => 0,
    }
}
