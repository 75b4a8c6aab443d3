//! The pieces of a file: white space, directives, comments and words.
ghost use Rattle.std.specs.Prelude.{◌≡◌, ◌≤◌, ◌∷◌, None, Some, drop, length, option_map, IfOk, IsTrue};
ghost use Rattle.std.specs.List.{list_all};
ghost use Rattle.idl_text_model.specs.Numbers.{number_of_word};
ghost use Rattle.idl_text_model.specs.Pieces.{is_in_line};
ghost use Rattle.idl_text_model.specs.Readings.{comment_at, mark_at};
ghost use Rattle.idl_text_model.specs.Tokens as plain;
ghost use Rattle.literal_model.specs.Shapes.{run_of, behind_run};
ghost use Rattle.uno_model.specs.Names.{goes_on_identifier};
ghost use Rattle.idl_trees.specs.Tokens.{tokens_of};
ghost use Rattle.idl_lex.specs.Lexing.{found_of, has_its_word, is_single, word_at, worded, IsLongestMark};
ghost use Rattle.idl_lex.specs.Runs.{test_of};

use crate::Token;
use crate::guesses::Guesses;
use crate::number::number_of_word;
use crate::run::{Run, begins, behind_line_start, goes_on, split_run};
use idl_trees::Word;
use std::alloc::Global;
use uno_base::NoMemory;
use uno_entities::begins_identifier;

/// A piece in front of what is left of a file: the word that it is, if it is one, and what is behind it.
#[derive(Drop)]
pub(crate) struct Found<'t> {
    pub(crate) word: Option<Word>,
    pub(crate) behind: &'t [u8],
}

/// The piece that a text begins with, behind these tokens.
pub(crate) fn piece<'t>(
    alloc: Global,
    guesses: &mut Guesses,
    tokens: &[Token],
    text: &'t [u8],
) -> Result<Option<Found<'t>>, NoMemory>
    requires { IsTrue (list_all has_its_word (tokens_of tokens.now)) }
    ensures { IfOk result (λ found. option_map found_of found ≡ word_at text.now) }
{
    let Some((first, behind)) = text.split_first() else {
        return Ok(None);
    };
    if goes_on(Run::Blank, *first) {
        return Ok(Some(without_word(Run::Blank, text)));
    }
    if *first == b'\n' {
        return Ok(Some(Found {
            word: None,
            behind: behind_line_start(behind),
        }));
    }
    if begins_identifier(*first) {
        return name(alloc, guesses, tokens, text);
    }
    if first.is_ascii_digit() {
        return Ok(numeral(text));
    }
    if begins(text, b"//") {
        return Ok(Some(line_comment(text)));
    }
    if begins(text, b"/*") {
        return Ok(block_comment(text));
    }
    mark(alloc, guesses, tokens, text)
}

/// A piece up to the end of a run.
fn without_word(run: Run, text: &[u8]) -> Found<'_>
    ensures { found_of result ≡ (None, behind_run (test_of run) text.now) }
{
    let (_, behind) = split_run(run, text);
    Found { word: None, behind }
}

/// An identifier, or a word that is none.
fn name<'t>(
    alloc: Global,
    guesses: &mut Guesses,
    tokens: &[Token],
    text: &'t [u8],
) -> Result<Option<Found<'t>>, NoMemory>
    requires { IsTrue (list_all has_its_word (tokens_of tokens.now)) }
    ensures { IfOk result (λ found. option_map found_of found
        ≡ Some (Some (plain.word_named (run_of goes_on_identifier text.now)), behind_run goes_on_identifier text.now)) }
{
    let (run, behind) = split_run(Run::Word, text);
    let word = guesses.word(alloc, tokens, run)?;
    Ok(Some(Found {
        word: Some(word),
        behind,
    }))
}

/// A word that begins with a digit is a number as a whole.
fn numeral(text: &[u8]) -> Option<Found<'_>>
    ensures { option_map found_of result
        ≡ option_map (λ n. (Some (plain.number n), behind_run goes_on_identifier text.now)) (number_of_word (run_of goes_on_identifier text.now)) }
{
    let (run, behind) = split_run(Run::Word, text);
    let number = number_of_word(run)?;
    Some(Found {
        word: Some(Word::Number(number)),
        behind,
    })
}

/// A comment up to the end of the line.
fn line_comment(text: &[u8]) -> Found<'_>
    requires { 2 ≤ length text.now }
    ensures { found_of result ≡ (None, behind_run is_in_line (drop 2 text.now)) }
{
    let (_, body) = text.split_at(2);
    without_word(Run::Line, body)
}

/// A comment up to the first `*/`.
fn block_comment(text: &[u8]) -> Option<Found<'_>>
    requires { 2 ≤ length text.now }
    ensures { option_map found_of result ≡ option_map (λ x. (None, x.1)) (comment_at (drop 2 text.now)) }
{
    let (_, body) = text.split_at(2);
    let behind = behind_comment(body)?;
    Some(Found { word: None, behind })
}

fn behind_comment(text: &[u8]) -> Option<&[u8]>
    ensures { option_map (λ behind. behind.now) result ≡ option_map (λ x. x.1) (comment_at text.now) }
{
    let mut rest = text;
    while !rest.is_empty() {
        if begins(rest, b"*/") {
            let (_, behind) = rest.split_at(2);
            return Some(behind);
        }
        let (_, next) = rest.split_at(1);
        rest = next;
    }
    None
}

/// The longest mark.
fn mark<'t>(
    alloc: Global,
    guesses: &mut Guesses,
    tokens: &[Token],
    text: &'t [u8],
) -> Result<Option<Found<'t>>, NoMemory>
    ensures { IfOk result (λ found. option_map found_of found ≡ worded (mark_at text.now)) }
{
    let length = mark_length(text);
    if length == 0 {
        return Ok(None);
    }
    let (mark, behind) = text.split_at(length);
    let word = guesses.mark(alloc, tokens, mark)?;
    Ok(Some(Found {
        word: Some(word),
        behind,
    }))
}

/// How many bytes the longest mark at the front has; 0 where there is none.
fn mark_length(text: &[u8]) -> usize
    ensures { IsLongestMark text.now result }
{
    let Some((first, _)) = text.split_first() else {
        return 0;
    };
    if *first == b':' {
        return colons(text);
    }
    if is_single_mark(*first) {
        return 1;
    }
    if begins(text, b"...") {
        return 3;
    }
    0
}

/// How many bytes the mark has that begins with `:`.
fn colons(text: &[u8]) -> usize
    requires { text.now ≡ 58 ∷ drop 1 text.now }
    ensures { IsLongestMark text.now result }
{
    if begins(text, b"::") {
        return 2;
    }
    1
}

#[tactic(auto, unfolding(crate::specs::Lexing::is_single))]
fn is_single_mark(byte: u8) -> bool
    ensures { result ≡ is_single byte }
{
    match byte {
        b'%' | b'&' | b'(' | b')' | b'*' | b'+' | b',' | b'-' | b'/' => true,
        b':' | b';' | b'<' | b'=' | b'>' | b'[' | b']' | b'^' => true,
        b'{' | b'|' | b'}' | b'~' => true,
        _ => false,
    }
}
