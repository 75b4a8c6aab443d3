//! UNOIDL: the tokens of a text, whether they have a tree, the values of expressions, and what names stand for.
ghost use Rattle.std.specs.Prelude.{◌≡◌, ℤ, Option, None, Some, length, pos, if◌then◌else◌};
ghost use Rattle.idl_meaning_model.specs.FromFiles.{AreOfFiles};
ghost use Rattle.idl_model.specs.Trees as tree;
ghost use Rattle.idl_trees.specs.Trees.{trees_of};

use crate::spelling::bytes_of;
use crate::texts::answer::Answer;
use idl_const::{Values, evaluate};
use idl_lex::{LexError, lex};
use idl_names::{NameError, Paths, resolve};
use idl_parse::{ParseError, parse};
use idl_trees::{Declaration, Def, Path, Place, Token, Tree, Word};
use std::alloc::Global;
use std::slice;

/// `tokens TEXT`: of each token the byte and what it says, or the refusal.
pub(crate) fn tokens(alloc: Global, text: &str, answer: &mut Answer) {
    match lex(alloc, 0, &bytes_of(alloc, text)) {
        Ok(tokens) => {
            for token in &tokens {
                put_token(token, answer);
            }
        }
        Err(error) => not_read(error, answer),
    }
}

fn put_token(token: &Token, answer: &mut Answer) {
    answer.show(&token.place.byte);
    match &token.word {
        Word::Identifier(name) => answer.word(name.as_str()),
        Word::Number(number) => answer.show(number),
        Word::Quoted(word) | Word::Mark(word) => answer.word(word.as_str()),
    }
}

/// `tree TEXT`: how many declarations the tree of a text has, or the refusal.
pub(crate) fn tree(alloc: Global, text: &str, answer: &mut Answer) {
    match lex(alloc, 0, &bytes_of(alloc, text)) {
        Ok(tokens) => match parse(alloc, &tokens) {
            Ok(tree) => answer.show(&tree.defs.len()),
            Err(error) => not_parsed(error, answer),
        },
        Err(error) => not_read(error, answer),
    }
}

/// `value TEXT`: the value of the last constant of the first group of a text, or why it has none.
pub(crate) fn value(alloc: Global, text: &str, answer: &mut Answer) {
    match lex(alloc, 0, &bytes_of(alloc, text)) {
        Ok(tokens) => match parse(alloc, &tokens) {
            Ok(tree) => put_value(&tree, answer),
            Err(error) => not_parsed(error, answer),
        },
        Err(error) => not_read(error, answer),
    }
}

/// The value of the last constant of the first group, if the text has one.
fn put_value(tree: &Tree, answer: &mut Answer) {
    let Some(Def::Declared(_, decl)) = tree.defs.first() else {
        return answer.word("no group");
    };
    let Declaration::Constants(constants) = &decl.body else {
        return answer.word("no group");
    };
    let Some(constant) = constants.last() else {
        return answer.word("no constant");
    };
    match evaluate(&constant.value, &Lengths) {
        Ok(value) => answer.show(&value),
        Err(error) => answer.show(&error),
    }
}

/// The value of a name is how many identifiers it has, and one behind `::` has none.
struct Lengths;

impl Values for Lengths {
    ghost value_known = { λ _ path. if path.absolute then None else Some (pos (length path.parts)) };

    fn value(&self, path: &Path) -> Option<i128> {
        match path.absolute {
            true => None,
            false => Some(path.parts.len() as i128),
        }
    }
}

/// `names TEXT`: of each name that is used the byte and what it stands for, or the fault that comes first.
pub(crate) fn names(alloc: Global, text: &str, answer: &mut Answer) {
    match lex(alloc, 0, &bytes_of(alloc, text)) {
        Ok(tokens) => match parse(alloc, &tokens) {
            Ok(tree) => put_names(alloc, slice::from_ref(&tree), answer),
            Err(error) => not_parsed(error, answer),
        },
        Err(error) => not_read(error, answer),
    }
}

fn put_names(alloc: Global, trees: &[Tree], answer: &mut Answer)
    requires { AreOfFiles (trees_of trees.now) }
{
    match resolve(alloc, trees) {
        Ok(resolved) => {
            for (place, number) in &resolved.names {
                answer.show(&place.byte);
                put_name(alloc, &resolved.paths, *number, answer);
            }
        }
        Err(error) => not_resolved(error, answer),
    }
}

fn put_name(alloc: Global, paths: &Paths<'_>, number: u32, answer: &mut Answer) {
    if number as usize >= paths.len() {
        return answer.word("no path");
    }
    if let Ok(name) = paths.full_name(alloc, number) {
        answer.word(name.as_str());
    }
}

fn not_read(error: LexError, answer: &mut Answer) {
    match error {
        LexError::NoMemory => answer.word("NoMemory"),
        LexError::BadUtf8(place) => refused("BadUtf8", place, answer),
        LexError::BadToken(place) => refused("BadToken", place, answer),
        LexError::OpenComment(place) => refused("OpenComment", place, answer),
        LexError::TooLong(place) => refused("TooLong", place, answer),
    }
}

fn not_parsed(error: ParseError, answer: &mut Answer) {
    match error {
        ParseError::NoMemory => answer.word("NoMemory"),
        ParseError::Unexpected(place) => refused("Unexpected", place, answer),
        ParseError::Nested(place) => refused("Nested", place, answer),
    }
}

fn not_resolved(error: NameError, answer: &mut Answer) {
    match error {
        NameError::NoMemory => answer.word("NoMemory"),
        NameError::Unknown(place) => refused("Unknown", place, answer),
        NameError::FloatRefused(place) => refused("FloatRefused", place, answer),
        NameError::Twice(place, first) => {
            refused("Twice", place, answer);
            put_first(first, answer);
        }
    }
}

/// The place of the first declaration; what is built in has none.
fn put_first(first: Option<Place>, answer: &mut Answer) {
    match first {
        Some(place) => answer.show(&place.byte),
        None => answer.word("-"),
    }
}

fn refused(why: &str, place: Place, answer: &mut Answer) {
    answer.word(why);
    answer.show(&place.byte);
}
