//! The answer to a row, by its first word.
ghost use Rattle.uno_model.specs.Sound.{IsSound};

use crate::spelling::cut;
use crate::texts::answer::Answer;
use crate::texts::{
    commands, compiled, entities, made, messages, misfits, plans, streams, unoidl, values,
};
use std::alloc::Global;
use uno_types::{Registry, Tag, is_entity_name, is_identifier};

pub(crate) fn answer_row(registry: &Registry, row: &str, answer: &mut Answer)
    requires { IsSound registry.now }
{
    let (what, text) = cut(row, " ");
    match what {
        "word" => {
            answer.yes_or_no(is_identifier(text));
            answer.yes_or_no(is_entity_name(text));
        }
        "tag" => tag(registry.allocator(), text, answer),
        "words" => commands::words(
            registry.allocator(),
            row.strip_prefix("words").unwrap_or(""),
            answer,
        ),
        "registry" => entities::read(registry.allocator(), text, answer),
        "idl" => entities::idl(registry, text, answer),
        "tokens" => unoidl::tokens(registry.allocator(), text, answer),
        "tree" => unoidl::tree(registry.allocator(), text, answer),
        "value" => unoidl::value(registry.allocator(), text, answer),
        "names" => unoidl::names(registry.allocator(), text, answer),
        "compile" => compiled::compiled(registry.allocator(), text, answer),
        "again" => compiled::again(registry, answer),
        "members" => entities::members(registry, text, answer),
        "functions" => entities::functions(registry, text, answer),
        "function" => entities::function(registry, text, answer),
        "line" => plans::line(registry, text, answer),
        "plan" => plans::plan(registry, text, answer),
        "with" => misfits::with(registry, text, answer),
        "stands" => made::standing(registry, text, answer),
        "fits" => made::fitting(registry, text, answer),
        "weight" => made::weighed(registry, text, answer),
        "stream" => streams::stream(registry.allocator(), text, answer),
        "listen" => messages::listen(registry, text, answer),
        _ => values::answer_typed(registry, what, text, answer),
    }
}

/// `tag TEXT`: what a copy of the tag is, or why there is none.
fn tag(alloc: Global, text: &str, answer: &mut Answer) {
    match Tag::read(alloc, text) {
        Ok(tag) => {
            put_copy(alloc, &tag, answer);
            drop(tag);
        }
        Err(error) => answer.show(&error),
    }
}

fn put_copy(alloc: Global, tag: &Tag, answer: &mut Answer) {
    match tag.copy(alloc) {
        Ok(copy) => {
            answer.word(copy.as_str());
            drop(copy);
        }
        Err(error) => answer.show(&error),
    }
}
