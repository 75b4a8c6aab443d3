//! Reading the command's words.
ghost use Rattle.std.specs.Prelude.{map, string_bytes};
ghost use Rattle.command_words.specs.Forms.{Orders, order_of};

use crate::command_name::command_named;
use crate::forms::order_by;
use crate::{Command, WordsError};
use std::alloc::Global;

/// What the words ask: the first is the name of a command, and those behind it are in its form.
#[tactic(auto, unfolding(crate::specs::Forms::order_of))]
pub fn read_words(alloc: Global, words: &[String]) -> Result<Command, WordsError>
    ensures { Orders (order_of (map string_bytes words.now)) result }
{
    let [word, behind @ ..] = words else {
        return Err(WordsError::Words);
    };
    let Some(name) = command_named(word.as_str()) else {
        return Err(WordsError::Words);
    };
    order_by(alloc, name, behind)
}
