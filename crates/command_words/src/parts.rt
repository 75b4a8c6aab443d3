//! The words behind the command, taken apart.
ghost use Rattle.std.specs.Prelude.{◌≡◌, ◌++◌, ◌∷◌, [], List, OnOk, IfOk, IfErr, IsSome, MatchOption, MatchResult, None, Err, map, string_bytes, true, false};
ghost use Rattle.std.specs.List.{list_any, before_first, after_first};
ghost use Rattle.command_words.specs.Names.{Text, option_named};
ghost use Rattle.command_words.specs.Meaning.{Means};
ghost use Rattle.command_words.specs.Parts.{apart, onto, ends_here, is_end, begins_with_hyphen, is_equals};

use crate::WordsError;
use crate::option_name::{OptionName, option_named};
use std::alloc::Global;
use std::marker::Model;

/// An option and the value that is given to it.
#[derive(Drop)]
pub(crate) struct Choice<'a> {
    pub option: OptionName,
    pub value: &'a str,
}

impl<'a> Model for Choice<'a> {
    ghost use Rattle.command_words.specs.Parts.{Chosen};

    ghost Value = { Chosen };

    ghost view = { λ c. record { option = c.option; value = c.value.now } };
}

/// The plain words in order, and the options with their values in order.
#[derive(Drop)]
pub(crate) struct Parts<'a> {
    pub plain: Vec<&'a str>,
    pub choices: Vec<Choice<'a>>,
}

impl<'a> Model for Parts<'a> {
    ghost use Rattle.std.specs.Prelude.{map};
    ghost use Rattle.command_words.specs.Parts.{Apart};

    ghost Value = { Apart };

    ghost view = { λ p. record { plain = map (λ s. s.now) p.plain.items; choices = p.choices.items } };
}

impl<'a> Parts<'a> {
    fn new(alloc: Global) -> Parts<'a>
        ensures { result ≡ record { plain = []; choices = [] } }
    {
        Parts {
            plain: Vec::new(alloc),
            choices: Vec::new(alloc),
        }
    }

    fn push_plain(&mut self, word: &'a str) -> Result<(), WordsError>
        ensures pushed { OnOk result (self.new ≡ record { plain = self.old.plain ++ word.now ∷ []; choices = self.old.choices }) }
        ensures want { IfErr result (λ e. e ≡ WordsError.NoMemory) }
    {
        self.plain.push(word)?;
        Ok(())
    }

    fn push_choice(&mut self, option: OptionName, value: &'a str) -> Result<(), WordsError>
        ensures pushed { OnOk result (self.new ≡ record { plain = self.old.plain; choices = self.old.choices ++ record { option = option; value = value.now } ∷ [] }) }
        ensures want { IfErr result (λ e. e ≡ WordsError.NoMemory) }
    {
        self.choices.push(Choice { option, value })?;
        Ok(())
    }

    /// Takes words that are all plain.
    fn push_all(&mut self, words: &'a [String]) -> Result<(), WordsError>
        ensures pushed { OnOk result (self.new ≡ record { plain = self.old.plain ++ map string_bytes words.now; choices = self.old.choices }) }
        ensures want { IfErr result (λ e. e ≡ WordsError.NoMemory) }
    {
        for word in words {
            self.push_plain(word.as_str())?;
        }
        Ok(())
    }

    /// Takes a word that is not the `--` behind the options, and answers the option that waits for its value behind it.
    fn take_word(
        &mut self,
        waiting: Option<OptionName>,
        word: &'a str,
    ) -> Result<Option<OptionName>, WordsError>
        requires { ends_here waiting word.now ≡ false }
        ensures taken { IfOk result (λ now. (words : List Text) → onto self.old waiting (word.now ∷ words) ≡ onto self.new now words) }
        ensures refused { result ≡ Err WordsError.Words → (words : List Text) → apart waiting (word.now ∷ words) ≡ None }
    {
        if let Some(option) = waiting {
            self.push_choice(option, word)?;
            return Ok(None);
        }
        if !word.starts_with('-') {
            self.push_plain(word)?;
            return Ok(None);
        }
        self.take_option(word)
    }

    /// Takes a word that begins with `-`.
    fn take_option(&mut self, word: &'a str) -> Result<Option<OptionName>, WordsError>
        requires end { is_end word.now ≡ false }
        requires hyphen { begins_with_hyphen word.now ≡ true }
        ensures taken { IfOk result (λ now. (words : List Text) → onto self.old None (word.now ∷ words) ≡ onto self.new now words) }
        ensures refused { result ≡ Err WordsError.Words → (words : List Text) → apart None (word.now ∷ words) ≡ None }
    {
        let Some((name, value)) = name_and_value(word) else {
            return waiting_option(word);
        };
        let Some(option) = option_named(name) else {
            return Err(WordsError::Words);
        };
        self.push_choice(option, value)?;
        Ok(None)
    }
}

/// What stands before the first `=`, and behind it.
fn name_and_value(word: &str) -> Option<(&str, &str)>
    ensures { MatchOption result (list_any is_equals word.now ≡ false)
        (λ x. (list_any is_equals word.now ≡ true) × (x.0.now ≡ before_first is_equals word.now) × (x.1.now ≡ after_first is_equals word.now)) }
{
    word.split_once('=')
}

/// The option of a name, which waits for its value.
fn waiting_option(word: &str) -> Result<Option<OptionName>, WordsError>
    ensures { MatchResult result (λ now. (now ≡ option_named word.now) × IsSome now) (λ e. (e ≡ WordsError.Words) × (option_named word.now ≡ None)) }
{
    match option_named(word) {
        Some(option) => Ok(Some(option)),
        None => Err(WordsError::Words),
    }
}

/// Whether a word ends the options.
fn ends_here(waiting: Option<OptionName>, word: &str) -> bool
    ensures { result ≡ ends_here waiting word.now }
{
    match waiting {
        Some(_) => false,
        None => word == "--",
    }
}

/// The words behind the command, taken apart.
pub(crate) fn parts_of<'a>(alloc: Global, words: &'a [String]) -> Result<Parts<'a>, WordsError>
    ensures { Means (apart None (map string_bytes words.now)) result }
{
    let mut parts = Parts::new(alloc);
    let mut waiting = None;
    let mut rest = words;
    while let [word, behind @ ..] = rest {
        if ends_here(waiting, word.as_str()) {
            parts.push_all(behind)?;
            return Ok(parts);
        }
        waiting = parts.take_word(waiting, word.as_str())?;
        rest = behind;
    }
    match waiting {
        Some(_) => Err(WordsError::Words),
        None => Ok(parts),
    }
}
