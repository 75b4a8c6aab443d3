//! The flags of a property, in the order of the grammar.
ghost use Rattle.std.specs.Prelude.{◌≡◌, ◌++◌, ◌∷◌, [], map, OnOk, IfOk, List};
ghost use Rattle.std.specs.List.{flat_map};
ghost use Rattle.registry_text_model.specs.Lines.{spaced, flag_word, flag_words, joined_by_commas};
ghost use Rattle.reg_text.specs.Words.{words_at, first_flags, other_flags};

use std::alloc::Global;
use uno_base::NoMemory;
use uno_types::Flags;

/// The words of the flags that are set.
#[tactic(auto, unfolding(registry_text_model::specs::Lines::flag_words))]
pub fn flag_words<'a>(alloc: Global, flags: &Flags) -> Result<Vec<&'a str>, NoMemory>
    ensures { IfOk result (λ words. words_at words.items ≡ flag_words flags.now) }
{
    let mut words = Vec::new(alloc);
    push_first_flags(&mut words, flags)?;
    push_other_flags(&mut words, flags)?;
    Ok(words)
}

fn push_first_flags<'a>(words: &mut Vec<&'a str>, flags: &Flags) -> Result<(), NoMemory>
    ensures { OnOk result (words_at words.new.items ≡ words_at words.old.items ++ first_flags flags.now) }
{
    push_flag(words, flags.bound, "bound")?;
    push_flag(words, flags.constrained, "constrained")?;
    push_flag(words, flags.maybeambiguous, "maybeambiguous")?;
    push_flag(words, flags.maybedefault, "maybedefault")
}

fn push_other_flags<'a>(words: &mut Vec<&'a str>, flags: &Flags) -> Result<(), NoMemory>
    ensures { OnOk result (words_at words.new.items ≡ words_at words.old.items ++ other_flags flags.now) }
{
    push_flag(words, flags.maybevoid, "maybevoid")?;
    push_flag(words, flags.optional, "optional")?;
    push_flag(words, flags.readonly, "readonly")?;
    push_flag(words, flags.removable, "removable")?;
    push_flag(words, flags.transient, "transient")
}

fn push_flag<'a>(words: &mut Vec<&'a str>, set: bool, word: &'a str) -> Result<(), NoMemory>
    ensures { OnOk result (words_at words.new.items ≡ words_at words.old.items ++ flag_word set word.now) }
{
    if set {
        words.push(word)?;
    }
    Ok(())
}
