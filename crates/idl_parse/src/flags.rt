//! Flags of attributes and properties.
ghost use Rattle.std.specs.Bool.{OnTrue};
ghost use Rattle.std.specs.Prelude.{◌≡◌, ◌<◌, ◌≤◌, codes, length, map, option_map, OnOk};
ghost use Rattle.grammar_model.specs.Loops.{with_front};
ghost use Rattle.grammar_model.specs.Readings.{next, many, ◌&>◌, ◌<&◌};
ghost use Rattle.idl_model.specs.Grammar.{of_table, attribute_flags, property_flags};
ghost use Rattle.idl_text_model.specs.Tokens as token;
ghost use Rattle.idl_model.specs.GrammarReading.{flag, flags, is_mark, is_one_of, mark};
ghost use Rattle.idl_model.specs.PlacedTokens.{next_word};
ghost use Rattle.idl_trees.specs.Members.{flag_of};
ghost use Rattle.idl_parse.specs.Flags.{word_beside, flags_beside, in_table};
ghost use Rattle.idl_parse.specs.Reading.{Gives};

use crate::parser::Parser;
use crate::stop::Stop;
use idl_trees::{Flag, Word};

/// Which flags stand beside a word.
#[derive(Clone, Copy)]
pub(crate) enum Flagged {
    Attribute,
    Property,
}

impl Flagged {
    /// The word that stands among its flags once.
    fn word(self) -> &'static str
        ensures { result.now ≡ word_beside self }
    {
        match self {
            Flagged::Attribute => "attribute",
            Flagged::Property => "property",
        }
    }

    /// The flag of a word, if it is one that may stand there.
    fn flag(self, word: &str) -> Option<Flag>
        ensures { option_map flag_of result ≡ of_table (flags_beside self) (token.quoted word.now) }
    {
        match self {
            Flagged::Attribute => attribute_flag(word),
            Flagged::Property => property_flag(word),
        }
    }
}

/// aflag, but for the word that stands among its flags once: "readonly" | "bound"
fn attribute_flag(word: &str) -> Option<Flag>
    ensures { option_map flag_of result ≡ of_table attribute_flags (token.quoted word.now) }
{
    match word {
        "readonly" => Some(Flag::ReadOnly),
        "bound" => Some(Flag::Bound),
        _ => None,
    }
}

/// pflag, but for the word that stands among its flags once: "bound" | "constrained" | "maybeambiguous" | "maybedefault" |
/// "maybevoid" | "optional" | "readonly" | "removable" | "transient"
fn property_flag(word: &str) -> Option<Flag>
    ensures { option_map flag_of result ≡ of_table property_flags (token.quoted word.now) }
{
    match word {
        "bound" => Some(Flag::Bound),
        "constrained" => Some(Flag::Constrained),
        "maybeambiguous" => Some(Flag::MaybeAmbiguous),
        "maybedefault" => Some(Flag::MaybeDefault),
        "maybevoid" => Some(Flag::MaybeVoid),
        "optional" => Some(Flag::Optional),
        "readonly" => Some(Flag::ReadOnly),
        "removable" => Some(Flag::Removable),
        "transient" => Some(Flag::Transient),
        _ => None,
    }
}

impl<'t> Parser<'t> {
    /// Flags in any order, and among them once the word that must stand there; they come behind those that were read.
    #[tactic(auto, unfolding(idl_model::specs::GrammarReading::flags))]
    pub(crate) fn more_flags(&mut self, flagged: Flagged, all: &mut Vec<Flag>) -> Result<(), Stop>
        ensures gives { Gives (λ _. map flag_of all.new.items) result self.new
            (with_front (map flag_of all.old.items) (flags (flags_beside flagged) (word_beside flagged) self.old)) }
        ensures shorter { OnOk result (length self.new < length self.old) }
    {
        self.flags_before(flagged, all)?;
        self.keyword(flagged.word())?;
        self.flags_behind(flagged, all)
    }

    /// { flag "," }
    fn flags_before(&mut self, flagged: Flagged, all: &mut Vec<Flag>) -> Result<(), Stop>
        ensures gives { Gives (λ _. map flag_of all.new.items) result self.new
            (with_front (map flag_of all.old.items) (many (is_one_of (flags_beside flagged)) (flag (flags_beside flagged) <& mark (codes ",")) self.old)) }
        ensures shorter { OnOk result (length self.new ≤ length self.old) }
    {
        while self.is_flag(flagged) {
            let flag = self.flag_before_comma(flagged)?;
            all.push(flag)?;
        }
        Ok(())
    }

    /// { "," flag }
    fn flags_behind(&mut self, flagged: Flagged, all: &mut Vec<Flag>) -> Result<(), Stop>
        ensures gives { Gives (λ _. map flag_of all.new.items) result self.new
            (with_front (map flag_of all.old.items) (many (is_mark (codes ",")) (mark (codes ",") &> flag (flags_beside flagged)) self.old)) }
        ensures shorter { OnOk result (length self.new ≤ length self.old) }
    {
        while self.is_mark(",") {
            let flag = self.flag_behind_comma(flagged)?;
            all.push(flag)?;
        }
        Ok(())
    }

    /// flag ","
    fn flag_before_comma(&mut self, flagged: Flagged) -> Result<Flag, Stop>
        ensures gives { Gives flag_of result self.new ((flag (flags_beside flagged) <& mark (codes ",")) self.old) }
        ensures shorter { OnOk result (length self.new < length self.old) }
    {
        let flag = self.flag(flagged)?;
        self.mark(",")?;
        Ok(flag)
    }

    /// "," flag
    fn flag_behind_comma(&mut self, flagged: Flagged) -> Result<Flag, Stop>
        ensures gives { Gives flag_of result self.new ((mark (codes ",") &> flag (flags_beside flagged)) self.old) }
        ensures shorter { OnOk result (length self.new < length self.old) }
    {
        self.mark(",")?;
        self.flag(flagged)
    }

    fn flag(&mut self, flagged: Flagged) -> Result<Flag, Stop>
        ensures gives { Gives flag_of result self.new (flag (flags_beside flagged) self.old) }
        ensures shorter { OnOk result (length self.new < length self.old) }
    {
        let Some(flag) = self.next_flag(flagged) else {
            return Err(self.unexpected());
        };
        self.skip();
        Ok(flag)
    }

    /// Whether a flag is next.
    fn is_flag(&self, flagged: Flagged) -> bool
        ensures is { result ≡ is_one_of (flags_beside flagged) (next self.now) }
        ensures some { OnTrue result (0 < length self.now) }
    {
        self.next_flag(flagged).is_some()
    }

    fn next_flag(&self, flagged: Flagged) -> Option<Flag>
        ensures { option_map flag_of result ≡ in_table (flags_beside flagged) (next_word (next self.now)) }
    {
        let Some(Word::Quoted(word)) = self.next_word() else {
            return None;
        };
        flagged.flag(word.as_str())
    }
}
