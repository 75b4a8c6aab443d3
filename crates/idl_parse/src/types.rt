//! Types.
ghost use Rattle.std.specs.Prelude.{◌≡◌, ◌<◌, codes, length, option_map, OnOk};
ghost use Rattle.grammar_model.specs.Readings.{next, image, one, ◌&◌};
ghost use Rattle.idl_model.specs.Grammar.{of_table, simple_words, unsigned_words, unsigned_at, simple_at};
ghost use Rattle.idl_model.specs.GrammarReading.{begins_name, element_at, keyword_place, name, named_of, sequence_type, simple_type, type};
ghost use Rattle.idl_model.specs.GrammarReading as reading;
ghost use Rattle.idl_text_model.specs.Tokens as plain;
ghost use Rattle.idl_trees.specs.Tokens.{word_of};
ghost use Rattle.idl_trees.specs.Names.{place_of};
ghost use Rattle.idl_trees.specs.Types.{simple_of, type_of};
ghost use Rattle.idl_parse.specs.Reading.{Gives};

use crate::parser::{MOST_OPEN, Parser};
use crate::stop::Stop;
use idl_trees::{Place, Simple, Word, WrittenType};

impl<'t> Parser<'t> {
    /// type = simple | name | "sequence" "<" type ">"
    pub(crate) fn written_type(&mut self) -> Result<WrittenType, Stop>
        ensures gives { Gives type_of result self.new (type 64 self.old) }
        ensures shorter { OnOk result (length self.new < length self.old) }
    {
        self.type_within(MOST_OPEN)
    }

    /// A type in which at most so many `<` stand open.
    #[cycle(type_within)]
    #[tactic(auto, using(crate::proofs::TypeLemmas::type_parts))]
    fn type_within(&mut self, depth: u32) -> Result<WrittenType, Stop>
        ensures gives { Gives type_of result self.new (type depth self.old) }
        ensures shorter { OnOk result (length self.new < length self.old) }
    {
        if self.is_keyword("sequence") {
            return self.sequence(depth);
        }
        if self.begins_name() {
            return self.named();
        }
        self.simple()
    }

    /// "sequence" "<" type ">"
    #[cycle(type_within)]
    fn sequence(&mut self, depth: u32) -> Result<WrittenType, Stop>
        ensures gives { Gives type_of result self.new (image sequence_type (keyword_place (codes "sequence") & element_at depth) self.old) }
        ensures shorter { OnOk result (length self.new < length self.old) }
    {
        let place = self.keyword_at("sequence")?;
        let element = self.element(depth)?;
        let element = Box::new(self.alloc, element)?;
        Ok(WrittenType::SequenceOf(place, element))
    }

    /// "<" type ">"
    #[cycle(type_within)]
    #[tactic(auto, using(crate::proofs::TypeLemmas::elements))]
    fn element(&mut self, depth: u32) -> Result<WrittenType, Stop>
        ensures gives { Gives type_of result self.new (element_at depth self.old) }
        ensures shorter { OnOk result (length self.new < length self.old) }
    {
        if depth == 0 {
            return Err(self.closed("<"));
        }
        self.mark("<")?;
        let element = self.type_within(depth - 1)?;
        self.mark(">")?;
        Ok(element)
    }

    /// A type by its name.
    fn named(&mut self) -> Result<WrittenType, Stop>
        ensures gives { Gives type_of result self.new (image named_of name self.old) }
        ensures shorter { OnOk result (length self.new < length self.old) }
    {
        let path = self.path()?;
        Ok(WrittenType::Named(path))
    }

    fn begins_name(&self) -> bool
        ensures { result ≡ begins_name (next self.now) }
    {
        self.is_mark("::") || self.is_identifier()
    }

    /// A simple type, which may have two words.
    #[tactic(auto, unfolding(idl_model::specs::GrammarReading::simple_type))]
    fn simple(&mut self) -> Result<WrittenType, Stop>
        ensures gives { Gives type_of result self.new (image reading.simple_of simple_type self.old) }
        ensures shorter { OnOk result (length self.new < length self.old) }
    {
        if !self.is_keyword("unsigned") {
            let (place, simple) = self.simple_word()?;
            return Ok(WrittenType::Simple(place, simple));
        }
        let place = self.keyword_at("unsigned")?;
        let simple = self.unsigned_word()?;
        Ok(WrittenType::Simple(place, simple))
    }

    fn simple_word(&mut self) -> Result<(Place, Simple), Stop>
        ensures gives { Gives (λ x. (place_of x.0, simple_of x.1)) result self.new (one simple_at self.old) }
        ensures shorter { OnOk result (length self.new < length self.old) }
    {
        let Some(token) = self.next() else {
            return Err(self.unexpected());
        };
        let Some(simple) = simple_of(&token.word) else {
            return Err(self.unexpected());
        };
        self.skip();
        Ok((token.place, simple))
    }

    /// The word behind `unsigned`.
    fn unsigned_word(&mut self) -> Result<Simple, Stop>
        ensures gives { Gives simple_of result self.new (one unsigned_at self.old) }
        ensures shorter { OnOk result (length self.new < length self.old) }
    {
        let Some(token) = self.next() else {
            return Err(self.unexpected());
        };
        let Some(simple) = unsigned_of(&token.word) else {
            return Err(self.unexpected());
        };
        self.skip();
        Ok(simple)
    }
}

/// The simple type of a word that stands alone.
fn simple_of(word: &Word) -> Option<Simple>
    ensures { option_map simple_of result ≡ of_table simple_words (word_of word.now) }
{
    let Word::Quoted(text) = word else {
        return None;
    };
    simple_named(text.as_str())
}

fn simple_named(word: &str) -> Option<Simple>
    ensures { option_map simple_of result ≡ of_table simple_words (plain.quoted word.now) }
{
    match word {
        "void" => Some(Simple::Void),
        "char" => Some(Simple::Char),
        "boolean" => Some(Simple::Boolean),
        "byte" => Some(Simple::Byte),
        "short" => Some(Simple::Short),
        "long" => Some(Simple::Long),
        "hyper" => Some(Simple::Hyper),
        "float" => Some(Simple::Float),
        "double" => Some(Simple::Double),
        "string" => Some(Simple::Str),
        "type" => Some(Simple::Kind),
        "any" => Some(Simple::Any),
        _ => None,
    }
}

/// The simple type of a word behind `unsigned`.
fn unsigned_of(word: &Word) -> Option<Simple>
    ensures { option_map simple_of result ≡ of_table unsigned_words (word_of word.now) }
{
    let Word::Quoted(text) = word else {
        return None;
    };
    match text.as_str() {
        "short" => Some(Simple::UnsignedShort),
        "long" => Some(Simple::UnsignedLong),
        "hyper" => Some(Simple::UnsignedHyper),
        _ => None,
    }
}
