//! Identifiers and names.
ghost use Rattle.std.specs.Bool.{OnTrue};
ghost use Rattle.std.specs.Prelude.{◌≡◌, ◌<◌, ◌≤◌, ◌++◌, codes, length, map, option_map, OnOk};
ghost use Rattle.grammar_model.specs.Readings.{next, image, many, ◌&>◌};
ghost use Rattle.idl_model.specs.GrammarReading.{id, is_identifier, is_mark, mark, may_have_base, may_raise, name, raises};
ghost use Rattle.idl_trees.specs.Members.{paths_of};
ghost use Rattle.idl_trees.specs.Names.{id_of, path_of};
ghost use Rattle.idl_parse.specs.Reading.{Gives};

use crate::parser::Parser;
use crate::stop::Stop;
use idl_trees::{Id, Path, Word};
use uno_entities::Name;

/// How many identifiers most names have that stand in other modules.
const USUAL_PARTS: usize = 5;

impl<'t> Parser<'t> {
    /// Whether the next token is an identifier.
    pub(crate) fn is_identifier(&self) -> bool
        ensures is { result ≡ is_identifier (next self.now) }
        ensures some { OnTrue result (0 < length self.now) }
    {
        matches!(self.next_word(), Some(Word::Identifier(_)))
    }

    /// ID
    pub(crate) fn id(&mut self) -> Result<Id, Stop>
        ensures gives { Gives id_of result self.new (id self.old) }
        ensures shorter { OnOk result (length self.new < length self.old) }
    {
        let Some(token) = self.next() else {
            return Err(self.unexpected());
        };
        let Word::Identifier(name) = &token.word else {
            return Err(self.unexpected());
        };
        let name = name.copy()?;
        self.skip();
        Ok(Id {
            name,
            place: token.place,
        })
    }

    /// name = [ "::" ] ID { "::" ID }
    #[tactic(auto, unfolding(idl_model::specs::GrammarReading::name))]
    pub(crate) fn path(&mut self) -> Result<Path, Stop>
        ensures gives { Gives path_of result self.new (name self.old) }
        ensures shorter { OnOk result (length self.new < length self.old) }
    {
        let mark = self.accept_mark_at("::");
        let Id { name, place } = self.id()?;
        let mut parts = Vec::with_capacity(self.alloc, USUAL_PARTS)?;
        parts.push(name)?;
        self.more_parts(&mut parts)?;
        Ok(Path {
            place: mark.unwrap_or(place),
            absolute: mark.is_some(),
            parts,
        })
    }

    /// { "::" ID }
    fn more_parts(&mut self, parts: &mut Vec<Name>) -> Result<(), Stop>
        ensures gives { Gives (λ _. parts.new.items) result self.new
            (image (λ ids. parts.old.items ++ map (λ i. i.name) ids) (many (is_mark (codes "::")) (mark (codes "::") &> id)) self.old) }
        ensures shorter { OnOk result (length self.new ≤ length self.old) }
    {
        while self.is_mark("::") {
            let Id { name, .. } = self.part()?;
            parts.push(name)?;
        }
        Ok(())
    }

    /// "::" ID
    fn part(&mut self) -> Result<Id, Stop>
        ensures gives { Gives id_of result self.new ((mark (codes "::") &> id) self.old) }
        ensures shorter { OnOk result (length self.new < length self.old) }
    {
        self.mark("::")?;
        self.id()
    }

    /// raises = "raises" "(" name { "," name } ")"
    #[tactic(auto, unfolding(idl_model::specs::GrammarReading::raises))]
    pub(crate) fn raises(&mut self) -> Result<Vec<Path>, Stop>
        ensures gives { Gives paths_of result self.new (raises self.old) }
        ensures shorter { OnOk result (length self.new < length self.old) }
    {
        self.keyword("raises")?;
        self.mark("(")?;
        let paths = self.separated(1)?;
        self.mark(")")?;
        Ok(paths)
    }

    /// [ raises ] ";"
    pub(crate) fn may_raise(&mut self) -> Result<Vec<Path>, Stop>
        ensures gives { Gives paths_of result self.new (may_raise self.old) }
        ensures shorter { OnOk result (length self.new < length self.old) }
    {
        if !self.is_keyword("raises") {
            self.mark(";")?;
            return Ok(Vec::new(self.alloc));
        }
        let paths = self.raises()?;
        self.mark(";")?;
        Ok(paths)
    }

    /// [ ":" name ]
    pub(crate) fn may_have_base(&mut self) -> Result<Option<Path>, Stop>
        ensures gives { Gives (option_map path_of) result self.new (may_have_base self.old) }
        ensures shorter { OnOk result (length self.new ≤ length self.old) }
    {
        if !self.accept_mark(":") {
            return Ok(None);
        }
        Ok(Some(self.path()?))
    }
}
