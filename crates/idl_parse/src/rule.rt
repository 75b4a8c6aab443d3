//! Rules of the grammar that stand in lists.
ghost use Rattle.std.specs.Prelude.{◌<◌, ◌≤◌, codes, length, map, OnOk, Result};
ghost use Rattle.grammar_model.specs.Readings.{many, separated, ◌&>◌};
ghost use Rattle.grammar_model.specs.Loops.{with_front};
ghost use Rattle.grammar_model.specs.declared.fault.Fault.{Fault};
ghost use Rattle.idl_model.specs.Grammar.{Tokens};
ghost use Rattle.idl_model.specs.GrammarReading.{id, name, is_mark, is_open, mark, braced_list, listed_by};
ghost use Rattle.idl_model.specs.Trees as plain;
ghost use Rattle.idl_trees.specs.Names.{id_of, path_of};
ghost use Rattle.idl_parse.specs.Reading.{Gives};

use crate::parser::Parser;
use crate::stop::Stop;
use idl_trees::{Id, Path};

/// How many parameters most methods do not go beyond.
const USUAL_PARAMETERS: usize = 3;

/// A rule of the grammar that stands in lists: the plain tree of what it reads, and how it is read.
pub(crate) trait Rule: Drop {
    ghost Plain: { Type 0 };

    ghost plain: { Self → Plain };

    ghost reads: { Tokens → Result (Plain × Tokens) Fault };

    fn read(parser: &mut Parser<'_>) -> Result<Self, Stop>
        ensures gives { Gives plain result parser.new (reads parser.old) }
        ensures shorter { OnOk result (length parser.new < length parser.old) };
}

impl<'t> Parser<'t> {
    /// "{" { R } "}"
    pub(crate) fn braced_list<R: Rule>(&mut self) -> Result<Vec<R>, Stop>
        ensures gives { Gives (λ all. map R.plain all.items) result self.new (braced_list R.reads self.old) }
        ensures shorter { OnOk result (length self.new < length self.old) }
    {
        self.mark("{")?;
        let all = self.within_braces()?;
        self.mark("}")?;
        Ok(all)
    }

    /// { R }, up to a brace
    fn within_braces<R: Rule>(&mut self) -> Result<Vec<R>, Stop>
        ensures gives { Gives (λ all. map R.plain all.items) result self.new (many (is_open (codes "}")) R.reads self.old) }
        ensures shorter { OnOk result (length self.new ≤ length self.old) }
    {
        let mut all = Vec::new(self.alloc);
        while self.is_open("}") {
            let one = R::read(self)?;
            all.push(one)?;
        }
        Ok(all)
    }

    /// "(" [ R { "," R } ] ")", where R begins with a bracket
    pub(crate) fn in_parentheses<R: Rule>(&mut self) -> Result<Vec<R>, Stop>
        ensures gives { Gives (λ all. map R.plain all.items) result self.new (listed_by (is_mark (codes "[")) R.reads self.old) }
        ensures shorter { OnOk result (length self.new < length self.old) }
    {
        self.mark("(")?;
        if !self.is_mark("[") {
            self.mark(")")?;
            return Ok(Vec::new(self.alloc));
        }
        let all = self.separated(USUAL_PARAMETERS)?;
        self.mark(")")?;
        Ok(all)
    }

    /// R { "," R }, with room for so many at first
    pub(crate) fn separated<R: Rule>(&mut self, room: usize) -> Result<Vec<R>, Stop>
        ensures gives { Gives (λ all. map R.plain all.items) result self.new (separated (is_mark (codes ",")) R.reads (mark (codes ",")) self.old) }
        ensures shorter { OnOk result (length self.new < length self.old) }
    {
        let mut all = Vec::with_capacity(self.alloc, room)?;
        let first = R::read(self)?;
        all.push(first)?;
        self.others(&mut all)?;
        Ok(all)
    }

    /// { "," R }, behind those that were read
    fn others<R: Rule>(&mut self, all: &mut Vec<R>) -> Result<(), Stop>
        ensures gives { Gives (λ _. map R.plain all.new.items) result self.new
            (with_front (map R.plain all.old.items) (many (is_mark (codes ",")) (mark (codes ",") &> R.reads) self.old)) }
        ensures shorter { OnOk result (length self.new ≤ length self.old) }
    {
        while self.is_mark(",") {
            let one = self.behind_comma()?;
            all.push(one)?;
        }
        Ok(())
    }

    /// "," R
    fn behind_comma<R: Rule>(&mut self) -> Result<R, Stop>
        ensures gives { Gives R.plain result self.new ((mark (codes ",") &> R.reads) self.old) }
        ensures shorter { OnOk result (length self.new < length self.old) }
    {
        self.mark(",")?;
        R::read(self)
    }
}

impl Rule for Id {
    ghost Plain = { plain.Id };

    ghost plain = { id_of };

    ghost reads = { id };

    fn read(parser: &mut Parser<'_>) -> Result<Id, Stop> {
        parser.id()
    }
}

impl Rule for Path {
    ghost Plain = { plain.Path };

    ghost plain = { path_of };

    ghost reads = { name };

    fn read(parser: &mut Parser<'_>) -> Result<Path, Stop> {
        parser.path()
    }
}
