//! Files and modules.
ghost use Rattle.std.specs.Prelude.{◌≡◌, ◌<◌, ◌≤◌, [], codes, length, map, OnOk};
ghost use Rattle.grammar_model.specs.Readings.{image, many, optional, ◌&◌};
ghost use Rattle.idl_model.specs.GrammarReading as model;
ghost use Rattle.idl_model.specs.GrammarReading.{is_keyword, is_open, keyword};
ghost use Rattle.idl_trees.specs.Trees.{def_of, tree_of};
ghost use Rattle.idl_parse.specs.Reading.{Gives};

use crate::parser::{MOST_OPEN, Parser};
use crate::stop::Stop;
use idl_trees::{Def, Tree};

impl<'t> Parser<'t> {
    /// file = { def }
    #[tactic(auto, unfolding(idl_model::specs::GrammarReading::tree))]
    pub(crate) fn tree(&mut self) -> Result<Tree, Stop>
        ensures gives { Gives tree_of result self.new (model.tree 64 64 64 self.old) }
        ensures all { OnOk result (self.new ≡ []) }
    {
        let mut defs = Vec::new(self.alloc);
        while !self.is_at_end() {
            let def = self.def(MOST_OPEN)?;
            defs.push(def)?;
        }
        Ok(Tree { defs })
    }

    /// def = "module" ID "{" { def } "}" ";" | [ "published" ] decl
    #[cycle(def)]
    #[tactic(auto, unfolding(idl_model::specs::GrammarReading::def))]
    fn def(&mut self, modules: u32) -> Result<Def, Stop>
        ensures gives { Gives def_of result self.new (model.def 64 64 modules self.old) }
        ensures shorter { OnOk result (length self.new < length self.old) }
    {
        if self.accept_keyword("module") {
            let name = self.id()?;
            let defs = self.defs(modules)?;
            self.mark(";")?;
            return Ok(Def::Module(name, defs));
        }
        self.declared()
    }

    /// [ "published" ] decl
    fn declared(&mut self) -> Result<Def, Stop>
        ensures gives { Gives def_of result self.new
            (image model.declared_of (optional (is_keyword (codes "published")) (keyword (codes "published")) & model.decl 64 64) self.old) }
        ensures shorter { OnOk result (length self.new < length self.old) }
    {
        let published = self.accept_keyword("published");
        let decl = self.decl()?;
        Ok(Def::Declared(published, decl))
    }

    /// "{" { def } "}", where at most so many modules may open.
    #[cycle(def)]
    #[tactic(auto, using(crate::proofs::DefLemmas::bodies))]
    fn defs(&mut self, modules: u32) -> Result<Vec<Def>, Stop>
        ensures gives { Gives (λ all. map def_of all.items) result self.new (model.body_at 64 64 modules self.old) }
        ensures shorter { OnOk result (length self.new < length self.old) }
    {
        if modules == 0 {
            return Err(self.closed("{"));
        }
        self.mark("{")?;
        let defs = self.defs_within(modules - 1)?;
        self.mark("}")?;
        Ok(defs)
    }

    /// { def }; most modules have one, so there is room for one at first
    #[cycle(def)]
    fn defs_within(&mut self, modules: u32) -> Result<Vec<Def>, Stop>
        ensures gives { Gives (λ all. map def_of all.items) result self.new (many (is_open (codes "}")) (model.def 64 64 modules) self.old) }
        ensures shorter { OnOk result (length self.new ≤ length self.old) }
    {
        let mut all = Vec::with_capacity(self.alloc, 1)?;
        while self.is_open("}") {
            let def = self.def(modules)?;
            all.push(def)?;
        }
        Ok(all)
    }
}
