//! Items of enums, and constants of groups.
ghost use Rattle.std.specs.Prelude.{◌<◌, ◌≤◌, ◌++◌, codes, length, map, option_map, OnOk};
ghost use Rattle.grammar_model.specs.Readings.{image, optional, others, separated_and_last, ◌&>◌};
ghost use Rattle.idl_model.specs.GrammarReading as model;
ghost use Rattle.idl_model.specs.Trees as plain;
ghost use Rattle.idl_trees.specs.Expressions.{expr_of};
ghost use Rattle.idl_trees.specs.Members.{constant_of, item_of};
ghost use Rattle.idl_trees.specs.Trees.{declaration_of};
ghost use Rattle.idl_parse.specs.Reading.{Gives};

use crate::parser::Parser;
use crate::rule::Rule;
use crate::stop::Stop;
use idl_trees::{Constant, Declaration, Expr, Item};

impl<'t> Parser<'t> {
    /// "{" item { "," item } [ "," ] "}" ";"
    #[tactic(auto, unfolding(idl_model::specs::GrammarReading::enum_decl))]
    pub(crate) fn enum_body(&mut self) -> Result<Declaration, Stop>
        ensures gives { Gives declaration_of result self.new (model.enum_decl 64 self.old) }
        ensures shorter { OnOk result (length self.new < length self.old) }
    {
        self.mark("{")?;
        let items = self.items()?;
        self.mark("}")?;
        self.mark(";")?;
        Ok(Declaration::Enum(items))
    }

    /// item { "," item } [ "," ]
    fn items(&mut self) -> Result<Vec<Item>, Stop>
        ensures gives { Gives (λ items. map item_of items.items) result self.new
            (image (λ z. z.0) (separated_and_last (model.is_mark (codes ",")) model.is_identifier (model.item 64) (model.mark (codes ","))) self.old) }
        ensures shorter { OnOk result (length self.new < length self.old) }
    {
        let first = self.item()?;
        let mut items = Vec::new(self.alloc);
        items.push(first)?;
        self.more_items(&mut items)?;
        Ok(items)
    }

    /// { "," item } [ "," ], behind those that were read
    fn more_items(&mut self, items: &mut Vec<Item>) -> Result<(), Stop>
        ensures gives { Gives (λ _. map item_of items.new.items) result self.new
            (image (λ z. map item_of items.old.items ++ z.0)
            (others (model.is_mark (codes ",")) model.is_identifier (model.item 64) (model.mark (codes ","))) self.old) }
        ensures shorter { OnOk result (length self.new ≤ length self.old) }
    {
        while self.is_mark(",") {
            self.skip();
            if !self.is_identifier() {
                return Ok(());
            }
            let one = self.item()?;
            items.push(one)?;
        }
        Ok(())
    }

    /// item = ID [ "=" expr ]
    #[tactic(auto, unfolding(idl_model::specs::GrammarReading::item))]
    fn item(&mut self) -> Result<Item, Stop>
        ensures gives { Gives item_of result self.new (model.item 64 self.old) }
        ensures shorter { OnOk result (length self.new < length self.old) }
    {
        let name = self.id()?;
        let value = self.may_have_value()?;
        Ok(Item { name, value })
    }

    /// [ "=" expr ]
    fn may_have_value(&mut self) -> Result<Option<Expr>, Stop>
        ensures gives { Gives (option_map expr_of) result self.new
            (optional (model.is_mark (codes "=")) (model.mark (codes "=") &> model.expr 64) self.old) }
        ensures shorter { OnOk result (length self.new ≤ length self.old) }
    {
        if !self.accept_mark("=") {
            return Ok(None);
        }
        Ok(Some(self.expr()?))
    }
}

impl Rule for Constant {
    ghost Plain = { plain.Constant };

    ghost plain = { constant_of };

    ghost reads = { model.const 64 64 };

    /// "const" type ID "=" expr ";"
    #[tactic(auto, using(crate::proofs::TypeLemmas::constant_parts))]
    fn read(parser: &mut Parser<'_>) -> Result<Constant, Stop> {
        parser.keyword("const")?;
        let kind = parser.written_type()?;
        let name = parser.id()?;
        parser.mark("=")?;
        let value = parser.expr()?;
        parser.mark(";")?;
        Ok(Constant { kind, name, value })
    }
}
