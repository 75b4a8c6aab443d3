//! Members of interfaces.
ghost use Rattle.std.specs.Prelude.{◌≡◌, ◌<◌, ◌≤◌, codes, length, map, option_map, OnOk};
ghost use Rattle.grammar_model.specs.Readings.{one, optional, next, ◌&◌, ◌&>◌, ◌<&◌};
ghost use Rattle.idl_model.specs.Grammar.{of_table, ways, attribute_of};
ghost use Rattle.idl_model.specs.GrammarReading as model;
ghost use Rattle.idl_model.specs.GrammarReading.{is_keyword, is_mark, mark};
ghost use Rattle.idl_model.specs.PlacedTokens.{next_word};
ghost use Rattle.idl_model.specs.Trees as plain;
ghost use Rattle.idl_trees.specs.Members.{interface_member_of, parameter_of, paths_of, flag_of};
ghost use Rattle.idl_trees.specs.Names.{id_of};
ghost use Rattle.idl_trees.specs.Types.{type_of};
ghost use Rattle.idl_parse.specs.Accessors.{accessors_read};
ghost use Rattle.idl_parse.specs.Flags.{in_table};
ghost use Rattle.idl_parse.specs.Reading.{Gives};

use crate::flags::Flagged;
use crate::parser::Parser;
use crate::rule::Rule;
use crate::signature::Signature;
use crate::stop::Stop;
use idl_trees::{
    Attribute, Flag, Id, InterfaceMember, Method, Parameter, Part, Path, Way, Word, WrittenType,
};

/// What `get` and `set` of an attribute raise, each where it is written.
#[derive(Drop)]
pub(crate) struct Accessors {
    get: Option<Vec<Path>>,
    set: Option<Vec<Path>>,
}

impl Rule for InterfaceMember {
    ghost Plain = { plain.InterfaceMember };

    ghost plain = { interface_member_of };

    ghost reads = { model.interface_member 64 };

    /// imem: a base, an attribute or a method, with what stands in brackets before it.
    #[tactic(auto, unfolding(idl_model::specs::GrammarReading::interface_member))]
    fn read(parser: &mut Parser<'_>) -> Result<InterfaceMember, Stop> {
        if parser.accept_mark("[") {
            return parser.flagged_member();
        }
        if parser.is_keyword("interface") {
            return parser.base(false);
        }
        parser.method(false)
    }
}

impl<'t> Parser<'t> {
    /// Behind the `[`: `optional` and a base, `oneway` and a method, or an attribute.
    #[tactic(auto, unfolding(idl_model::specs::GrammarReading::flagged_member))]
    fn flagged_member(&mut self) -> Result<InterfaceMember, Stop>
        ensures gives { Gives interface_member_of result self.new (model.flagged_member 64 self.old) }
        ensures shorter { OnOk result (length self.new < length self.old) }
    {
        if self.accept_keyword("optional") {
            self.mark("]")?;
            return self.base(true);
        }
        if self.accept_keyword("oneway") {
            self.mark("]")?;
            return self.method(true);
        }
        self.attribute()
    }

    /// "interface" name ";"
    fn base(&mut self, optional: bool) -> Result<InterfaceMember, Stop>
        ensures gives { Gives interface_member_of result self.new (model.base optional self.old) }
        ensures shorter { OnOk result (length self.new < length self.old) }
    {
        self.keyword("interface")?;
        let path = self.path()?;
        self.mark(";")?;
        Ok(InterfaceMember::Base(Part { optional, path }))
    }

    /// aflag { "," aflag } "]" type ID [ "{" ( [ aget ] [ aset ] | aset aget ) "}" ] ";"
    #[tactic(auto, unfolding(idl_model::specs::GrammarReading::attribute))]
    fn attribute(&mut self) -> Result<InterfaceMember, Stop>
        ensures gives { Gives interface_member_of result self.new (model.attribute 64 self.old) }
        ensures shorter { OnOk result (length self.new < length self.old) }
    {
        let mut flags = Vec::new(self.alloc);
        self.more_flags(Flagged::Attribute, &mut flags)?;
        self.mark("]")?;
        let kind = self.written_type()?;
        let name = self.id()?;
        let accessors = self.may_have_accessors()?;
        Ok(attribute_of(flags, kind, name, accessors))
    }

    /// [ "{" ( [ aget ] [ aset ] | aset aget ) "}" ] ";"
    fn may_have_accessors(&mut self) -> Result<Option<Accessors>, Stop>
        ensures gives { Gives (option_map accessors_read) result self.new
            ((optional (is_mark (codes "{")) (mark (codes "{") &> model.accessors <& mark (codes "}")) <& mark (codes ";")) self.old) }
        ensures shorter { OnOk result (length self.new < length self.old) }
    {
        if !self.accept_mark("{") {
            self.mark(";")?;
            return Ok(None);
        }
        let accessors = self.accessors()?;
        self.mark("}")?;
        self.mark(";")?;
        Ok(Some(accessors))
    }

    /// [ aget ] [ aset ] | aset aget
    #[tactic(auto, unfolding(idl_model::specs::GrammarReading::accessors))]
    fn accessors(&mut self) -> Result<Accessors, Stop>
        ensures gives { Gives accessors_read result self.new (model.accessors self.old) }
        ensures shorter { OnOk result (length self.new ≤ length self.old) }
    {
        if self.is_keyword("get") {
            let get = self.accessor("get")?;
            let set = self.may_have_accessor("set")?;
            return Ok(Accessors {
                get: Some(get),
                set,
            });
        }
        if self.is_keyword("set") {
            let set = self.accessor("set")?;
            let get = self.may_have_accessor("get")?;
            return Ok(Accessors {
                get,
                set: Some(set),
            });
        }
        Ok(Accessors {
            get: None,
            set: None,
        })
    }

    /// What `get` or `set` raises, if the word is next.
    fn may_have_accessor(&mut self, keyword: &str) -> Result<Option<Vec<Path>>, Stop>
        ensures gives { Gives (option_map paths_of) result self.new (optional (is_keyword keyword.now) (model.accessor keyword.now) self.old) }
        ensures shorter { OnOk result (length self.new ≤ length self.old) }
    {
        if !self.is_keyword(keyword) {
            return Ok(None);
        }
        Ok(Some(self.accessor(keyword)?))
    }

    /// "get" raises ";" or "set" raises ";"
    #[tactic(auto, unfolding(idl_model::specs::GrammarReading::accessor))]
    fn accessor(&mut self, keyword: &str) -> Result<Vec<Path>, Stop>
        ensures gives { Gives paths_of result self.new (model.accessor keyword.now self.old) }
        ensures shorter { OnOk result (length self.new < length self.old) }
    {
        self.keyword(keyword)?;
        let raises = self.raises()?;
        self.mark(";")?;
        Ok(raises)
    }

    /// type ID "(" [ par { "," par } ] ")" [ raises ] ";"
    #[tactic(auto, unfolding(idl_model::specs::GrammarReading::method))]
    fn method(&mut self, oneway: bool) -> Result<InterfaceMember, Stop>
        ensures gives { Gives interface_member_of result self.new (model.method 64 oneway self.old) }
        ensures shorter { OnOk result (length self.new < length self.old) }
    {
        let result = self.written_type()?;
        let Signature {
            name,
            parameters,
            raises,
        } = self.signature()?;
        Ok(InterfaceMember::Method(Method {
            oneway,
            result,
            name,
            parameters,
            raises,
        }))
    }

    /// "in" | "out" | "inout"
    fn way(&mut self) -> Result<Way, Stop>
        ensures gives { Gives (λ way. way) result self.new (one (λ t. of_table ways t.word) self.old) }
        ensures shorter { OnOk result (length self.new < length self.old) }
    {
        let Some(way) = self.next_way() else {
            return Err(self.unexpected());
        };
        self.skip();
        Ok(way)
    }

    fn next_way(&self) -> Option<Way>
        ensures { result ≡ in_table ways (next_word (next self.now)) }
    {
        let Some(Word::Quoted(word)) = self.next_word() else {
            return None;
        };
        match word.as_str() {
            "in" => Some(Way::Into),
            "out" => Some(Way::Out),
            "inout" => Some(Way::Both),
            _ => None,
        }
    }
}

fn attribute_of(
    flags: Vec<Flag>,
    kind: WrittenType,
    name: Id,
    accessors: Option<Accessors>,
) -> InterfaceMember
    ensures { interface_member_of result ≡ attribute_of (map flag_of flags.items, (type_of kind, (id_of name, option_map accessors_read accessors))) }
{
    let Some(Accessors { get, set }) = accessors else {
        return InterfaceMember::Attribute(Attribute {
            flags,
            kind,
            name,
            get: None,
            set: None,
        });
    };
    InterfaceMember::Attribute(Attribute {
        flags,
        kind,
        name,
        get,
        set,
    })
}

impl Rule for Parameter {
    ghost Plain = { plain.Parameter };

    ghost plain = { parameter_of };

    ghost reads = { model.parameter 64 };

    /// par = "[" ( "in" | "out" | "inout" ) "]" type ID
    #[tactic(auto, unfolding(idl_model::specs::GrammarReading::parameter))]
    fn read(parser: &mut Parser<'_>) -> Result<Parameter, Stop> {
        parser.mark("[")?;
        let way = parser.way()?;
        parser.mark("]")?;
        let kind = parser.written_type()?;
        let name = parser.id()?;
        Ok(Parameter { way, kind, name })
    }
}
