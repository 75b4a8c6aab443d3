//! Constructors and members of services.
ghost use Rattle.std.specs.Prelude.{◌≡◌, ◌<◌, codes, length, map, IfOk, OnOk};
ghost use Rattle.grammar_model.specs.Readings.{optional, image, ◌&◌, ◌&>◌, ◌<&◌};
ghost use Rattle.idl_model.specs.Grammar.{listed_of, property_flags};
ghost use Rattle.idl_model.specs.GrammarReading as model;
ghost use Rattle.idl_model.specs.GrammarReading.{is_mark, mark};
ghost use Rattle.idl_model.specs.Trees as plain;
ghost use Rattle.idl_trees.specs.Members.{constructor_of, constructor_parameter_of, flag_of, service_member_of};
ghost use Rattle.idl_trees.specs.Names.{id_of, path_of};
ghost use Rattle.idl_trees.specs.Types.{type_of};
ghost use Rattle.idl_parse.specs.Flags.{property_behind};
ghost use Rattle.idl_parse.specs.Reading.{Gives};

use crate::flags::Flagged;
use crate::parser::Parser;
use crate::rule::Rule;
use crate::signature::Signature;
use crate::stop::Stop;
use idl_trees::{
    Constructor, ConstructorParameter, Flag, Id, Part, Property, ServiceMember, WrittenType,
};

impl Rule for Constructor {
    ghost Plain = { plain.Constructor };

    ghost plain = { constructor_of };

    ghost reads = { model.constructor 64 };

    /// ctor = ID "(" [ cpar { "," cpar } ] ")" [ raises ] ";"
    #[tactic(auto, unfolding(idl_model::specs::GrammarReading::constructor))]
    fn read(parser: &mut Parser<'_>) -> Result<Constructor, Stop> {
        let Signature {
            name,
            parameters,
            raises,
        } = parser.signature()?;
        Ok(Constructor {
            name,
            parameters,
            raises,
        })
    }
}

impl Rule for ConstructorParameter {
    ghost Plain = { plain.ConstructorParameter };

    ghost plain = { constructor_parameter_of };

    ghost reads = { model.constructor_parameter 64 };

    /// cpar = "[" "in" "]" type [ "..." ] ID
    #[tactic(auto, unfolding(idl_model::specs::GrammarReading::constructor_parameter))]
    fn read(parser: &mut Parser<'_>) -> Result<ConstructorParameter, Stop> {
        parser.mark("[")?;
        parser.keyword("in")?;
        parser.mark("]")?;
        let kind = parser.written_type()?;
        let rest = parser.accept_mark("...");
        let name = parser.id()?;
        Ok(ConstructorParameter { kind, rest, name })
    }
}

impl Rule for ServiceMember {
    ghost Plain = { plain.ServiceMember };

    ghost plain = { service_member_of };

    ghost reads = { model.service_member 64 };

    /// smem: an interface, a service or a property, with what stands in brackets before it.
    #[tactic(auto, unfolding(idl_model::specs::GrammarReading::service_member))]
    fn read(parser: &mut Parser<'_>) -> Result<ServiceMember, Stop> {
        if parser.accept_mark("[") {
            return parser.flagged_service_member();
        }
        parser.service_part(false)
    }
}

impl<'t> Parser<'t> {
    /// [ "{" { ctor } "}" ] ";"
    pub(crate) fn may_have_constructors(&mut self) -> Result<Vec<Constructor>, Stop>
        ensures gives { Gives (λ all. map constructor_of all.items) result self.new
            (image listed_of (optional (is_mark (codes "{")) (model.braced_list (model.constructor 64)) <& mark (codes ";")) self.old) }
        ensures shorter { OnOk result (length self.new < length self.old) }
    {
        if !self.is_mark("{") {
            self.mark(";")?;
            return Ok(Vec::new(self.alloc));
        }
        let constructors = self.braced_list()?;
        self.mark(";")?;
        Ok(constructors)
    }

    /// Behind the `[`: `optional` alone and an interface or a service, or a property.
    #[tactic(auto, unfolding(idl_model::specs::GrammarReading::flagged_service_member))]
    fn flagged_service_member(&mut self) -> Result<ServiceMember, Stop>
        ensures gives { Gives service_member_of result self.new (model.flagged_service_member 64 self.old) }
        ensures shorter { OnOk result (length self.new < length self.old) }
    {
        if !self.accept_keyword("optional") {
            return self.property(Vec::new(self.alloc));
        }
        if self.accept_mark("]") {
            return self.service_part(true);
        }
        self.mark(",")?;
        let flags = vec![in self.alloc; Flag::Optional]?;
        self.property(flags)
    }

    /// ( "interface" | "service" ) name ";"
    fn service_part(&mut self, optional: bool) -> Result<ServiceMember, Stop>
        ensures gives { Gives service_member_of result self.new (model.part optional self.old) }
        ensures shorter { OnOk result (length self.new < length self.old) }
    {
        if self.is_keyword("interface") {
            let part = self.part_named("interface", optional)?;
            return Ok(ServiceMember::Interface(part));
        }
        let part = self.part_named("service", optional)?;
        Ok(ServiceMember::Service(part))
    }

    /// keyword name ";"
    fn part_named(&mut self, keyword: &str, optional: bool) -> Result<Part, Stop>
        ensures gives { Gives (λ part. path_of part.path) result self.new ((model.keyword keyword.now &> model.name <& mark (codes ";")) self.old) }
        ensures optional { IfOk result (λ part. part.optional ≡ optional) }
        ensures shorter { OnOk result (length self.new < length self.old) }
    {
        self.keyword(keyword)?;
        let path = self.path()?;
        self.mark(";")?;
        Ok(Part { optional, path })
    }

    /// Flags behind those that were read, with the word `property`, and what follows.
    fn property(&mut self, mut flags: Vec<Flag>) -> Result<ServiceMember, Stop>
        ensures gives { Gives service_member_of result self.new
            (image (property_behind (map flag_of flags.items)) (model.flags property_flags (codes "property") & model.property_tail 64) self.old) }
        ensures shorter { OnOk result (length self.new < length self.old) }
    {
        self.more_flags(Flagged::Property, &mut flags)?;
        let (kind, name) = self.property_tail()?;
        Ok(ServiceMember::Property(Property { flags, kind, name }))
    }

    /// "]" type ID ";"
    fn property_tail(&mut self) -> Result<(WrittenType, Id), Stop>
        ensures gives { Gives (λ tail. (type_of tail.0, id_of tail.1)) result self.new (model.property_tail 64 self.old) }
        ensures shorter { OnOk result (length self.new < length self.old) }
    {
        self.mark("]")?;
        let kind = self.written_type()?;
        let name = self.id()?;
        self.mark(";")?;
        Ok((kind, name))
    }
}
