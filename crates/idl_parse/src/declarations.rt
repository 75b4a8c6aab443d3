//! Declarations.
ghost use Rattle.std.specs.Prelude.{◌<◌, codes, length, OnOk};
ghost use Rattle.idl_model.specs.GrammarReading as model;
ghost use Rattle.idl_trees.specs.Trees.{decl_of, declaration_of};
ghost use Rattle.idl_parse.specs.Reading.{Gives};

use crate::parser::Parser;
use crate::stop::Stop;
use idl_trees::{Decl, Declaration};

impl<'t> Parser<'t> {
    /// decl
    #[tactic(auto, unfolding(idl_model::specs::GrammarReading::decl))]
    pub(crate) fn decl(&mut self) -> Result<Decl, Stop>
        ensures gives { Gives decl_of result self.new (model.decl 64 64 self.old) }
        ensures shorter { OnOk result (length self.new < length self.old) }
    {
        if self.is_keyword("interface") {
            return self.interface();
        }
        if self.is_keyword("struct") {
            return self.struct_type();
        }
        if self.is_keyword("exception") {
            return self.exception();
        }
        if self.is_keyword("enum") {
            return self.enum_type();
        }
        if self.is_keyword("constants") {
            return self.constant_group();
        }
        if self.is_keyword("typedef") {
            return self.typedef();
        }
        if self.is_keyword("service") {
            return self.service();
        }
        self.singleton()
    }

    fn interface(&mut self) -> Result<Decl, Stop>
        ensures gives { Gives decl_of result self.new (model.named_decl (codes "interface") (model.interface_decl 64) self.old) }
        ensures shorter { OnOk result (length self.new < length self.old) }
    {
        self.keyword("interface")?;
        let name = self.id()?;
        let body = self.interface_body()?;
        Ok(Decl { name, body })
    }

    /// ";" | [ ":" name ] "{" { imem } "}" ";"
    #[tactic(auto, unfolding(idl_model::specs::GrammarReading::interface_decl))]
    fn interface_body(&mut self) -> Result<Declaration, Stop>
        ensures gives { Gives declaration_of result self.new (model.interface_decl 64 self.old) }
        ensures shorter { OnOk result (length self.new < length self.old) }
    {
        if self.accept_mark(";") {
            return Ok(Declaration::Forward);
        }
        let base = self.may_have_base()?;
        let members = self.braced_list()?;
        self.mark(";")?;
        Ok(Declaration::Interface(base, members))
    }

    fn struct_type(&mut self) -> Result<Decl, Stop>
        ensures gives { Gives decl_of result self.new (model.named_decl (codes "struct") (model.struct_decl 64) self.old) }
        ensures shorter { OnOk result (length self.new < length self.old) }
    {
        self.keyword("struct")?;
        let name = self.id()?;
        let body = self.struct_body()?;
        Ok(Decl { name, body })
    }

    /// [ ":" name ] "{" { type ID { "," ID } ";" } "}" ";"
    #[tactic(auto, unfolding(idl_model::specs::GrammarReading::struct_decl))]
    fn struct_body(&mut self) -> Result<Declaration, Stop>
        ensures gives { Gives declaration_of result self.new (model.struct_decl 64 self.old) }
        ensures shorter { OnOk result (length self.new < length self.old) }
    {
        let base = self.may_have_base()?;
        let fields = self.braced_list()?;
        self.mark(";")?;
        Ok(Declaration::Struct(base, fields))
    }

    fn exception(&mut self) -> Result<Decl, Stop>
        ensures gives { Gives decl_of result self.new (model.named_decl (codes "exception") (model.exception_decl 64) self.old) }
        ensures shorter { OnOk result (length self.new < length self.old) }
    {
        self.keyword("exception")?;
        let name = self.id()?;
        let body = self.exception_body()?;
        Ok(Decl { name, body })
    }

    /// [ ":" name ] "{" { type ID { "," ID } ";" } "}" ";"
    #[tactic(auto, unfolding(idl_model::specs::GrammarReading::exception_decl))]
    fn exception_body(&mut self) -> Result<Declaration, Stop>
        ensures gives { Gives declaration_of result self.new (model.exception_decl 64 self.old) }
        ensures shorter { OnOk result (length self.new < length self.old) }
    {
        let base = self.may_have_base()?;
        let fields = self.braced_list()?;
        self.mark(";")?;
        Ok(Declaration::Exception(base, fields))
    }

    fn enum_type(&mut self) -> Result<Decl, Stop>
        ensures gives { Gives decl_of result self.new (model.named_decl (codes "enum") (model.enum_decl 64) self.old) }
        ensures shorter { OnOk result (length self.new < length self.old) }
    {
        self.keyword("enum")?;
        let name = self.id()?;
        let body = self.enum_body()?;
        Ok(Decl { name, body })
    }

    fn constant_group(&mut self) -> Result<Decl, Stop>
        ensures gives { Gives decl_of result self.new (model.named_decl (codes "constants") (model.constants_decl 64 64) self.old) }
        ensures shorter { OnOk result (length self.new < length self.old) }
    {
        self.keyword("constants")?;
        let name = self.id()?;
        let body = self.constants_body()?;
        Ok(Decl { name, body })
    }

    /// "{" { "const" type ID "=" expr ";" } "}" ";"
    #[tactic(auto, unfolding(idl_model::specs::GrammarReading::constants_decl))]
    fn constants_body(&mut self) -> Result<Declaration, Stop>
        ensures gives { Gives declaration_of result self.new (model.constants_decl 64 64 self.old) }
        ensures shorter { OnOk result (length self.new < length self.old) }
    {
        let constants = self.braced_list()?;
        self.mark(";")?;
        Ok(Declaration::Constants(constants))
    }

    /// "typedef" type ID ";"
    #[tactic(auto, unfolding(idl_model::specs::GrammarReading::typedef_decl))]
    fn typedef(&mut self) -> Result<Decl, Stop>
        ensures gives { Gives decl_of result self.new (model.typedef_decl 64 self.old) }
        ensures shorter { OnOk result (length self.new < length self.old) }
    {
        self.keyword("typedef")?;
        let target = self.written_type()?;
        let name = self.id()?;
        self.mark(";")?;
        Ok(Decl {
            name,
            body: Declaration::Typedef(target),
        })
    }

    fn service(&mut self) -> Result<Decl, Stop>
        ensures gives { Gives decl_of result self.new (model.named_decl (codes "service") (model.service_decl 64) self.old) }
        ensures shorter { OnOk result (length self.new < length self.old) }
    {
        self.keyword("service")?;
        let name = self.id()?;
        let body = self.service_body()?;
        Ok(Decl { name, body })
    }

    /// ":" name [ "{" { ctor } "}" ] ";" | "{" { smem } "}" ";"
    #[tactic(auto, unfolding(idl_model::specs::GrammarReading::service_decl))]
    fn service_body(&mut self) -> Result<Declaration, Stop>
        ensures gives { Gives declaration_of result self.new (model.service_decl 64 self.old) }
        ensures shorter { OnOk result (length self.new < length self.old) }
    {
        if self.accept_mark(":") {
            let base = self.path()?;
            let constructors = self.may_have_constructors()?;
            return Ok(Declaration::NewService(base, constructors));
        }
        let members = self.braced_list()?;
        self.mark(";")?;
        Ok(Declaration::OldService(members))
    }

    fn singleton(&mut self) -> Result<Decl, Stop>
        ensures gives { Gives decl_of result self.new (model.named_decl (codes "singleton") model.singleton_decl self.old) }
        ensures shorter { OnOk result (length self.new < length self.old) }
    {
        self.keyword("singleton")?;
        let name = self.id()?;
        let body = self.singleton_body()?;
        Ok(Decl { name, body })
    }

    /// ":" name ";" | "{" "service" name ";" "}" ";"
    #[tactic(auto, unfolding(idl_model::specs::GrammarReading::singleton_decl))]
    fn singleton_body(&mut self) -> Result<Declaration, Stop>
        ensures gives { Gives declaration_of result self.new (model.singleton_decl self.old) }
        ensures shorter { OnOk result (length self.new < length self.old) }
    {
        if self.accept_mark(":") {
            let base = self.path()?;
            self.mark(";")?;
            return Ok(Declaration::NewSingleton(base));
        }
        self.mark("{")?;
        self.keyword("service")?;
        let service = self.path()?;
        self.mark(";")?;
        self.mark("}")?;
        self.mark(";")?;
        Ok(Declaration::OldSingleton(service))
    }
}
