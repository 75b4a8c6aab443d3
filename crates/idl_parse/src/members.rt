//! Members of structs and exceptions.
ghost use Rattle.idl_model.specs.GrammarReading.{fields};
ghost use Rattle.idl_model.specs.Trees as plain;
ghost use Rattle.idl_trees.specs.Members.{fields_of};

use crate::parser::Parser;
use crate::rule::Rule;
use crate::stop::Stop;
use idl_trees::Fields;

impl Rule for Fields {
    ghost Plain = { plain.Fields };

    ghost plain = { fields_of };

    ghost reads = { fields 64 };

    /// type ID { "," ID } ";"
    #[tactic(auto, unfolding(idl_model::specs::GrammarReading::fields))]
    fn read(parser: &mut Parser<'_>) -> Result<Fields, Stop> {
        let kind = parser.written_type()?;
        let names = parser.separated(1)?;
        parser.mark(";")?;
        Ok(Fields { kind, names })
    }
}
