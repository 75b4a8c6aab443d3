//! What methods and constructors have: a name, parameters, and what they raise.
ghost use Rattle.std.specs.Prelude.{◌<◌, codes, length, OnOk};
ghost use Rattle.grammar_model.specs.Readings.{◌&◌};
ghost use Rattle.idl_model.specs.GrammarReading.{id, is_mark, listed_by, may_raise};
ghost use Rattle.idl_parse.specs.Reading.{Gives};
ghost use Rattle.idl_parse.specs.Signatures.{signature_of};

use crate::parser::Parser;
use crate::rule::Rule;
use crate::stop::Stop;
use idl_trees::{Id, Path};

/// A name, parameters, and what is raised.
#[derive(Drop)]
pub(crate) struct Signature<R: Rule> {
    pub(crate) name: Id,
    pub(crate) parameters: Vec<R>,
    pub(crate) raises: Vec<Path>,
}

impl<'t> Parser<'t> {
    /// ID "(" [ R { "," R } ] ")" [ raises ] ";"
    pub(crate) fn signature<R: Rule>(&mut self) -> Result<Signature<R>, Stop>
        ensures gives { Gives (signature_of R.plain) result self.new ((id & listed_by (is_mark (codes "[")) R.reads & may_raise) self.old) }
        ensures shorter { OnOk result (length self.new < length self.old) }
    {
        let name = self.id()?;
        let parameters = self.in_parentheses()?;
        let raises = self.may_raise()?;
        Ok(Signature {
            name,
            parameters,
            raises,
        })
    }
}
