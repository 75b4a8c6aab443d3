//! The tree of a file's tokens.
#![tactic(auto)]

ghost use Rattle.std.specs.Prelude.{◌≡◌};
ghost use Rattle.idl_model.specs.ParseVerdicts.{IsParsed, parsed};
ghost use Rattle.idl_parse.specs.Parsing.{Judges};
ghost use Rattle.idl_trees.specs.Tokens.{tokens_of, EndInFile};

mod constants;
mod declarations;
mod error;
mod expressions;
mod flags;
mod interfaces;
mod members;
mod modules;
mod names;
mod operators;
mod parser;
mod refusal;
mod rule;
mod services;
mod signature;
mod stop;
mod types;

pub use error::ParseError;
pub use idl_trees::{Place, Token, Tree};
use parser::Parser;
use refusal::refusal;
use std::alloc::Global;
use stop::Stop;

/// The tree of all tokens of a file, or where they go wrong.
pub fn parse(alloc: Global, tokens: &[Token]) -> Result<Tree, ParseError>
    requires { EndInFile (tokens_of tokens.now) }
    ensures parsed { Judges result (IsParsed (tokens_of tokens.now)) }
    ensures read { Judges result (λ verdict. parsed (tokens_of tokens.now) ≡ verdict) }
{
    let mut parser = Parser::new(alloc, tokens);
    match parser.tree() {
        Ok(tree) => Ok(tree),
        Err(Stop::NoMemory) => Err(ParseError::NoMemory),
        Err(Stop::At(fault)) => Err(refusal(tokens, fault)),
    }
}
