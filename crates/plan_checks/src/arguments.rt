//! What is given for the parameters of a function.
ghost use Rattle.std.specs.Prelude.{◌≡◌, ℕ, List, map, option_map};
ghost use Rattle.plan_model.specs.Expressions as e;
ghost use Rattle.plan_model.specs.Typing as typing;
ghost use Rattle.plan_model.specs.Typing.{variable_in, gets, out_argument};
ghost use Rattle.plan_types.specs.Expressions.{argument_of};
ghost use Rattle.plan_lines.specs.Pieces.{piece_of};
ghost use Rattle.plan_lines.specs.Terms.{term_of};
ghost use Rattle.type_registry.specs.Functions.{lent_function, lent_param};
ghost use Rattle.uno_entities.specs.TypeNames.{kind_of};
ghost use Rattle.plan_checks.specs.Checks.{Gives, before};
ghost use Rattle.plan_checks.specs.Pieces.{variable_at};

use crate::checker::Checker;
use crate::kinds::{LentKind, same_kind};
use crate::line_error::LineError;
use crate::words::kind_of_variable;
use plan_lines::{Piece, Term};
use plan_types::{Argument, LineReason, Word};
use type_registry::{FunctionRef, ParamRef};
use uno_types::{Name, TypeName, Way};

impl Checker<'_> {
    /// An argument for each parameter: each term fits the one at its place, and there are as many.
    pub(crate) fn arguments_of(
        &self,
        called: &FunctionRef<'_>,
        terms: &[Term],
    ) -> Result<Vec<Argument>, LineError>
        ensures { Gives (λ args. map argument_of args.items) result (typing.arguments_of self.now.registry.now (before self.now) (lent_function called.now).params (map term_of terms.now)) }
    {
        let mut all = Vec::new(self.alloc);
        for term in terms {
            let Some(param) = called.param(all.len()) else {
                return Err(LineError::Wrong(LineReason::Misfit));
            };
            let argument = self.argument_of(param, term)?;
            all.push(argument)?;
        }
        let count = called.param_count();
        if all.len() < count {
            return Err(LineError::Wrong(LineReason::Misfit));
        }
        Ok(all)
    }

    /// What is given for a parameter, where it fits.
    #[tactic(auto, unfolding(plan_model::specs::Typing::argument_of))]
    fn argument_of(&self, param: ParamRef<'_>, term: &Term) -> Result<Argument, LineError>
        ensures { Gives argument_of result (typing.argument_of self.now.registry.now (before self.now) (lent_param param.entry) (term_of term.now)) }
    {
        match param.way {
            Way::Into => self.value_for(param.kind, term),
            Way::Out => self.out_for(param, term),
            Way::Both => self.both_for(param, term),
        }
    }

    fn value_for(&self, kind: &TypeName, term: &Term) -> Result<Argument, LineError>
        ensures { Gives argument_of result (option_map e.into (typing.expression_of self.now.registry.now (before self.now) (term_of term.now) (kind_of kind.now))) }
    {
        Ok(Argument::Into(self.expression_of(term, kind)?))
    }

    fn out_for(&self, param: ParamRef<'_>, term: &Term) -> Result<Argument, LineError>
        ensures { Gives argument_of result (out_argument self.now.registry.now (before self.now) (lent_param param.entry) e.out (variable_in (term_of term.now))) }
    {
        Ok(Argument::Out(self.variable_for(param, term)?))
    }

    fn both_for(&self, param: ParamRef<'_>, term: &Term) -> Result<Argument, LineError>
        ensures { Gives argument_of result (out_argument self.now.registry.now (before self.now) (lent_param param.entry) e.both (variable_in (term_of term.now))) }
    {
        Ok(Argument::Both(self.variable_for(param, term)?))
    }

    /// The variable that gets the value of a parameter which comes out.
    pub(crate) fn variable_for(&self, param: ParamRef<'_>, term: &Term) -> Result<Name, LineError>
        ensures { (mk : List ℕ → e.Argument) → Gives mk result (out_argument self.now.registry.now (before self.now) (lent_param param.entry) mk (variable_in (term_of term.now))) }
    {
        let Some(name) = variable_in(term) else {
            return Err(LineError::Wrong(LineReason::Misfit));
        };
        let Some(from) = kind_of_variable(self.context, name) else {
            return Err(LineError::Wrong(LineReason::Misfit));
        };
        if !self.gets(param.way, param.kind, from) {
            return Err(LineError::Wrong(LineReason::Misfit));
        }
        Ok(name.copy()?)
    }

    /// Whether a value of the parameter fits the variable; that of one which goes both ways is of the parameter's very type.
    fn gets(&self, way: Way, param: &TypeName, from: &TypeName) -> bool
        ensures { result ≡ gets self.now.registry.now way (kind_of param.now) (kind_of from.now) }
    {
        match way {
            Way::Both => same_kind(param, from),
            Way::Into | Way::Out => self.kind_fits(from, LentKind::Whole(param)),
        }
    }
}

fn variable_in(term: &Term) -> Option<&Name>
    ensures { option_map (λ name. name.now) result ≡ variable_in (term_of term.now) }
{
    let pieces = term.pieces.as_slice();
    match pieces.split_last() {
        Some((last, _)) => variable_at(last),
        None => None,
    }
}

fn variable_at(piece: &Piece) -> Option<&Name>
    ensures { option_map (λ name. name.now) result ≡ variable_at (piece_of piece.now) }
{
    match piece {
        Piece::Word(Word::Variable(name)) => Some(name),
        _ => None,
    }
}
