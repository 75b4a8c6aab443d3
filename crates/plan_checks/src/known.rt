//! Whether each name that a line uses is known.
ghost use Rattle.std.specs.Prelude.{◌≡◌, ◌&&◌, map, option_map, is_some};
ghost use Rattle.std.specs.List.{list_all};
ghost use Rattle.plan_model.specs.Contexts.{declared_function, kind_of_field};
ghost use Rattle.plan_model.specs.KnownNames.{names_are_known, is_term_known, is_type_known, is_word_known, is_variable_known, is_behaviour_known, is_result_known, is_back_known, is_called_known, is_new_service, is_new_singleton};
ghost use Rattle.plan_model.specs.TypedStatements.{face_of_word};
ghost use Rattle.plan_model.specs.declared.line_reason.LineReason.TheVariants.{Unknown};
ghost use Rattle.uno_model.specs.BuiltIn.{HasBuiltIn};
ghost use Rattle.uno_model.specs.Sound.{is_there, is_interface};
ghost use Rattle.plan_types.specs.Expressions.{word_of};
ghost use Rattle.plan_lines.specs.Lines.{declared_of, line_of};
ghost use Rattle.plan_lines.specs.Terms.{term_of, terms_of};
ghost use Rattle.uno_entities.specs.Entities.{body_of};
ghost use Rattle.plan_checks.specs.Checks.{Passes, before};
ghost use Rattle.plan_checks.specs.Contexts.{context_of};

mod terms;

use crate::behaviours::is_behaviour_known;
use crate::checker::Checker;
use crate::context::Context;
use crate::functions::declared_function;
use crate::line_error::LineError;
use crate::statements::face_of_word;
use crate::words::{kind_of_field, kind_of_variable, kind_of_word};
use entity_rules::{Wanted, is_there};
use plan_lines::{Declared, Line, Term};
use plan_types::{LineReason, Word};
use uno_types::{Body, Name, Registry, Service, Singleton};

impl Checker<'_> {
    /// Refuses a name that is not known where the line stands.
    #[tactic(auto, unfolding(plan_model::specs::KnownNames::names_are_known))]
    pub fn knows_names(&self, line: &Line) -> Result<(), LineError>
        ensures { Passes Unknown result (names_are_known self.now.registry.now (before self.now) (line_of line.now)) }
    {
        match line {
            Line::Behaviour { name: _, faces } => known(are_interfaces(self.registry, faces)),
            Line::Field(declared) => self.knows_type(&declared.kind),
            Line::Method { face, function } => known(is_declared_known(
                self.registry,
                face,
                function,
            )),
            Line::Service { name, behaviour } => known(self.is_service_known(name, behaviour)),
            Line::Singleton { name, behaviour } => known(self.is_singleton_known(name, behaviour)),
            Line::Export { name: _, behaviour } => {
                known(is_behaviour_known(self.context, behaviour.as_str()))
            }
            Line::Thread | Line::End | Line::Dispose => Ok(()),
            Line::Let(declared, term) => self.knows_typed(&declared.kind, term),
            Line::SetVariable(name, term) => {
                self.knows_set(is_variable_known(self.context, name), term)
            }
            Line::SetField(name, term) => self.knows_set(is_field_known(self.context, name), term),
            Line::Call {
                to,
                target,
                function,
                arguments,
            } => self.knows_call(to, target, function, arguments),
            Line::Query(declared, target) => {
                self.knows_declared(declared, is_word_known(self.context, target))
            }
            Line::Make(declared, name) => self.knows_declared(
                declared,
                is_behaviour_known(self.context, name.as_str()),
            ),
            Line::Drop(name) => known(is_variable_known(self.context, name)),
            Line::When {
                left,
                comparison: _,
                right,
                back,
            } => self.knows_when(left, right, back),
            Line::Return(back) => self.knows_back(back),
            Line::Raise(kind, term) => self.knows_typed(kind, term),
            Line::Ask(declared, _) => self.knows_type(&declared.kind),
            Line::AskInstance(declared) => self.knows_type(&declared.kind),
            Line::Same(one, other) => known(are_variables_known(self.context, one, other)),
        }
    }

    fn is_service_known(&self, name: &Name, behaviour: &Name) -> bool
        ensures { result ≡ (is_there self.now.registry.now is_new_service name.now && is_behaviour_known (before self.now) behaviour.now) }
    {
        is_service_there(self.registry, name)
            && is_behaviour_known(self.context, behaviour.as_str())
    }

    fn is_singleton_known(&self, name: &Name, behaviour: &Name) -> bool
        ensures { result ≡ (is_there self.now.registry.now is_new_singleton name.now && is_behaviour_known (before self.now) behaviour.now) }
    {
        is_singleton_there(self.registry, name)
            && is_behaviour_known(self.context, behaviour.as_str())
    }

    /// Refuses what is set, where that is not there, and names in the term.
    fn knows_set(&self, is_there: bool, term: &Term) -> Result<(), LineError>
        ensures { Passes Unknown result (is_there && is_term_known self.now.registry.now (before self.now) (term_of term.now)) }
    {
        known(is_there)?;
        self.knows_term(term)
    }

    /// Refuses the type of what is declared, and what it comes from.
    fn knows_declared(&self, declared: &Declared, is_source_known: bool) -> Result<(), LineError>
        ensures { Passes Unknown result (is_type_known self.now.registry.now declared.now.kind && is_source_known) }
    {
        self.knows_type(&declared.kind)?;
        known(is_source_known)
    }

    fn knows_call(
        &self,
        to: &Option<Declared>,
        target: &Word,
        function: &Name,
        arguments: &[Term],
    ) -> Result<(), LineError>
        ensures { Passes Unknown result ((is_result_known self.now.registry.now (option_map declared_of to.now) && is_word_known (before self.now) (word_of target.now))
            && (is_called_known self.now.registry.now (face_of_word (before self.now) (word_of target.now)) function.now && list_all (is_term_known self.now.registry.now (before self.now)) (map term_of arguments.now))) }
    {
        self.knows_result(to)?;
        known(is_word_known(self.context, target))?;
        self.knows_called(target, function)?;
        self.knows_terms(arguments)
    }

    fn knows_result(&self, to: &Option<Declared>) -> Result<(), LineError>
        ensures { Passes Unknown result (is_result_known self.now.registry.now (option_map declared_of to.now)) }
    {
        match to {
            Some(declared) => self.knows_type(&declared.kind),
            None => Ok(()),
        }
    }

    /// Refuses a function that the target's interface has not; what is no interface has none that could be unknown.
    fn knows_called(&self, target: &Word, function: &Name) -> Result<(), LineError>
        ensures { Passes Unknown result (is_called_known self.now.registry.now (face_of_word (before self.now) (word_of target.now)) function.now) }
    {
        let Some(face) = face_of_word(self.context, target) else {
            return Ok(());
        };
        match self.called_function(face.as_str(), function.as_str())? {
            Some(_) => Ok(()),
            None => Err(LineError::Wrong(LineReason::Unknown)),
        }
    }

    fn knows_when(&self, left: &Word, right: &Term, back: &Option<Term>) -> Result<(), LineError>
        ensures { Passes Unknown result (is_word_known (before self.now) (word_of left.now) && (is_term_known self.now.registry.now (before self.now) (term_of right.now) && is_back_known self.now.registry.now (before self.now) (option_map term_of back.now))) }
    {
        known(is_word_known(self.context, left))?;
        self.knows_term(right)?;
        self.knows_back(back)
    }

    fn knows_back(&self, back: &Option<Term>) -> Result<(), LineError>
        ensures { Passes Unknown result (is_back_known self.now.registry.now (before self.now) (option_map term_of back.now)) }
    {
        match back {
            Some(term) => self.knows_term(term),
            None => Ok(()),
        }
    }
}

/// Refuses what is not known.
pub(crate) fn known(is: bool) -> Result<(), LineError>
    ensures { Passes Unknown result is }
{
    if is {
        return Ok(());
    }
    Err(LineError::Wrong(LineReason::Unknown))
}

fn are_interfaces(registry: &Registry, names: &[Name]) -> bool
    ensures { result ≡ list_all (is_there registry.now is_interface) names.now }
{
    for name in names {
        if !is_interface_there(registry, name.as_str()) {
            return false;
        }
    }
    true
}

pub(crate) fn is_interface_there(registry: &Registry, name: &str) -> bool
    ensures is { result ≡ is_there registry.now is_interface name.now }
    ensures built_in { HasBuiltIn registry.now }
{
    is_there(registry.entities(), Wanted::Interface, name)
}

fn is_service_there(registry: &Registry, name: &Name) -> bool
    ensures { result ≡ is_there registry.now is_new_service name.now }
{
    match registry.find(name.as_str()) {
        Some(entity) => matches!(&entity.body, Body::Service(Service::New { .. })),
        None => false,
    }
}

fn is_singleton_there(registry: &Registry, name: &Name) -> bool
    ensures { result ≡ is_there registry.now is_new_singleton name.now }
{
    match registry.find(name.as_str()) {
        Some(entity) => matches!(&entity.body, Body::Singleton(Singleton::New { .. })),
        None => false,
    }
}

fn is_declared_known(registry: &Registry, face: &Name, function: &Name) -> bool
    ensures { result ≡ is_some (declared_function registry.now face.now function.now) }
{
    declared_function(registry, face.as_str(), function.as_str()).is_some()
}

pub(crate) fn is_word_known(context: &Context, word: &Word) -> bool
    ensures { result ≡ is_word_known (context_of context.now) (word_of word.now) }
{
    kind_of_word(context, word).is_some()
}

fn is_variable_known(context: &Context, name: &Name) -> bool
    ensures { result ≡ is_variable_known (context_of context.now) name.now }
{
    kind_of_variable(context, name).is_some()
}

fn are_variables_known(context: &Context, one: &Name, other: &Name) -> bool
    ensures { result ≡ (is_variable_known (context_of context.now) one.now && is_variable_known (context_of context.now) other.now) }
{
    is_variable_known(context, one) && is_variable_known(context, other)
}

fn is_field_known(context: &Context, name: &Name) -> bool
    ensures { result ≡ is_some (kind_of_field (context_of context.now) name.now) }
{
    kind_of_field(context, name.as_str()).is_some()
}
