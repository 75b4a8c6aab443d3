//! Calls, queries and new objects.
ghost use Rattle.std.specs.Prelude.{◌≡◌, Some, map, option_map, IfOk};
ghost use Rattle.plan_model.specs.Contexts.{kind_fits};
ghost use Rattle.plan_model.specs.Evaluation.{both_values};
ghost use Rattle.plan_model.specs.TypedStatements as typed;
ghost use Rattle.plan_model.specs.TypedStatements.{face_of_word, supports_named};
ghost use Rattle.plan_model.specs.Plans.{supports};
ghost use Rattle.plan_model.specs.Typing as typing;
ghost use Rattle.plan_types.specs.Expressions.{word_of};
ghost use Rattle.plan_types.specs.Statements.{call_of, callee_of, making_of, query_of};
ghost use Rattle.plan_lines.specs.Lines.{declared_of};
ghost use Rattle.plan_lines.specs.Terms.{term_of};
ghost use Rattle.type_registry.specs.Functions.{lent_function};
ghost use Rattle.uno_entities.specs.Entities.{field_of};
ghost use Rattle.uno_entities.specs.TypeNames.{kind_of};
ghost use Rattle.plan_checks.specs.Checks.{Gives, before};
ghost use Rattle.plan_checks.specs.Contexts.{context_of};
ghost use Rattle.plan_checks.specs.LentBehaviours.{lent_behaviour};

use crate::behaviours::{BehaviourRef, behaviour_named, behaviour_number, number_of};
use crate::checker::Checker;
use crate::context::Context;
use crate::kinds::LentKind;
use crate::line_error::LineError;
use crate::words::{copy_word, kind_of_word};
use plan_lines::{Declared, Term};
use plan_types::{Call, Callee, LineReason, Making, Query, Word};
use type_registry::FunctionRef;
use uno_base::NoMemory;
use uno_types::{Field, Name, TypeName};

/// The name of the interface of what a word stands for.
pub(crate) fn face_of_word<'a>(context: &'a Context, word: &Word) -> Option<&'a Name>
    ensures { option_map (λ name. name.now) result ≡ face_of_word (context_of context.now) (word_of word.now) }
{
    kind_of_word(context, word)?.face()
}

impl Checker<'_> {
    /// A call of a function of the target's interface.
    #[tactic(auto, unfolding(plan_model::specs::TypedStatements::call_of))]
    pub(crate) fn call_of(
        &self,
        to: &Option<Declared>,
        target: &Word,
        function: &Name,
        terms: &[Term],
    ) -> Result<Call, LineError>
        ensures { Gives call_of result (typed.call_of self.now.registry.now (before self.now) (option_map declared_of to.now) (word_of target.now) function.now (map term_of terms.now)) }
    {
        let Some(face) = face_of_word(self.context, target) else {
            return Err(LineError::Wrong(LineReason::Misfit));
        };
        let found = self.called_function(face.as_str(), function.as_str())?;
        let Some(called) = found else {
            return Err(LineError::Wrong(LineReason::Misfit));
        };
        self.call_with(to, target, function, &called, terms)
    }

    fn call_with(
        &self,
        to: &Option<Declared>,
        target: &Word,
        function: &Name,
        called: &FunctionRef<'_>,
        terms: &[Term],
    ) -> Result<Call, LineError>
        requires { function.now ≡ (lent_function called.now).name }
        ensures { Gives call_of result (both_values (typing.arguments_of self.now.registry.now (before self.now) (lent_function called.now).params (map term_of terms.now)) (typed.result_field self.now.registry.now (lent_function called.now) (option_map declared_of to.now)) (typed.call_with (word_of target.now) (lent_function called.now))) }
    {
        let target = copy_word(target)?;
        let callee = callee_of(called.owner(), function)?;
        let to = self.result_field(called, to)?;
        let arguments = self.arguments_of(called, terms)?;
        Ok(Call {
            target,
            callee,
            arguments,
            to,
        })
    }

    /// The variable of a result, which the result's type has to fit.
    pub(crate) fn result_field(
        &self,
        called: &FunctionRef<'_>,
        to: &Option<Declared>,
    ) -> Result<Option<Field>, LineError>
        ensures { Gives (λ to. option_map field_of to) result (typed.result_field self.now.registry.now (lent_function called.now) (option_map declared_of to.now)) }
    {
        let Some(declared) = to else {
            return Ok(None);
        };
        let field = self.declared_field(declared)?;
        if !self.result_fits(&field.kind, called) {
            return Err(LineError::Wrong(LineReason::Misfit));
        }
        Ok(Some(field))
    }

    fn result_fits(&self, wanted: &TypeName, called: &FunctionRef<'_>) -> bool
        ensures { result ≡ kind_fits self.now.registry.now (kind_of wanted.now) (lent_function called.now).result_kind }
    {
        match called.result() {
            Some(kind) => self.kind_fits(wanted, LentKind::Whole(kind)),
            None => self.kind_fits(wanted, LentKind::Whole(&TypeName::Void)),
        }
    }

    /// A query of the target for an interface.
    #[tactic(auto, unfolding(plan_model::specs::TypedStatements::query_of))]
    pub(crate) fn query_of(&self, declared: &Declared, target: &Word) -> Result<Query, LineError>
        ensures { Gives query_of result (typed.query_of self.now.registry.now (before self.now) (declared_of declared.now) (word_of target.now)) }
    {
        let Some(_) = face_of_word(self.context, target) else {
            return Err(LineError::Wrong(LineReason::Misfit));
        };
        let wanted = self.face_named(&declared.kind)?;
        let to = declared.name.copy()?;
        let target = copy_word(target)?;
        Ok(Query { target, wanted, to })
    }

    /// A new object of a behaviour that supports the interface.
    #[tactic(auto, unfolding(plan_model::specs::TypedStatements::making_of))]
    pub(crate) fn making_of(&self, declared: &Declared, name: &Name) -> Result<Making, LineError>
        ensures { Gives making_of result (typed.making_of self.now.registry.now (before self.now) (declared_of declared.now) name.now) }
    {
        let Some(place) = behaviour_number(self.context, name.as_str()) else {
            return Err(LineError::Wrong(LineReason::Misfit));
        };
        let behaviour = number_of(place)?;
        let face = self.face_named(&declared.kind)?;
        if !self.supports_named(behaviour_named(self.context, name.as_str()), face.as_str()) {
            return Err(LineError::Wrong(LineReason::Misfit));
        }
        let to = declared.name.copy()?;
        Ok(Making {
            behaviour,
            face,
            to,
        })
    }

    /// Whether the behaviour is there, and supports the interface.
    pub(crate) fn supports_named(&self, behaviour: Option<BehaviourRef<'_>>, wanted: &str) -> bool
        ensures { result ≡ supports_named self.now.registry.now (option_map lent_behaviour behaviour.entry) wanted.now }
    {
        match behaviour {
            Some(behaviour) => self.supports(behaviour.faces, wanted),
            None => false,
        }
    }

    /// Whether one of the faces is the interface, or stands on it.
    #[tactic(auto, unfolding(plan_model::specs::Plans::supports))]
    pub(crate) fn supports(&self, faces: &[Name], wanted: &str) -> bool
        ensures { result ≡ supports self.now.registry.now faces.now wanted.now }
    {
        for face in faces {
            if self.is_base_of(wanted, face.as_str()) {
                return true;
            }
        }
        false
    }
}

fn callee_of(owner: &Name, name: &Name) -> Result<Callee, NoMemory>
    ensures { IfOk result (λ callee. callee_of callee ≡ record { owner = owner.now; name = name.now }) }
{
    let owner = owner.copy()?;
    let name = name.copy()?;
    Ok(Callee { owner, name })
}
