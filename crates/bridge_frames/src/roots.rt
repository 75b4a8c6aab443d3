//! Roots that are answered.
ghost use Rattle.std.specs.Prelude.{◌≡◌, ℕ, true, List, [], IfSome, IfNone};
ghost use Rattle.bridge_model.specs.Handing.{root_gets};
ghost use Rattle.bridge_model.specs.Sides as plain;
ghost use Rattle.bridge_model.specs.Sides.{state_of, with_root};
ghost use Rattle.bridge_setting.specs.Settings.{setting_of};
ghost use Rattle.bridge_tables.specs.EndTables.{IsOf, on_tables};
ghost use Rattle.bridge_tables.specs.Roots.{outcome_of, root_of};
ghost use Rattle.message_model.specs.Messages.{returned};
ghost use Rattle.uno_model.specs.Sound.{IsSound};
ghost use Rattle.uno_model.specs.Values as v;
ghost use Rattle.uno_values.specs.References.{ref_of};
ghost use Rattle.urp_message.specs.Messages.{answer_of};

use bridge_setting::Setting;
use bridge_tables::{Outcome, Root, Tables};
use frame_variables::{Found, sort_answer};
use table_model::Holder;
use uno_types::Name;
use uno_values::{Reference, Value};
use urp_message::Answer;

/// A root that was answered, and what it did before.
#[derive(Drop)]
pub struct AnsweredRoot {
    pub root: u32,
    pub before: Root,
}

/// A root is answered, and what it did before is given back. Of the answer to a query it gets the reference, where its type is assignable to the
/// wanted one, and lets the rest go.
pub fn root_gets(setting: &Setting, root: u32, answer: Answer, tables: &mut Tables) -> Root
    requires of { IsOf (setting_of setting.now) tables.old }
    requires stands { tables.old.stands ≡ true }
    requires sound { IsSound setting.now.registry }
    ensures was { root_of result ≡ state_of root tables.old.tables.roots }
    ensures gets { tables.new ≡ on_tables (λ t. root_gets (setting_of setting.now) root (state_of root t.roots) (answer_of answer) t) tables.old }
{
    let before = tables.set_root(root, Root::Idle);
    match wanted_by(&before) {
        Some(wanted) => {
            query_gets(setting, root, wanted, answer, tables);
            before
        }
        None => {
            answer_root(root, outcome_of(answer), tables);
            before
        }
    }
}

/// The interface for which a root waits.
fn wanted_by(state: &Root) -> Option<&Name>
    ensures waits { IfSome result (λ wanted. root_of state.now ≡ plain.waits_query wanted.now) }
    ensures other { IfNone result ((wanted : List ℕ) → ¬ (root_of state.now ≡ plain.waits_query wanted)) }
{
    match state {
        Root::Queries(wanted) => Some(wanted),
        Root::Idle | Root::Calls | Root::Answered(_) => None,
    }
}

/// A root has an outcome.
fn answer_root(root: u32, outcome: Outcome, tables: &mut Tables)
    ensures { tables.new ≡ on_tables (with_root root (plain.answered (outcome_of outcome))) tables.old }
{
    drop(tables.set_root(root, Root::Answered(outcome)));
}

/// A root that waits for a query.
fn query_gets(setting: &Setting, root: u32, wanted: &Name, answer: Answer, tables: &mut Tables)
    requires of { IsOf (setting_of setting.now) tables.old }
    requires stands { tables.old.stands ≡ true }
    requires sound { IsSound setting.now.registry }
    ensures { tables.new ≡ on_tables (root_gets (setting_of setting.now) root (plain.waits_query wanted.now) (answer_of answer)) tables.old }
{
    match answer {
        Answer::Returned { value, outs } => {
            drop(outs);
            let Found { reference, rest } = sort_answer(&setting.registry, wanted, value);
            let outcome = outcome_of_query(setting, reference);
            answer_root(root, outcome, tables);
            match rest {
                Some(rest) => {
                    tables.let_value_go(setting, Holder::Root(root), &rest);
                    drop(rest);
                }
                None => {}
            }
        }
        Answer::Raised(exception) => answer_root(root, Outcome::Raised(exception), tables),
    }
}

/// A reference as the outcome of a query.
fn outcome_of_query(setting: &Setting, reference: Reference) -> Outcome
    ensures { outcome_of result ≡ plain.answer (returned (v.ref (ref_of reference)) []) }
{
    Outcome::Returned {
        value: Value::Ref(reference),
        outs: Vec::new(setting.registry.allocator()),
    }
}

/// An answer as the outcome of a call.
fn outcome_of(answer: Answer) -> Outcome
    ensures { outcome_of result ≡ plain.answer (answer_of answer) }
{
    match answer {
        Answer::Returned { value, outs } => Outcome::Returned { value, outs },
        Answer::Raised(exception) => Outcome::Raised(exception),
    }
}
