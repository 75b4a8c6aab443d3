//! Whether each name that a line declares is new.
ghost use Rattle.std.specs.Prelude.{◌≡◌, ◌&&◌, ◌||◌, map, not, option_map, IfOk};
ghost use Rattle.std.specs.List.{list_any};
ghost use Rattle.std.specs.Str.{bytes_eq};
ghost use Rattle.plan_model.specs.NewNames.{names_are_new, has_export, has_offer, is_variable, is_behaviour, is_field, is_written, is_result_new};
ghost use Rattle.plan_model.specs.Plans.{manager_name, has_offers};
ghost use Rattle.uno_model.specs.Sound.{all_differ, is_some_list};
ghost use Rattle.plan_types.specs.Plans.{export_of, method_of, offer_of, plan_of};
ghost use Rattle.plan_lines.specs.Lines.{declared_of, line_of};
ghost use Rattle.plan_checks.specs.Contexts.{block_of, context_of};

use plan_checks::{Context, is_behaviour_known, open_behaviour};
use plan_lines::{Declared, Line};
use plan_types::{Export, Method, Offer, Plan};
use std::alloc::Global;
use std::collections::BTreeSet;
use uno_base::NoMemory;
use uno_types::Name;

/// The name of the service manager, which a plan with a service or a singleton exports.
const MANAGER: &str = "ServiceManager";

/// Whether each name that the line declares is new where it stands.
#[tactic(auto, unfolding(plan_model::specs::NewNames::names_are_new))]
pub(crate) fn names_are_new(alloc: Global, context: &Context, line: &Line) -> Result<bool, NoMemory>
    ensures { IfOk result (λ is. is ≡ names_are_new (context_of context.now) (line_of line.now)) }
{
    match line {
        Line::Behaviour { name, faces } => is_behaviour_new(alloc, context, name, faces),
        Line::Field(declared) => Ok(!is_field(context, &declared.name)),
        Line::Method { face, function } => Ok(!is_written(context, face, function)),
        Line::Service { name, behaviour: _ } => {
            Ok(!is_offered(&context.plan, &context.plan.services, name))
        }
        Line::Singleton { name, behaviour: _ } => {
            Ok(!is_offered(&context.plan, &context.plan.singletons, name))
        }
        Line::Export { name, behaviour: _ } => Ok(!is_exported(&context.plan, name.as_str())),
        Line::Let(declared, _)
        | Line::Query(declared, _)
        | Line::Make(declared, _)
        | Line::Ask(declared, _)
        | Line::AskInstance(declared) => Ok(!is_variable(context, &declared.name)),
        Line::Call { to, .. } => Ok(is_result_new(context, to)),
        Line::Thread
        | Line::End
        | Line::SetVariable(_, _)
        | Line::SetField(_, _)
        | Line::Drop(_)
        | Line::When { .. }
        | Line::Return(_)
        | Line::Raise(_, _)
        | Line::Dispose
        | Line::Same(_, _) => Ok(true),
    }
}

fn is_behaviour_new(
    alloc: Global,
    context: &Context,
    name: &Name,
    faces: &[Name],
) -> Result<bool, NoMemory>
    ensures { IfOk result (λ is. is ≡ (not (is_behaviour (context_of context.now) name.now) && all_differ faces.now)) }
{
    if is_behaviour(context, name) {
        return Ok(false);
    }
    all_differ(alloc, faces)
}

fn is_behaviour(context: &Context, name: &Name) -> bool
    ensures { result ≡ is_behaviour (context_of context.now) name.now }
{
    is_behaviour_known(context, name.as_str())
}

/// From the last name to the first, so that each is looked up among those behind it.
fn all_differ(alloc: Global, names: &[Name]) -> Result<bool, NoMemory>
    ensures { IfOk result (λ is. is ≡ all_differ names.now) }
{
    let mut behind = BTreeSet::new(alloc);
    let mut left = names.len();
    while left > 0 {
        left -= 1;
        let is_new = behind.insert(names[left].as_str())?;
        if !is_new {
            return Ok(false);
        }
    }
    Ok(true)
}

/// Whether a variable of that name is there.
fn is_variable(context: &Context, name: &Name) -> bool
    ensures { result ≡ is_variable (context_of context.now) name.now }
{
    context.variables.has(name)
}

fn is_field(context: &Context, name: &Name) -> bool
    ensures { result ≡ is_field (context_of context.now) name.now }
{
    match open_behaviour(&context.block) {
        Some(behaviour) => behaviour.fields.has(name.as_str()),
        None => false,
    }
}

/// Whether the open behaviour has a method for the function.
fn is_written(context: &Context, face: &Name, function: &Name) -> bool
    ensures { result ≡ is_written (context_of context.now) face.now function.now }
{
    match open_behaviour(&context.block) {
        Some(behaviour) => has_method(&behaviour.methods, face, function),
        None => false,
    }
}

fn has_method(methods: &[Method], face: &Name, function: &Name) -> bool
    ensures { result ≡ list_any (λ m. bytes_eq face.now m.face && bytes_eq function.now m.function) (map method_of methods.now) }
{
    for method in methods {
        if is_method(method, face, function) {
            return true;
        }
    }
    false
}

fn is_method(method: &Method, face: &Name, function: &Name) -> bool
    ensures { result ≡ (bytes_eq face.now method.now.face && bytes_eq function.now method.now.function) }
{
    face.as_str() == method.face.as_str() && function.as_str() == method.function.as_str()
}

/// Whether an offer of that name is there, or an export of the manager's name.
fn is_offered(plan: &Plan, offers: &[Offer], name: &Name) -> bool
    ensures { result ≡ (has_offer (map offer_of offers.now) name.now || has_export (plan_of plan.now) manager_name) }
{
    has_offer(offers, name) || has_export(&plan.exports, MANAGER)
}

fn has_offer(offers: &[Offer], name: &Name) -> bool
    ensures { result ≡ has_offer (map offer_of offers.now) name.now }
{
    for offer in offers {
        if name.as_str() == offer.name.as_str() {
            return true;
        }
    }
    false
}

fn has_export(exports: &[Export], name: &str) -> bool
    ensures { result ≡ list_any (λ e. bytes_eq name.now e.name) (map export_of exports.now) }
{
    for export in exports {
        if name == export.name.as_str() {
            return true;
        }
    }
    false
}

/// Whether an export of that name is there, or the name is the manager's and there is one.
fn is_exported(plan: &Plan, name: &str) -> bool
    ensures { result ≡ (has_export (plan_of plan.now) name.now || (bytes_eq name.now manager_name && has_offers (plan_of plan.now))) }
{
    if has_export(&plan.exports, name) {
        return true;
    }
    name == MANAGER && has_offers(plan)
}

fn has_offers(plan: &Plan) -> bool
    ensures { result ≡ has_offers (plan_of plan.now) }
{
    !plan.services.is_empty() || !plan.singletons.is_empty()
}

fn is_result_new(context: &Context, to: &Option<Declared>) -> bool
    ensures { result ≡ is_result_new (context_of context.now) (option_map declared_of to.now) }
{
    match to {
        Some(declared) => !is_variable(context, &declared.name),
        None => true,
    }
}
