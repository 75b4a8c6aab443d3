//! Services, singletons and exports.
ghost use Rattle.std.specs.Prelude.{◌≡◌, IfOk, OnOk};
ghost use Rattle.plan_model.specs.Building.{with_service, with_singleton, with_export};
ghost use Rattle.plan_model.specs.Contexts.{behaviour_number};
ghost use Rattle.plan_types.specs.Plans.{offer_of, export_of};
ghost use Rattle.plan_checks.specs.Contexts.{context_of};

use plan_checks::{Context, behaviour_number, number_of};
use plan_types::{Export, Offer};
use uno_base::NoMemory;
use uno_types::{Name, Text};

/// A service more, whose objects are of the behaviour.
pub(crate) fn add_service(
    context: &mut Context,
    name: &Name,
    behaviour: &Name,
) -> Result<(), NoMemory>
    ensures { OnOk result (context_of context.new ≡ record (context_of context.old) { plan = with_service (behaviour_number (context_of context.old) behaviour.now) name.now (context_of context.old).plan }) }
{
    let Some(place) = behaviour_number(context, behaviour.as_str()) else {
        return Ok(());
    };
    let offer = offer_of(name, place)?;
    context.plan.services.push(offer)?;
    Ok(())
}

/// A singleton more, whose object is of the behaviour.
pub(crate) fn add_singleton(
    context: &mut Context,
    name: &Name,
    behaviour: &Name,
) -> Result<(), NoMemory>
    ensures { OnOk result (context_of context.new ≡ record (context_of context.old) { plan = with_singleton (behaviour_number (context_of context.old) behaviour.now) name.now (context_of context.old).plan }) }
{
    let Some(place) = behaviour_number(context, behaviour.as_str()) else {
        return Ok(());
    };
    let offer = offer_of(name, place)?;
    context.plan.singletons.push(offer)?;
    Ok(())
}

/// An export more, whose object is of the behaviour.
pub(crate) fn add_export(
    context: &mut Context,
    name: &Text,
    behaviour: &Name,
) -> Result<(), NoMemory>
    ensures { OnOk result (context_of context.new ≡ record (context_of context.old) { plan = with_export (behaviour_number (context_of context.old) behaviour.now) name.now (context_of context.old).plan }) }
{
    let Some(place) = behaviour_number(context, behaviour.as_str()) else {
        return Ok(());
    };
    let export = export_of(name, place)?;
    context.plan.exports.push(export)?;
    Ok(())
}

fn offer_of(name: &Name, place: usize) -> Result<Offer, NoMemory>
    ensures { IfOk result (λ offer. offer_of offer ≡ record { name = name.now; behaviour = place }) }
{
    let behaviour = number_of(place)?;
    let name = name.copy()?;
    Ok(Offer { name, behaviour })
}

fn export_of(name: &Text, place: usize) -> Result<Export, NoMemory>
    ensures { IfOk result (λ export. export_of export ≡ record { name = name.now; behaviour = place }) }
{
    let behaviour = number_of(place)?;
    let name = name.copy()?;
    Ok(Export { name, behaviour })
}
