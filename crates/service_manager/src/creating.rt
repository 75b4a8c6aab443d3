//! Creating: the object or the singleton that a name stands for.
ghost use Rattle.std.specs.Prelude.{◌≡◌, IfOk, IsSome, map, slice_get};
ghost use Rattle.uno_model.specs.Registry.{find_entity};
ghost use Rattle.uno_model.specs.Sound.{IsSound};
ghost use Rattle.plan_model.specs.Services.{created, of_service, among_singletons, constructors_of, fields_of_behaviour};
ghost use Rattle.plan_types.specs.Plans.{plan_of, offer_of};
ghost use Rattle.uno_entities.specs.Entities.{field_of, constructor_of};
ghost use Rattle.uno_values.specs.Values.{plain_of};
ghost use Rattle.service_manager.specs.Answers.{IsAnswer, IsFresh};
ghost use Rattle.service_manager.specs.Arguments.{given};
ghost use Rattle.service_manager.specs.Created.{created_of};

use crate::arguments::{first_taking, given};
use crate::fields::fields_with;
use crate::offers::{offer_named, place_of};
use crate::{CreateError, Created};
use plan_types::{Offer, Plan};
use std::alloc::Global;
use uno_base::NoMemory;
use uno_types::{Body, Constructor, Field, Registry, Service};
use uno_values::Value;

/// What the name of a service or a singleton creates from arguments.
#[tactic(auto, unfolding(plan_model::specs::Services::created))]
pub fn create(
    alloc: Global,
    plan: &Plan,
    registry: &Registry,
    name: &str,
    args: &[Value],
) -> Result<Created, CreateError>
    requires { IsSound registry.now }
    ensures { IsAnswer result (created (plan_of plan.now) registry.now name.now (map plain_of args.now)) }
{
    match offer_named(&plan.services, name) {
        Some(offer) => of_service(alloc, plan, registry, offer, args),
        None => of_singleton(&plan.singletons, name, args),
    }
}

/// What a service creates.
fn of_service(
    alloc: Global,
    plan: &Plan,
    registry: &Registry,
    offer: &Offer,
    args: &[Value],
) -> Result<Created, CreateError>
    requires { IsSound registry.now }
    ensures { IsAnswer result (of_service registry.now (plan_of plan.now) (offer_of offer.now) (map plain_of args.now)) }
{
    let constructors = constructors_of(registry, offer.name.as_str());
    let Some(constructor) = first_taking(registry, constructors, args) else {
        return Err(CreateError::BadArguments)
    };
    Ok(fresh(alloc, plan, registry, offer, constructor, args)?)
}

/// A new object, with its fields.
fn fresh(
    alloc: Global,
    plan: &Plan,
    registry: &Registry,
    offer: &Offer,
    constructor: &Constructor,
    args: &[Value],
) -> Result<Created, NoMemory>
    requires sound { IsSound registry.now }
    requires takes { IsSome (given registry.now (constructor_of constructor.now) (map plain_of args.now)) }
    ensures { IfOk result (λ c. IsFresh registry.now (plan_of plan.now) (offer_of offer.now) (given registry.now (constructor_of constructor.now) (map plain_of args.now)) (created_of c)) }
{
    let variables = given(alloc, constructor, args)?;
    let fields = fields_with(
        alloc,
        registry,
        &variables,
        fields_of(plan, offer.behaviour),
    )?;
    Ok(Created::Fresh {
        behaviour: offer.behaviour,
        fields,
    })
}

/// The constructors of a service of the new form; another entity has none.
fn constructors_of<'a>(registry: &'a Registry, name: &str) -> &'a [Constructor]
    ensures { map constructor_of result.now ≡ constructors_of (find_entity name.now registry.now) }
{
    let Some(entity) = registry.find(name) else {
        return &[]
    };
    let Body::Service(Service::New { constructors, .. }) = &entity.body else {
        return &[]
    };
    constructors
}

/// The fields of a behaviour; one that is not there has none.
fn fields_of(plan: &Plan, behaviour: u32) -> &[Field]
    ensures { map field_of result.now ≡ fields_of_behaviour (slice_get (plan_of plan.now).behaviours behaviour) }
{
    match plan.behaviours.get(behaviour as usize) {
        Some(behaviour) => &behaviour.fields,
        None => &[],
    }
}

/// A singleton, which takes no arguments.
fn of_singleton(singletons: &[Offer], name: &str, args: &[Value]) -> Result<Created, CreateError>
    ensures { IsAnswer result (among_singletons name.now (map offer_of singletons.now) (map plain_of args.now)) }
{
    let Some(place) = place_of(singletons, name) else {
        return Err(CreateError::UnknownService)
    };
    if !args.is_empty() {
        return Err(CreateError::BadArguments);
    }
    match u32::try_from(place) {
        Ok(place) => Ok(Created::Singleton(place)),
        Err(_) => Err(CreateError::NoMemory),
    }
}
