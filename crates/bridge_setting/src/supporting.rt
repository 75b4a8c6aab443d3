//! What a plan tells of objects: which are there from the beginning, which are exported, and what each supports.
ghost use Rattle.std.specs.Prelude.{◌≡◌, length, map, slice_get};
ghost use Rattle.plan_model.specs.Plans.{faces_in, faces_of, supports, exported, first_objects, has_offers};
ghost use Rattle.plan_model.specs.Plans as plain;
ghost use Rattle.plan_types.specs.Plans.{plan_of, export_of};
ghost use Rattle.plan_types.specs.declared.plan.Export.{Export};
ghost use Rattle.std.specs.List.{position};
ghost use Rattle.std.specs.Str.{bytes_eq};
ghost use Rattle.uno_model.specs.Reaches.{is_base_of};
ghost use Rattle.uno_model.specs.Sound.{IsSound};

use plan_types::{Export, Plan};
use uno_types::{Name, Registry};

/// The number that stands for the service manager in the place of a behaviour's.
pub const MANAGER: u32 = 256;

/// The name under which the service manager is exported.
const MANAGER_NAME: &str = "ServiceManager";

/// The interface of the service manager.
const FACTORY: &str = "com.sun.star.lang.XMultiServiceFactory";

/// Whether the plan has a service or a singleton.
pub fn has_offers(plan: &Plan) -> bool
    ensures { result ≡ has_offers (plan_of plan.now) }
{
    if plan.services.is_empty() {
        return !plan.singletons.is_empty();
    }
    true
}

/// How many objects are there from the beginning.
#[tactic(auto, unfolding(plan_model::specs::Plans::first_objects))]
pub fn first_objects(plan: &Plan) -> u64
    ensures { result ≡ length (first_objects (plan_of plan.now)) }
{
    let exports = plan.exports.len() as u64;
    if has_offers(plan) {
        exports + 1 + plan.singletons.len() as u64
    } else {
        exports
    }
}

/// Whether the objects of a behaviour, by its number, support an interface.
#[tactic(auto, unfolding(plan_model::specs::Plans::supports, plan_model::specs::Plans::faces_of, plan_model::specs::Plans::manager))]
pub fn supports(registry: &Registry, plan: &Plan, behaviour: u32, wanted: &str) -> bool
    requires { IsSound registry.now }
    ensures { result ≡ supports registry.now (faces_of (plan_of plan.now) behaviour) wanted.now }
{
    if behaviour == MANAGER {
        return is_base_of(registry, wanted, FACTORY);
    }
    is_reached(registry, faces_in(plan, behaviour), wanted)
}

/// The interfaces of a behaviour; one that is not there has none.
fn faces_in(plan: &Plan, behaviour: u32) -> &[Name]
    ensures { result.now ≡ faces_in (slice_get (plan_of plan.now).behaviours behaviour) }
{
    match plan.behaviours.get(behaviour as usize) {
        Some(behaviour) => &behaviour.faces,
        None => &[],
    }
}

/// Whether one of these interfaces is assignable to the wanted one.
#[tactic(auto, unfolding(plan_model::specs::Plans::supports))]
fn is_reached(registry: &Registry, faces: &[Name], wanted: &str) -> bool
    requires { IsSound registry.now }
    ensures { result ≡ supports registry.now faces.now wanted.now }
{
    for face in faces {
        if is_base_of(registry, wanted, face.as_str()) {
            return true;
        }
    }
    false
}

/// Whether an interface is assignable to another one: whether it is that one, or derives from it.
pub fn is_base_of(registry: &Registry, base: &str, name: &str) -> bool
    requires { IsSound registry.now }
    ensures { result ≡ is_base_of registry.now base.now name.now }
{
    registry.has_base(base, name)
}

/// The number of the object that is exported under a name.
#[tactic(auto, unfolding(plan_model::specs::Plans::exported))]
pub fn exported(plan: &Plan, name: &str) -> Option<u64>
    ensures { result ≡ exported (plan_of plan.now) name.now }
{
    if let Some(place) = place_of(&plan.exports, name) {
        return Some(place as u64 + 1);
    }
    if name == MANAGER_NAME && has_offers(plan) {
        return Some(plan.exports.len() as u64 + 1);
    }
    None
}

/// The place of the first export of a name.
fn place_of(exports: &[Export], name: &str) -> Option<usize>
    ensures { result ≡ position (λ (e : plain.Export). bytes_eq name.now e.name) (map export_of exports.now) }
{
    place_named(exports, name)
}

fn place_named(exports: &[Export], name: &str) -> Option<usize>
    ensures { result ≡ position (λ (e : Export). bytes_eq name.now e.name) exports.now }
{
    exports
        .iter()
        .position(|export| name == export.name.as_str())
}
