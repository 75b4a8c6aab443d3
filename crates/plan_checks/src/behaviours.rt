//! The behaviours that stand before a line.
ghost use Rattle.std.specs.Prelude.{◌≡◌, ◌+◌, length, map, option_map, is_some, IfOk};
ghost use Rattle.std.specs.List.{find, position};
ghost use Rattle.std.specs.Str.{bytes_eq};
ghost use Rattle.plan_model.specs.Contexts.{behaviour_named, behaviour_number, open_behaviours};
ghost use Rattle.plan_model.specs.KnownNames.{is_behaviour_known};
ghost use Rattle.plan_types.specs.Plans.{behaviour_of};
ghost use Rattle.plan_checks.specs.Contexts.{block_of, context_of, open_of};
ghost use Rattle.plan_checks.specs.LentBehaviours.{lent_behaviour, listed};

use crate::context::{Block, Context, OpenBehaviour};
use plan_types::{Behaviour, Method};
use uno_base::NoMemory;
use uno_types::{Field, Name};

/// A behaviour, which is lent.
#[derive(Clone, Copy)]
pub(crate) struct BehaviourRef<'a> {
    pub(crate) name: &'a Name,
    pub(crate) faces: &'a [Name],
    pub(crate) fields: &'a [Field],
    pub(crate) methods: &'a [Method],
}

fn lent_closed(behaviour: &Behaviour) -> BehaviourRef<'_>
    ensures { lent_behaviour result ≡ behaviour_of behaviour.now }
{
    BehaviourRef {
        name: &behaviour.name,
        faces: behaviour.faces.as_slice(),
        fields: behaviour.fields.as_slice(),
        methods: behaviour.methods.as_slice(),
    }
}

fn lent_open(behaviour: &OpenBehaviour) -> BehaviourRef<'_>
    ensures { lent_behaviour result ≡ open_of behaviour.now }
{
    BehaviourRef {
        name: &behaviour.name,
        faces: behaviour.faces.as_slice(),
        fields: behaviour.fields.as_slice(),
        methods: behaviour.methods.as_slice(),
    }
}

/// The behaviour whose block is open.
pub fn open_behaviour(block: &Block) -> Option<&OpenBehaviour>
    ensures { listed (option_map (λ b. open_of b.now) result) ≡ open_behaviours (block_of block.now) }
{
    match block {
        Block::Behaviour(behaviour) => Some(behaviour),
        Block::Method(behaviour, _) => Some(behaviour),
        Block::Top | Block::Thread(_) => None,
    }
}

/// The open behaviour, where it has this name.
fn open_named<'a>(block: &'a Block, name: &str) -> Option<BehaviourRef<'a>>
    ensures { option_map lent_behaviour result ≡ find (λ b. bytes_eq name.now b.name) (open_behaviours (block_of block.now)) }
{
    let behaviour = open_behaviour(block)?;
    if name != behaviour.name.as_str() {
        return None;
    }
    Some(lent_open(behaviour))
}

/// The place of the first behaviour of this name.
fn place_of(behaviours: &[Behaviour], name: &str) -> Option<usize>
    ensures { result ≡ position (λ b. bytes_eq name.now b.name) (map behaviour_of behaviours.now) }
{
    for place in 0..behaviours.len() {
        if name == behaviours[place].name.as_str() {
            return Some(place);
        }
    }
    None
}

fn closed_named<'a>(behaviours: &'a [Behaviour], name: &str) -> Option<BehaviourRef<'a>>
    ensures { option_map lent_behaviour result ≡ find (λ b. bytes_eq name.now b.name) (map behaviour_of behaviours.now) }
{
    for behaviour in behaviours {
        if name == behaviour.name.as_str() {
            return Some(lent_closed(behaviour));
        }
    }
    None
}

/// The behaviour of this name.
pub(crate) fn behaviour_named<'a>(context: &'a Context, name: &str) -> Option<BehaviourRef<'a>>
    ensures { option_map lent_behaviour result ≡ behaviour_named (context_of context.now) name.now }
{
    match closed_named(&context.plan.behaviours, name) {
        Some(behaviour) => Some(behaviour),
        None => open_named(&context.block, name),
    }
}

/// The number of the behaviour of this name.
pub fn behaviour_number(context: &Context, name: &str) -> Option<usize>
    ensures { result ≡ behaviour_number (context_of context.now) name.now }
{
    match place_of(&context.plan.behaviours, name) {
        Some(place) => Some(place),
        None => open_number(context, name),
    }
}

/// The number of the open behaviour, where it has this name: it comes behind those that are closed.
fn open_number(context: &Context, name: &str) -> Option<usize>
    ensures { result ≡ option_map (λ n. length (map behaviour_of context.now.plan.behaviours.items) + n) (position (λ b. bytes_eq name.now b.name) (open_behaviours (block_of context.now.block))) }
{
    let behaviour = open_behaviour(&context.block)?;
    if name != behaviour.name.as_str() {
        return None;
    }
    Some(context.plan.behaviours.len())
}

/// Whether there is a behaviour of this name.
pub fn is_behaviour_known(context: &Context, name: &str) -> bool
    ensures { result ≡ is_behaviour_known (context_of context.now) name.now }
{
    behaviour_number(context, name).is_some()
}

/// A place as a number: a plan has fewer behaviours than would want another one.
pub fn number_of(place: usize) -> Result<u32, NoMemory>
    ensures { IfOk result (λ number. number ≡ place) }
{
    match u32::try_from(place) {
        Ok(number) => Ok(number),
        Err(_) => Err(NoMemory),
    }
}
