//! The parts of a header that name a type, an object or a thread: each is new, or the last one of its kind (URP specification, messages).
ghost use Rattle.std.specs.Prelude.{◌≡◌, ℕ, List, Option, Result, option_map, IfOk, Some};
ghost use Rattle.message_model.specs.ReadingMessages.{new_or_last_at, oid_text_at};
ghost use Rattle.uno_model.specs.Entities.{Entity};
ghost use Rattle.uno_model.specs.Kinds.{Kind};
ghost use Rattle.uno_model.specs.Sound.{IsSound};
ghost use Rattle.uno_entities.specs.TypeNames.{kind_of};
ghost use Rattle.urp_model.specs.Parts.{judged};
ghost use Rattle.urp_model.specs.ReadingNames.{kind_at, tid_at};
ghost use Rattle.urp_model.specs.Tables.{Table};
ghost use Rattle.urp_model.specs.declared.fault.Fault.{Fault};
ghost use Rattle.urp_model.specs.declared.reason.Reason.TheVariants.{NoLast};
ghost use Rattle.urp_wire.specs.Gives.{Gives};

use crate::remembered::remember;
use std::alloc::Global;
use uno_base::NoMemory;
use uno_types::{Registry, Text, Tid, TypeName};
use urp_cache::{ReadCache, SlotName};
use urp_wire::{Reason, WireError, read_kind, read_oid, read_tid};

/// A type, an object or a thread that a header names.
pub(crate) trait Part: Drop {
    /// What a slot means that names one.
    type Name: SlotName;

    ghost Plain: { Type 0 };

    ghost plain: { Self → Plain };

    ghost part_at: { List Entity → Table → List ℕ → Result (Plain × Table × List ℕ) Fault };

    /// What the bytes name, and the bytes behind it; the slots mean it from now on.
    fn read<'a>(
        alloc: Global,
        registry: &Registry,
        names: &mut ReadCache<Self::Name>,
        bytes: &'a [u8],
    ) -> Result<(Self, &'a [u8]), WireError>
        requires { IsSound registry.now }
        ensures { Gives (λ x. (plain x.0, names.new, x.1.now)) result (part_at registry.now names.old bytes.now) };

    /// The same part.
    fn copied(&self, alloc: Global) -> Result<Self, NoMemory>
        ensures { IfOk result (λ copy. plain copy ≡ plain self.now) };
}

impl Part for TypeName {
    type Name = Text;

    ghost Plain = { Kind };

    ghost plain = { kind_of };

    ghost part_at = { kind_at };

    fn read<'a>(
        alloc: Global,
        registry: &Registry,
        names: &mut ReadCache<Text>,
        bytes: &'a [u8],
    ) -> Result<(TypeName, &'a [u8]), WireError> {
        read_kind(alloc, registry, names, bytes)
    }

    fn copied(&self, alloc: Global) -> Result<TypeName, NoMemory> {
        self.copy(alloc)
    }
}

/// The identity of an object, empty for null.
impl Part for Text {
    type Name = Text;

    ghost Plain = { List ℕ };

    ghost plain = { λ oid. oid };

    ghost part_at = { λ _. oid_text_at };

    #[tactic(auto, unfolding(message_model::specs::ReadingMessages::oid_text_at))]
    fn read<'a>(
        alloc: Global,
        _registry: &Registry,
        names: &mut ReadCache<Text>,
        bytes: &'a [u8],
    ) -> Result<(Text, &'a [u8]), WireError> {
        let (oid, rest) = read_oid(alloc, names, bytes)?;
        let Some(oid) = oid else {
            let null = Text::of(alloc, "")?;
            return Ok((null, rest));
        };
        Ok((oid, rest))
    }

    fn copied(&self, _alloc: Global) -> Result<Text, NoMemory> {
        self.copy()
    }
}

impl Part for Tid {
    type Name = Tid;

    ghost Plain = { List ℕ };

    ghost plain = { λ tid. tid };

    ghost part_at = { λ _. tid_at };

    fn read<'a>(
        alloc: Global,
        _registry: &Registry,
        names: &mut ReadCache<Tid>,
        bytes: &'a [u8],
    ) -> Result<(Tid, &'a [u8]), WireError> {
        read_tid(alloc, names, bytes)
    }

    fn copied(&self, _alloc: Global) -> Result<Tid, NoMemory> {
        self.copy()
    }
}

/// A part that stands in the bytes where it is new, and is the last one of its kind where not; it is the last one from now on.
#[tactic(auto, unfolding(message_model::specs::ReadingMessages::new_or_last_at))]
pub(crate) fn new_or_last<'a, P: Part>(
    alloc: Global,
    registry: &Registry,
    is_new: bool,
    last: &mut Option<P>,
    names: &mut ReadCache<P::Name>,
    bytes: &'a [u8],
) -> Result<(P, &'a [u8]), WireError>
    requires { IsSound registry.now }
    ensures named { Gives (λ x. (P.plain x.0, names.new, x.1.now)) result (new_or_last_at is_new (option_map P.plain last.old) (P.part_at registry.now) names.old bytes.now) }
    ensures last { IfOk result (λ x. option_map P.plain last.new ≡ Some (P.plain x.0)) }
{
    if is_new {
        let (part, rest) = P::read(alloc, registry, names, bytes)?;
        remember(last, Some(part));
        let part = last_part(alloc, last)?;
        return Ok((part, rest));
    }
    let part = last_part(alloc, last)?;
    Ok((part, bytes))
}

/// The last part of its kind.
fn last_part<P: Part>(alloc: Global, last: &Option<P>) -> Result<P, WireError>
    ensures { Gives P.plain result (judged NoLast (option_map P.plain last.now)) }
{
    let Some(part) = last else {
        return Err(WireError::Bad(Reason::NoLast));
    };
    let part = part.copied(alloc)?;
    Ok(part)
}
