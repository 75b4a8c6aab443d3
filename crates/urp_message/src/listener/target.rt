//! Whom a request calls: a type, an object and a thread, each new or the last one of its kind (URP specification, messages).
ghost use Rattle.message_model.specs.ReadingMessages.{target_at};
ghost use Rattle.uno_model.specs.Sound.{IsSound};
ghost use Rattle.urp_message.specs.Headers.{opening_of, target_of};
ghost use Rattle.urp_message.specs.Messages.{heard_of};
ghost use Rattle.urp_wire.specs.Gives.{Gives};

use super::opening::Opening;
use super::part::new_or_last;
use crate::remembered::Heard;
use std::alloc::Global;
use uno_types::{Registry, Text, Tid, TypeName};
use urp_wire::WireError;

/// A type, an object, of which null has no bytes, and a thread.
#[derive(Drop)]
pub(crate) struct Target {
    pub(crate) kind: TypeName,
    pub(crate) oid: Text,
    pub(crate) tid: Tid,
}

/// Whom a request calls, and the bytes behind it; what it named is the last of its kind from now on.
#[tactic(auto, using(std::proofs::lemmas::Iterator::Adapters::option_map_id), unfolding(message_model::specs::ReadingMessages::target_at))]
pub(crate) fn read_target<'a>(
    alloc: Global,
    registry: &Registry,
    opening: &Opening,
    heard: &mut Heard,
    bytes: &'a [u8],
) -> Result<(Target, &'a [u8]), WireError>
    requires { IsSound registry.now }
    ensures { Gives (λ x. (target_of x.0, heard_of heard.new, x.1.now)) result (target_at registry.now (opening_of opening.now) (heard_of heard.old) bytes.now) }
{
    let (kind, rest) = new_or_last(
        alloc,
        registry,
        opening.new_type,
        &mut heard.last.kind,
        &mut heard.caches.types,
        bytes,
    )?;
    let (oid, rest) = match new_or_last(
        alloc,
        registry,
        opening.new_oid,
        &mut heard.last.oid,
        &mut heard.caches.oids,
        rest,
    ) {
        Ok(named) => named,
        Err(error) => {
            drop(kind);
            return Err(error);
        }
    };
    match new_or_last(
        alloc,
        registry,
        opening.new_tid,
        &mut heard.last.tid,
        &mut heard.caches.tids,
        rest,
    ) {
        Ok((tid, rest)) => Ok((Target { kind, oid, tid }, rest)),
        Err(error) => {
            drop(kind);
            drop(oid);
            Err(error)
        }
    }
}
