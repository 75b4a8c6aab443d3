//! Reading the identities of threads.
ghost use Rattle.std.specs.Prelude.{◌≡◌};
ghost use Rattle.urp_model.specs.ReadingNames.{tid_at};
ghost use Rattle.urp_wire.specs.Gives.{Gives};

use super::parts::{name, slot};
use super::slots::{meaning, note};
use crate::{Reason, WireError};
use std::alloc::Global;
use uno_types::Tid;
use urp_cache::ReadCache;

/// How many bytes the identity of a thread may have.
const MOST_BYTES: u32 = 1024;

/// The identity of a thread, and the bytes behind it.
#[tactic(auto, unfolding(urp_model::specs::ReadingNames::tid_at, urp_model::specs::ReadingNames::named))]
pub fn read_tid<'a>(
    alloc: Global,
    tids: &mut ReadCache<Tid>,
    bytes: &'a [u8],
) -> Result<(Tid, &'a [u8]), WireError>
    ensures { Gives (λ x. (x.0, tids.new, x.1.now)) result (tid_at tids.old bytes.now) }
{
    let (name, rest) = name(bytes, MOST_BYTES)?;
    let (slot, rest) = slot(rest)?;
    if !name.is_empty() {
        let tid = Tid::of(alloc, name)?;
        let named = tid.copy()?;
        note(tids, slot, named);
        return Ok((tid, rest));
    }
    let Some(tid) = meaning(tids, slot) else {
        return Err(WireError::Bad(Reason::UnknownSlot));
    };
    let tid = tid.copy()?;
    Ok((tid, rest))
}
