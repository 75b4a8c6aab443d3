//! Reading the identities of objects (URP specification, marshalling of interface references).
ghost use Rattle.std.specs.Prelude.{◌≡◌, Option};
ghost use Rattle.urp_model.specs.ReadingNames.{oid_at};
ghost use Rattle.urp_wire.specs.Gives.{Gives};

use super::parts::{NO_SLOT, slot, text_name};
use super::slots::{meant_text, note};
use crate::WireError;
use std::alloc::Global;
use uno_types::Text;
use urp_cache::ReadCache;

/// The identity of an object, or none for null, and the bytes behind it.
#[tactic(auto, using(crate::proofs::Texts::text_is), unfolding(urp_model::specs::ReadingNames::oid_at, urp_model::specs::ReadingNames::named))]
pub fn read_oid<'a>(
    alloc: Global,
    oids: &mut ReadCache<Text>,
    bytes: &'a [u8],
) -> Result<(Option<Text>, &'a [u8]), WireError>
    ensures { Gives (λ x. (x.0, oids.new, x.1.now)) result (oid_at oids.old bytes.now) }
{
    let (name, rest) = text_name(bytes)?;
    let (slot, rest) = slot(rest)?;
    if !name.is_empty() {
        let oid = Text::of(alloc, name)?;
        let named = oid.copy()?;
        note(oids, slot, named);
        return Ok((Some(oid), rest));
    }
    if slot == NO_SLOT {
        return Ok((None, rest));
    }
    let oid = meant_text(oids, slot)?;
    Ok((Some(oid), rest))
}
