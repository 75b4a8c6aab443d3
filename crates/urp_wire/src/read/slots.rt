//! What slots mean while a value is read (URP specification, caches).
ghost use Rattle.std.specs.Prelude.{◌≡◌, option_map};
ghost use Rattle.std.specs.Str.{IsUtf8};
ghost use Rattle.urp_model.specs.Tables.{meaning, noted};
ghost use Rattle.urp_wire.specs.Gives.{Gives};
ghost use Rattle.urp_wire.specs.MeantTexts.{meant_text};

use super::parts::SLOTS;
use crate::{Reason, WireError};
use uno_types::Text;
use urp_cache::{ReadCache, SlotName};

/// What a slot means; none of the numbers past the slots means anything.
#[tactic(auto, unfolding(urp_model::specs::Tables::meaning))]
pub fn meaning<N: SlotName>(cache: &ReadCache<N>, slot: u16) -> Option<&N>
    ensures { option_map (λ name. N.bytes name.now) result ≡ meaning slot cache.now }
{
    if slot >= SLOTS {
        return None;
    }
    cache.meaning(slot)
}

/// Takes in a name that is written out with a slot, or with the number that says that there is none.
#[tactic(auto, unfolding(urp_model::specs::Tables::noted))]
pub fn note<N: SlotName>(cache: &mut ReadCache<N>, slot: u16, name: N)
    ensures { cache.new ≡ noted slot (N.bytes name) cache.old }
{
    if slot < SLOTS {
        cache.announce(slot, name);
    }
}

/// The text that a slot means, which the slot goes on to share.
#[tactic(auto, using(crate::proofs::Texts::text_is))]
pub fn meant_text(cache: &ReadCache<Text>, slot: u16) -> Result<Text, WireError>
    ensures { Gives (λ text. text) result (meant_text slot cache.now) }
{
    let Some(text) = meaning(cache, slot) else {
        return Err(WireError::Bad(Reason::UnknownSlot));
    };
    is_text(text);
    let text = text.copy()?;
    Ok(text)
}

/// A text is UTF-8, so none that a slot means is refused as `BadText`.
fn is_text(text: &Text)
    ensures { IsUtf8 text.now }
{
    text.as_str();
}
