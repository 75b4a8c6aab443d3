//! The one history of both ends: what is known of it, and its entries in the order in which they were made.
ghost use Rattle.std.specs.Prelude.{◌≡◌, ◌≢◌, ◌≤◌, ◌<◌, ℕ, IfNone, IfSome, Some, get_or, length, option_map, slice_get};
ghost use Rattle.bridge_journal.specs.Logs.{entry_of};
ghost use Rattle.bridge_world.specs.Doing.{IsKnown};
ghost use Rattle.bridge_world.specs.Marks.{IsMarked, Rise};
ghost use Rattle.bridge_world.specs.Playing.{event_of};

use crate::World;
use crate::world::know;
use bridge_core::Side;
use bridge_endpoint::{Endpoint, Entry};

impl World {
    /// A law: the entries of both are a history of the definition of two joined ends, and each end is where it leads.
    pub(crate) fn know_history(&self)
        ensures { IsKnown self.now }
    {
        know(&self.a, &self.b);
    }
}

/// The entry at a place among those of both.
pub(crate) fn entry_at(world: &World, nth: u64) -> Option<(Side, &Entry)>
    ensures { option_map (λ x. event_of x.0 x.1.now) result ≡ slice_get world.entry.now.events nth }
{
    if let Some(entry) = marked(&world.a, nth) {
        return Some((Side::A, entry));
    }
    if let Some(entry) = marked(&world.b, nth) {
        return Some((Side::B, entry));
    }
    None
}

/// The entry of an end with this mark. Marks rise.
fn marked(end: &Endpoint, mark: u64) -> Option<&Entry>
    requires { Rise end.now.stamps }
    ensures found { IfSome result (λ entry. IsMarked end.entry.now mark (entry_of entry.now)) }
    ensures none { IfNone result ((k : ℕ) → slice_get end.entry.now.stamps k ≢ Some mark) }
{
    let Ok(place) = end.stamps().binary_search(&mark) else {
        return None;
    };
    end.journal().get(place)
}
