//! Why what a root begins is refused at once.
ghost use Rattle.std.specs.Prelude.{◌≡◌, true, false, IfSome, IfNone};
ghost use Rattle.bridge_model.specs.Sides.{stands};
ghost use Rattle.bridge_model.specs.Steps.{has_entries};
ghost use Rattle.bridge_endpoint.specs.Refusing.{IsRefused, refused_begun, refused_made};
ghost use Rattle.bridge_endpoint.specs.Journals.{side_at};

use crate::entering::end;
use crate::feeding::MOST_ENTRIES;
use crate::{Begun, Endpoint, Made};
use bridge_journal::Entry;
use bridge_model::Cause;

/// The limit of entries was reached, the bridge had ended before, or it had ended for want of memory.
#[derive(Clone, Copy)]
pub(crate) enum Refused {
    Full,
    Gone,
    NoMemory,
}

impl Refused {
    pub(crate) fn begun(self) -> Begun
        ensures { result ≡ refused_begun self }
    {
        match self {
            Refused::Full => Begun::Full,
            Refused::Gone => Begun::Gone,
            Refused::NoMemory => Begun::NoMemory,
        }
    }

    pub(crate) fn made(self) -> Made
        ensures { result ≡ refused_made self }
    {
        match self {
            Refused::Full => Made::Full,
            Refused::Gone => Made::Gone,
            Refused::NoMemory => Made::NoMemory,
        }
    }
}

impl Endpoint {
    /// Whether a root may begin nothing more. The bridge ends where the limit of entries is reached.
    pub(crate) fn refused(&mut self) -> Option<Refused>
        ensures refused { IfSome result (λ r. IsRefused r self.old self.new) }
        ensures stands { IfNone result (stands (side_at self.old) ≡ true) }
        ensures within { IfNone result (has_entries (side_at self.old) ≡ false) }
        ensures kept { IfNone result (self.new ≡ self.old) }
    {
        if self.lacks_memory() {
            return Some(Refused::NoMemory);
        }
        if !self.stands() {
            return Some(Refused::Gone);
        }
        if self.state.entries() >= MOST_ENTRIES {
            end(&mut self.state, &mut self.journal, Cause::Full, Entry::Full);
            return Some(Refused::Full);
        }
        None
    }
}
