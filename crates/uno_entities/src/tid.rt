//! A thread identity, which follows a chain of calls over the bridge and back.
ghost use Rattle.std.specs.Prelude.{◌≡◌, IfOk};

use std::alloc::Global;
use std::marker::Model;
use std::sync::ArcSlice;
use uno_base::NoMemory;

/// The bytes that name a chain of calls, which copies share; each end takes them as they came.
#[derive(Drop)]
pub struct Tid {
    bytes: ArcSlice<u8, Global>,
}

impl Model for Tid {
    ghost use Rattle.std.specs.Prelude.{ℕ, List};
    ghost use Rattle.std.specs.Arc.{arc_slice_items};

    ghost Value = { List ℕ };

    ghost view = { λ t. arc_slice_items t.bytes };
}

impl Tid {
    /// The identity of just these bytes.
    pub fn of(alloc: Global, bytes: &[u8]) -> Result<Tid, NoMemory>
        ensures { IfOk result (λ tid. tid ≡ bytes.now) }
    {
        let bytes = ArcSlice::from_slice(alloc, bytes)?;
        Ok(Tid { bytes })
    }

    /// Its bytes.
    pub fn as_bytes(&self) -> &[u8]
        ensures { result.now ≡ self.now }
    {
        self.bytes.as_slice()
    }

    /// An equal identity, which shares its bytes; refused only if that has too many owners.
    pub fn copy(&self) -> Result<Tid, NoMemory>
        ensures { IfOk result (λ tid. tid ≡ self.now) }
    {
        let bytes = self.bytes.clone()?;
        Ok(Tid { bytes })
    }
}
