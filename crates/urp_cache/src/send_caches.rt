//! The three caches of the end that sends.
ghost use Rattle.std.specs.Prelude.{◌≡◌, [], IfOk};

use crate::SendCache;
use std::alloc::Global;
use uno_base::NoMemory;

/// The slots of names of types, of OIDs and of TIDs.
#[derive(Drop)]
pub struct SendCaches {
    pub types: SendCache,
    pub oids: SendCache,
    pub tids: SendCache,
}

impl SendCaches {
    /// Three caches that hold no name.
    pub fn new(alloc: Global) -> Result<SendCaches, NoMemory>
        ensures types { IfOk result (λ caches. caches.types ≡ []) }
        ensures oids { IfOk result (λ caches. caches.oids ≡ []) }
        ensures tids { IfOk result (λ caches. caches.tids ≡ []) }
    {
        let types = SendCache::new(alloc)?;
        let oids = SendCache::new(alloc)?;
        let tids = SendCache::new(alloc)?;
        Ok(SendCaches { types, oids, tids })
    }
}
