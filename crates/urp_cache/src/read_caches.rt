//! The three caches of the end that reads.
ghost use Rattle.std.specs.Prelude.{◌≡◌, IfOk};
ghost use Rattle.urp_model.specs.Slots.{no_meanings};

use crate::ReadCache;
use std::alloc::Global;
use uno_base::NoMemory;
use uno_entities::{Text, Tid};

/// What slots mean, for names of types, for OIDs and for TIDs.
#[derive(Drop)]
pub struct ReadCaches {
    pub types: ReadCache<Text>,
    pub oids: ReadCache<Text>,
    pub tids: ReadCache<Tid>,
}

impl ReadCaches {
    /// Three caches in which no slot means anything.
    pub fn new(alloc: Global) -> Result<ReadCaches, NoMemory>
        ensures types { IfOk result (λ caches. caches.types ≡ no_meanings) }
        ensures oids { IfOk result (λ caches. caches.oids ≡ no_meanings) }
        ensures tids { IfOk result (λ caches. caches.tids ≡ no_meanings) }
    {
        let types = ReadCache::new(alloc)?;
        let oids = ReadCache::new(alloc)?;
        let tids = ReadCache::new(alloc)?;
        Ok(ReadCaches { types, oids, tids })
    }
}
