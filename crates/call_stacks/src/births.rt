//! The births of stacks by their TIDs: a number for each stack, which rises as they begin.
ghost use Rattle.std.specs.Prelude.{◌≡◌, ℕ, List, cond, None, Some, OnOk, OnErr};
ghost use Rattle.std.specs.Str.{bytes_eq};
ghost use Rattle.call_stacks.specs.Births.{birth_at};

use std::alloc::Global;
use std::collections::BTreeMap;
use uno_base::NoMemory;
use uno_entities::Tid;

/// A birth for each TID that has a stack.
pub type Births = BTreeMap<Vec<u8>, u64>;

/// The birth of a TID's stack.
pub fn birth(births: &Births, tid: &Tid) -> Option<u64>
    ensures { result ≡ birth_at tid.now births.now }
{
    births.get(tid.as_bytes()).copied()
}

/// The birth of the stack of a TID with these bytes.
pub fn birth_by_bytes(births: &Births, tid: &[u8]) -> Option<u64>
    ensures { result ≡ birth_at tid.now births.now }
{
    births.get(tid).copied()
}

/// Notes the birth of a TID's stack.
pub fn note(alloc: Global, births: &mut Births, tid: &Tid, birth: u64) -> Result<(), NoMemory>
    ensures noted { OnOk result ((q : List ℕ) → birth_at q births.new ≡ cond (bytes_eq tid.now q) (Some birth) (birth_at q births.old)) }
    ensures kept { OnErr result ((q : List ℕ) → birth_at q births.new ≡ birth_at q births.old) }
{
    let key = Vec::from_slice(alloc, tid.as_bytes())?;
    births.insert(key, birth)?;
    Ok(())
}

/// Forgets the birth of a TID's stack.
pub fn forget(births: &mut Births, tid: &Tid)
    ensures { (q : List ℕ) → birth_at q births.new ≡ cond (bytes_eq tid.now q) None (birth_at q births.old) }
{
    births.remove(tid.as_bytes());
}
