//! The first place of each name in a list.
ghost use Rattle.std.specs.Prelude.{◌≡◌, List, ℕ, Some, cond, OnErr, OnOk};
ghost use Rattle.std.specs.BTreeMap.{get_by_text};
ghost use Rattle.std.specs.Str.{bytes_eq};

use std::alloc::Global;
use std::collections::BTreeMap;
use uno_base::NoMemory;

/// A place for each name.
pub(crate) type ByName = BTreeMap<String, usize>;

/// The place of a name.
pub(crate) fn place(by_name: &ByName, name: &str) -> Option<usize>
    ensures { result ≡ get_by_text by_name.now name.now }
{
    by_name.get(name).copied()
}

/// Notes the place of a name.
pub(crate) fn note(
    alloc: Global,
    by_name: &mut ByName,
    name: &str,
    place: usize,
) -> Result<(), NoMemory>
    ensures noted { OnOk result ((q : List ℕ) → get_by_text by_name.new q ≡ cond (bytes_eq name.now q) (Some place) (get_by_text by_name.old q)) }
    ensures kept { OnErr result ((q : List ℕ) → get_by_text by_name.new q ≡ get_by_text by_name.old q) }
{
    let key = String::from_str(alloc, name)?;
    by_name.insert(key, place)?;
    Ok(())
}
