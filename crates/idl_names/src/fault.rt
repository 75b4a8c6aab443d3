//! What is wrong with names, each fault with its place.
ghost use Rattle.std.specs.Prelude.{◌≡◌, [], map, option_map, MatchOption};
ghost use Rattle.idl_model.specs.Places as plain;
ghost use Rattle.idl_names.specs.Faults.{ComesFirst, all_faults_of, earlier, fault_of};
ghost use Rattle.idl_trees.specs.Names.{place_of};

use idl_trees::Place;

/// What is wrong at a place.
#[derive(Clone, Copy)]
pub enum NameFault {
    /// The name stands for nothing.
    Unknown,
    /// The name is declared before, at this place; a built-in entity has none.
    Twice(Option<Place>),
    /// The types `float` and `double` are not served.
    FloatRefused,
}

/// A fault, and the place of the name or of the type.
#[derive(Clone, Copy)]
pub struct Fault {
    pub place: Place,
    pub why: NameFault,
}

/// The fault that comes first.
pub fn earliest(faults: &[Fault]) -> Option<Fault>
    ensures { MatchOption result (faults.now ≡ []) (λ fault. ComesFirst (all_faults_of faults.now) (fault_of fault)) }
{
    let mut least = None;
    for fault in faults {
        least = Some(earlier_of(least, fault));
    }
    least
}

fn earlier_of(least: Option<Fault>, fault: &Fault) -> Fault
    ensures { fault_of result ≡ earlier (option_map fault_of least) (fault_of fault.now) }
{
    let Some(before) = least else {
        return *fault;
    };
    if comes_before(fault.place, before.place) {
        return *fault;
    }
    before
}

/// By file, and then by byte.
pub(crate) fn comes_before(place: Place, other: Place) -> bool
    ensures { result ≡ plain.is_before (place_of place) (place_of other) }
{
    if place.file == other.file {
        return place.byte < other.byte;
    }
    place.file < other.file
}
