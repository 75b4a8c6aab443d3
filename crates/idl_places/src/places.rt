//! Places, one behind the other, and the least of them.
ghost use Rattle.std.specs.Prelude.{◌≡◌, ◌∷◌, [], MatchOption, OnOk, option_map};
ghost use Rattle.idl_model.specs.Places.{IsLeast, is_before};
ghost use Rattle.idl_places.specs.Places.{AddsPlaces, lesser, places_of};
ghost use Rattle.idl_rules_model.specs.TypePlaces.{at_unless};
ghost use Rattle.idl_trees.specs.Names.{place_of};

use idl_trees::Place;
use uno_base::NoMemory;

pub fn add_place(places: &mut Vec<Place>, place: Place) -> Result<(), NoMemory>
    ensures { OnOk result (AddsPlaces places.old.items (place_of place ∷ []) places.new.items) }
{
    places.push(place)?;
    Ok(())
}

/// A place, unless what stands there is right.
pub fn add_unless(places: &mut Vec<Place>, right: bool, place: Place) -> Result<(), NoMemory>
    ensures { OnOk result (AddsPlaces places.old.items (at_unless (place_of place) right) places.new.items) }
{
    if right {
        return Ok(());
    }
    add_place(places, place)
}

/// The least of places.
pub fn least(places: &[Place]) -> Option<Place>
    ensures { MatchOption result (places.now ≡ []) (λ place. IsLeast (place_of place) (places_of places.now)) }
{
    let mut least = None;
    for place in places {
        least = Some(lesser(least, *place));
    }
    least
}

fn lesser(least: Option<Place>, place: Place) -> Place
    ensures { place_of result ≡ lesser (option_map place_of least) (place_of place) }
{
    let Some(before) = least else {
        return place;
    };
    if is_before(place, before) {
        return place;
    }
    before
}

/// By file, and then by byte.
pub fn is_before(place: Place, other: Place) -> bool
    ensures { result ≡ is_before (place_of place) (place_of other) }
{
    if place.file == other.file {
        return place.byte < other.byte;
    }
    place.file < other.file
}
