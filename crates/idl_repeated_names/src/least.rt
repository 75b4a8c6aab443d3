//! What is known of places of which some are missing, since a name that is built in has none.
ghost use Rattle.std.specs.Option.{option_map};
ghost use Rattle.std.specs.Prelude.{◌≡◌, List, Option, map, unwrap_or};
ghost use Rattle.idl_joint_places.specs.Circles.{FindsLeast};
ghost use Rattle.idl_model.specs.Places as plain;
ghost use Rattle.idl_repeated_names.specs.Sums.{Sums, has_any, joined, least_both, lesser, nothing, of_one, own_with, second_with, summary_of};
ghost use Rattle.idl_trees.specs.Names.{place_of};

use idl_places::is_before;
use idl_trees::Place;

/// The least of them, and whether one is missing.
#[derive(Clone, Copy)]
pub(crate) struct Least {
    pub place: Option<Place>,
    pub bare: bool,
}

/// Of no places.
pub(crate) fn nothing() -> Least
    ensures { summary_of result ≡ nothing }
{
    Least {
        place: None,
        bare: false,
    }
}

fn one(place: Option<Place>) -> Least
    ensures { summary_of result ≡ of_one (option_map place_of place) }
{
    match place {
        Some(place) => Least {
            place: Some(place),
            bare: false,
        },
        None => Least {
            place: None,
            bare: true,
        },
    }
}

fn has_any(known: Least) -> bool
    ensures { result ≡ has_any (summary_of known) }
{
    match known.place {
        Some(_) => true,
        None => known.bare,
    }
}

fn joined(these: Least, those: Least) -> Least
    ensures { summary_of result ≡ joined (summary_of these) (summary_of those) }
{
    Least {
        place: least_of_both(these.place, those.place),
        bare: these.bare || those.bare,
    }
}

/// With one more.
pub(crate) fn with_one(known: Least, place: Option<Place>) -> Least
    ensures { summary_of result ≡ joined (summary_of known) (of_one (option_map place_of place)) }
{
    joined(known, one(place))
}

/// With the places that count where a name comes behind those of which these are the places: its own, or else each of these.
pub(crate) fn with_second(found: Least, before: Least, place: Option<Place>) -> Least
    ensures { summary_of result ≡ second_with (summary_of found) (summary_of before) (option_map place_of place) }
{
    match place {
        None => joined(found, before),
        Some(_) => with_own(found, before, place),
    }
}

fn with_own(found: Least, before: Least, place: Option<Place>) -> Least
    ensures { summary_of result ≡ own_with (summary_of found) (summary_of before) (option_map place_of place) }
{
    if !has_any(before) {
        return found;
    }
    with_one(found, place)
}

/// The least one, where this place stands for one that is missing.
pub(crate) fn least_with(found: Least, own: Place) -> Option<Place>
    ensures { (them : List (Option plain.Place)) → Sums them (summary_of found) → FindsLeast (map (λ p. unwrap_or p (place_of own)) them) result }
{
    if found.bare {
        return Some(lesser_of(found.place, own));
    }
    found.place
}

/// The least of what both are the least of.
pub(crate) fn least_of_both(one: Option<Place>, other: Option<Place>) -> Option<Place>
    ensures { option_map place_of result ≡ least_both (option_map place_of one) (option_map place_of other) }
{
    let Some(place) = other else {
        return one;
    };
    Some(lesser_of(one, place))
}

fn lesser_of(one: Option<Place>, other: Place) -> Place
    ensures { place_of result ≡ lesser (option_map place_of one) (place_of other) }
{
    let Some(first) = one else {
        return other;
    };
    if is_before(other, first) {
        return other;
    }
    first
}
