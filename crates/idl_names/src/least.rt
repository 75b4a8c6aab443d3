//! The least place of each number.
ghost use Rattle.std.specs.List.{AllByRecursion};
ghost use Rattle.std.specs.Prelude.{◌≡◌, ◌<◌, length, option_map};
ghost use Rattle.idl_names.specs.Tables.{Notes, NotesOne, lesser};
ghost use Rattle.idl_trees.specs.Names.{place_of};

use crate::declaration::Declared;
use crate::fault::comes_before;
use crate::marks::is_entity;
use idl_trees::Place;

/// Notes where these declarations declare entities.
pub(crate) fn note_entities(leasts: &mut Vec<Option<Place>>, all: &[Declared<'_>])
    requires { AllByRecursion (λ d. d.path < length leasts.old.items) all.now }
    ensures { Notes leasts.old.items all.now leasts.new.items }
{
    for declared in all {
        note(
            leasts,
            declared.path,
            declared.name.place,
            is_entity(declared.body),
        );
    }
}

/// Notes a place for a number, if it is wanted and no lesser one is noted.
fn note(leasts: &mut Vec<Option<Place>>, number: u32, place: Place, wanted: bool)
    requires { number < length leasts.old.items }
    ensures { NotesOne leasts.old.items number (place_of place) wanted leasts.new.items }
{
    if !wanted {
        return;
    }
    let before = leasts[number as usize];
    leasts[number as usize] = Some(lesser_of(before, place));
}

fn lesser_of(before: Option<Place>, place: Place) -> Place
    ensures { place_of result ≡ lesser (option_map place_of before) (place_of place) }
{
    let Some(other) = before else {
        return place;
    };
    if comes_before(place, other) {
        return place;
    }
    other
}
