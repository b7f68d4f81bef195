//! Earlier and later places.
ghost use Rattle.std.specs.Prelude.{◌≡◌};
ghost use Rattle.merc_entries.specs.DoubleFaults.{later};
ghost use Rattle.merc_base.specs.FirstPlace.{earlier};
ghost use Rattle.merc_entries.specs.FirstPlaces.{both_later};

use merc_base::Place;

/// The earlier of two places, or the one that is there.
pub(crate) fn earlier(first: Option<Place>, second: Option<Place>) -> Option<Place>
    ensures { result ≡ earlier first second }
{
    match (first, second) {
        (None, _) => second,
        (_, None) => first,
        (Some(a), Some(b)) => { if a.byte <= b.byte { Some(a) } else { Some(b) } }
    }
}

/// The later of two places, None where one of them is not there.
pub(crate) fn both_later(first: Option<Place>, second: Option<Place>) -> Option<Place>
    ensures { result ≡ both_later first second }
{
    match (first, second) {
        (Some(a), Some(b)) => Some(later(a, b)),
        _ => None,
    }
}

fn later(a: Place, b: Place) -> Place
    ensures { result ≡ later a b }
{
    if b.byte < a.byte { a } else { b }
}
