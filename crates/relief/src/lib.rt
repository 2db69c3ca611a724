// What a frame gains when another is left out, in any domain: it rests on the duties alone, through the bound.
#![tactic(auto)]

ghost use Rattle.std.specs.Prelude.{◌≡◌, slice_set};
ghost use Rattle.domains.specs.Asked.{asked};
ghost use Rattle.domains.specs.declared.place.Place.TheVariants.{Absent as Gone};
ghost use Rattle.relief.specs.Gains.{Gains};

use domains::domain::Domain;
use domains::place::Place;
use domains::question::Question;
use frames::limits::MAX_FRAMES;
use frames::row::Row;

// The places with frame i left out; a number that is not in the table leaves them as they are.
// With `get_mut` for the guarded index the proof did not close: after it the array's length is known, and no element.
fn left_out(places: [Place; MAX_FRAMES], i: usize) -> [Place; MAX_FRAMES]
    ensures { result ≡ slice_set places i Gone }
{
    let mut without = places;
    if i < without.len() {
        without[i] = Place::Absent;
    }
    without
}

// By how much frame f of the rows is earlier in domain k without frame i; none where it has no response time.
// Rows, places and number are no `Question`, since a frame is left out of a copy of the places: an array by value, for
// a slice of any length cannot be copied without a heap.
pub fn relief<D: Domain>(
    domain: &D,
    k: usize,
    rows: &[Row],
    places: [Place; MAX_FRAMES],
    f: usize,
    i: usize,
) -> Option<u64>
    ensures { Gains (asked (D.response domain.now k) rows.now places f) (asked (D.response domain.now k) rows.now (slice_set places i Gone) f) result }
{
    let question = Question {
        rows,
        places: &places,
        frame: f,
    };
    let before = domain.answer(k, &question)?;
    let without = left_out(places, i);
    let question = Question {
        rows,
        places: &without,
        frame: f,
    };
    let after = domain.answer(k, &question).unwrap();
    Some(before - after)
}
