// Places from the last to the first, each to the first frame that is in time there.
ghost use Rattle.std.specs.Prelude.{◌≡◌, [], length};
ghost use Rattle.timing.specs.Everywhere.{everywhere};
ghost use Rattle.timing.specs.Places.{tested, above, below, row_at, by_number};
ghost use Rattle.ordering.specs.Answers.{Arranged};
ghost use Rattle.ordering.specs.Orders.{found, examined};

use crate::orders::Placement;
use domains::domain::Domain;
use domains::place::Place;
use lists::list::ArrayList;
use timing::everywhere::{Frames, Trial};

// The frame that a place goes to, and how many were examined for it.
#[derive(Clone, Copy)]
pub struct Looked {
    pub frame: Option<usize>,
    pub examinations: usize,
}

// The frames above, which have no place, in list order: the first that is in time gets it.
pub(crate) fn examine<B: Domain>(trial: &Trial<B>) -> Looked
    ensures frame { let places = trial.now.places.now in result.frame ≡ found (tested (everywhere (B.response trial.now.frames.now.bank.now)) trial.now.frames.now.rows.now places) (above places) }
    ensures examinations { let places = trial.now.places.now in result.examinations ≡ examined (tested (everywhere (B.response trial.now.frames.now.bank.now)) trial.now.frames.now.rows.now places) (above places) }
{
    let mut examinations = 0;
    for (f, place) in trial.places.iter().enumerate() {
        if *place == Place::Above {
            examinations += 1;
            if trial.in_time(f) {
                return Looked {
                    frame: Some(f),
                    examinations,
                };
            }
        }
    }
    Looked {
        frame: None,
        examinations,
    }
}

// Gives the `count` frames that the table has above their places, from the last to the first; none where at some place
// no frame fits.
// The count comes with the table, since whoever asks has it, and it is the measure of the loop.
pub(crate) fn arrange<B: Domain>(
    frames: &Frames<B>,
    places: &mut [Place],
    count: usize,
) -> Option<Placement>
    requires long { length places.old ≡ length frames.now.rows.now }
    requires free { length (above places.old) ≡ count }
    requires none { below places.old ≡ [] }
    ensures { Arranged (by_number (everywhere (B.response frames.now.bank.now)) (row_at frames.now.rows.now)) (above places.old) count result }
{
    let mut placement = Placement {
        examinations: 0,
        numbers: ArrayList::new(),
    };
    while placement.numbers.len() < count {
        let looked = examine(&Trial {
            // Lent again, for no longer than the places.
            frames: &*frames,
            places,
        });
        let f = looked.frame?;
        places[f] = Place::Below;
        placement.examinations += looked.examinations;
        // The number is below 96: the cast is proved to lose nothing, where `u8::try_from` would want an `unwrap`.
        placement.numbers.push_front(f as u8);
    }
    Some(placement)
}
