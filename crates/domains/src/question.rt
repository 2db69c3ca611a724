// What a domain is asked: how late a frame of a list can be, with the others where the places say.
ghost use Rattle.std.specs.Prelude.{◌≡◌};
ghost use Rattle.domains.specs.Asked.{stance};

use crate::place::Place;
use frames::row::Row;

// The places are a slice beside the rows, since they change from question to question while the rows stay.
#[derive(Clone, Copy)]
pub struct Question<'a> {
    pub rows: &'a [Row],
    pub places: &'a [Place],
    // The number of the frame asked about.
    pub frame: usize,
}

impl Question<'_> {
    // Where frame i stands to the frame asked about: itself, and whoever is not told of, is absent.
    pub fn stance(&self, i: usize) -> Place
        ensures { result ≡ stance self.now.places.now self.now.frame i }
    {
        if i == self.frame {
            return Place::Absent;
        }
        self.places.get(i).copied().unwrap_or(Place::Absent)
    }
}
