// The frames of a list over a bank, a trial of where each stands, and whether a frame is in time there in all domains
// of its set.
ghost use Rattle.std.specs.Prelude.{◌≡◌, ℕ, ◌<◌, ◌≤◌, length, if◌then◌else◌, slice_index_or};
ghost use Rattle.timing.specs.Carried.{carried};
ghost use Rattle.domains.specs.declared.place.Place.TheVariants.{Above as Up, Absent as Gone};
ghost use Rattle.timing.specs.Everywhere.{in_domain, response_in, everywhere};
ghost use Rattle.timing.specs.Places.{row_at, rows_above, rows_below, tested};

use crate::carried::{carries, in_time};
use domains::domain::{Domain, MOST_DOMAINS};
use domains::place::Place;
use domains::question::Question;
use frames::limits::MAX_FRAMES;
use frames::row::Row;

// The frames of a list, over a bank of domains.
#[derive(Drop)]
pub struct Frames<'a, B> {
    pub bank: &'a B,
    pub rows: &'a [Row],
    pub ghost few: { length rows.now ≤ 96 },
}

// The same, with a table of where each frame stands, which changes while the rows stay.
#[derive(Drop)]
pub struct Trial<'a, B> {
    pub frames: &'a Frames<'a, B>,
    pub places: &'a [Place],
    pub ghost long: { length places.now ≡ length frames.now.rows.now },
}

impl<B: Domain> Trial<'_, B> {
    // Where domain k is told that frame i stands: a frame that it does not carry is absent.
    fn told_place(&self, k: usize, i: usize) -> Place
        ensures { let rows = self.now.frames.now.rows.now in let places = self.now.places.now in i < length rows → result ≡ (if carried k (row_at rows i) then slice_index_or places i Up else Gone) }
    {
        match self.frames.rows.get(i) {
            Some(row) if carries(k, row.set) => self.places[i],
            _ => Place::Absent,
        }
    }

    // The table with the frames left out that domain k does not carry. It has a place for every number that there may
    // be; those past the rows are not asked about, and so not worked out: lists are mostly far shorter.
    fn told(&self, k: usize) -> [Place; MAX_FRAMES]
        ensures { let rows = self.now.frames.now.rows.now in let places = self.now.places.now in (j : ℕ) → j < length rows → slice_index_or result j Up ≡ (if carried k (row_at rows j) then slice_index_or places j Up else Gone) }
    {
        let mut table = [Place::Absent; MAX_FRAMES];
        for i in 0..self.frames.rows.len() {
            table[i] = self.told_place(k, i);
        }
        table
    }

    // How late frame f can be in domain k.
    pub(crate) fn response_in(&self, f: usize, k: usize) -> Option<u64>
        requires { f < length self.now.frames.now.rows.now }
        ensures { let rows = self.now.frames.now.rows.now in let places = self.now.places.now in result ≡ response_in (B.response self.now.frames.now.bank.now) k (row_at rows f) (rows_above rows places f) (rows_below rows places f) }
    {
        let table = self.told(k);
        let question = Question {
            rows: self.frames.rows,
            places: &table,
            frame: f,
        };
        self.frames.bank.answer(k, &question)
    }

    // Whether frame f is in time in domain k, or not carried there.
    fn in_time_in(&self, f: usize, k: usize) -> bool
        ensures { let rows = self.now.frames.now.rows.now in let places = self.now.places.now in result ≡ in_domain (B.response self.now.frames.now.bank.now) k (row_at rows f) (rows_above rows places f) (rows_below rows places f) }
    {
        match self.frames.rows.get(f) {
            Some(row) if carries(k, row.set) => in_time(self.response_in(f, k), row.deadline),
            _ => true,
        }
    }

    // Whether frame f is in time in every domain of its set. A number that is not in the list is late nowhere.
    pub fn in_time(&self, f: usize) -> bool
        ensures { let rows = self.now.frames.now.rows.now in let places = self.now.places.now in result ≡ tested (everywhere (B.response self.now.frames.now.bank.now)) rows places f }
    {
        (0..MOST_DOMAINS).all(|k| self.in_time_in(f, k))
    }
}
