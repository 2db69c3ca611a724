// An order of all frames of a list, or the conflict where there is none.
ghost use Rattle.timing.specs.Everywhere.{everywhere};
ghost use Rattle.ordering.specs.Answers.{Answered};

use crate::conflicts::{Conflict, find_conflict};
use crate::places::arrange;
use domains::domain::Domain;
use domains::place::Place;
use frames::limits::MAX_FRAMES;
use lists::list::ArrayList;
use timing::everywhere::Frames;

// The number of the frame at each place, and how many examinations it took.
#[derive(Clone, Copy)]
pub struct Placement {
    pub examinations: usize,
    pub numbers: ArrayList<u8, MAX_FRAMES>,
}

pub fn find_order<B: Domain>(frames: &Frames<B>) -> Result<Placement, Conflict>
    ensures { Answered (everywhere (B.response frames.now.bank.now)) frames.now.rows.now result }
{
    let count = frames.rows.len();
    let mut places = [Place::Above; MAX_FRAMES];
    // As `ok_or_else` the proof did not close: it was told nothing of the closure's conflict.
    match arrange(frames, &mut places[..count], count) {
        Some(placement) => Ok(placement),
        None => Err(find_conflict(frames)),
    }
}
