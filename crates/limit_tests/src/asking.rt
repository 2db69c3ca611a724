// Questions as the tests ask them.
use domains::place::Place;
use domains::question::Question;
use frames::row::Row;

pub(crate) fn about<'a>(rows: &'a [Row], places: &'a [Place], frame: usize) -> Question<'a> {
    Question {
        rows,
        places,
        frame,
    }
}
