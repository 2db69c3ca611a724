// The look at a list that comes before every answer.
ghost use Rattle.kinds.specs.Looked.{Looked};

use crate::gather::{gather, stream_of};
use crate::kind::Kind;
use crate::view::Streams;
use domains::place::Place;
use domains::question::Question;
use frames::frame::Frame;
use frames::limits::MAX_FRAMES;

// None where the question has no answer, whatever is asked: too many rows, a number that is not in the list,
// or a row that is told of and outside the limits of a record.
pub fn look<K: Kind>(kind: &K, question: &Question<'_>) -> Option<Streams>
    ensures { Looked (K.price kind.now) question.now.rows.now question.now.places.now question.now.frame result }
{
    if question.rows.len() > MAX_FRAMES || question.frame >= question.rows.len() {
        return None;
    }
    let frame = Frame::try_from(question.rows[question.frame]).ok()?;
    let above = gather(kind, question, Place::Above)?;
    let below = gather(kind, question, Place::Below)?;
    Some(Streams {
        own: stream_of(kind, &frame),
        above,
        below,
    })
}
