// The streams of the rows that stand at one place to the frame asked about.
ghost use Rattle.std.specs.Prelude.{◌≡◌, ◌≤◌, length};
ghost use Rattle.frames.specs.Records.{row_of};
ghost use Rattle.domains.specs.Asked.{standing};
ghost use Rattle.kinds.specs.Rows.{stream_by};
ghost use Rattle.kinds.specs.Gathered.{Gathered};

use crate::kind::Kind;
use domains::place::Place;
use domains::question::Question;
use frames::frame::Frame;
use frames::limits::MAX_FRAMES;
use lists::list::ArrayList;
use streams::stream::Stream;

// A frame as a kind sees it.
pub(crate) fn stream_of<K: Kind>(kind: &K, frame: &Frame) -> Stream
    ensures { result ≡ stream_by (K.price kind.now) (row_of frame.now) }
{
    Stream {
        cost: kind.price(frame.payload()),
        period: frame.period(),
    }
}

// The streams of the rows at the place wanted; none where one of these rows is outside the limits of a record.
pub(crate) fn gather<K: Kind>(
    kind: &K,
    question: &Question<'_>,
    wanted: Place,
) -> Option<ArrayList<Stream, MAX_FRAMES>>
    requires { length question.now.rows.now ≤ 96 }
    ensures { Gathered (K.price kind.now) (standing wanted question.now.rows.now question.now.places.now question.now.frame) result }
{
    let mut found = ArrayList::new();
    for (i, row) in question.rows.iter().enumerate() {
        if question.stance(i) == wanted {
            let frame = Frame::try_from(*row).ok()?;
            found.push(stream_of(kind, &frame));
        }
    }
    Some(found)
}
