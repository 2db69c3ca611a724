// What queues for a bus.
ghost use Rattle.std.specs.Prelude.{◌≡◌, ◌∷◌};

use arrayvec::ArrayVec;
use frames::limits::MAX_FRAMES;
use kinds::view::View;
use streams::stream::Stream;

// A frame, and a whole list of others above it.
const MAX_QUEUE: usize = MAX_FRAMES + 1;

// The frame asked about and those above it, in one list.
pub(crate) fn queue_of(view: &View<'_>) -> ArrayVec<Stream, MAX_QUEUE>
    ensures { result.items ≡ view.now.own ∷ view.now.above.streams.now }
{
    let mut queue = ArrayVec::new();
    queue.push(view.own);
    queue.try_extend_from_slice(view.above.as_slice()).unwrap();
    queue
}
