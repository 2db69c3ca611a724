// What a question tells of a list: the frame asked about, and those above and below it, as streams.
ghost use Rattle.std.specs.Prelude.{◌≡◌, ◌≤◌, All, length};
ghost use Rattle.lists.specs.Items.{items};
ghost use Rattle.streams.specs.Demands.{Fit};

use frames::limits::MAX_FRAMES;
use lists::list::ArrayList;
use streams::load::Load;
use streams::stream::Stream;

// As they are gathered and held; `View` lends them.
#[derive(Clone, Copy)]
pub struct Streams {
    pub(crate) own: Stream,
    pub(crate) above: ArrayList<Stream, MAX_FRAMES>,
    pub(crate) below: ArrayList<Stream, MAX_FRAMES>,
    ghost fit: { Fit own },
    ghost over: { All Fit (items above) },
    ghost under: { All Fit (items below) },
}

// As a kind of domain is asked. What stands below does not matter to each kind, so only those to whom it does ask that
// it is within its limits.
#[derive(Clone, Copy)]
pub struct View<'a> {
    pub own: Stream,
    pub above: Load<'a>,
    pub below: &'a [Stream],
    pub ghost fit: { Fit own },
    pub ghost few: { length above.streams.now ≤ 96 },
}

impl Streams {
    pub fn view(&self) -> View<'_>
        ensures own { result.own ≡ self.now.own }
        ensures above { result.above.streams.now ≡ items self.now.above }
        ensures below { result.below.now ≡ items self.now.below }
        ensures less { length result.below.now ≤ 96 }
    {
        View {
            own: self.own,
            above: Load::new(self.above.as_slice()),
            below: self.below.as_slice(),
        }
    }
}
