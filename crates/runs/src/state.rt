// A plan in either state.
use plan::closed::Closed;
use plan::draft::Draft;

#[derive(Drop)]
pub enum Plan<B> {
    Open(Draft<B>),
    Shut(Closed<B>),
}
