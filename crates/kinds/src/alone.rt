// A kind as a domain: it has the number 0, and there is no other.
ghost use Rattle.std.specs.Prelude.{◌≡◌};
ghost use Rattle.frames.specs.Payloads.{payload};
ghost use Rattle.domains.specs.Asked.{asked};
ghost use Rattle.kinds.specs.Rows.{alone_cost, alone_response};

use crate::kind::Kind;
use crate::look::look;
use domains::question::Question;
use frames::frame::Frame;

pub fn cost_alone<K: Kind>(kind: &K, k: usize, frame: &Frame) -> u64
    ensures { result ≡ alone_cost K.price kind.now k (payload frame.now.fill) }
{
    if k == 0 {
        kind.price(frame.payload())
    } else {
        0
    }
}

pub fn answer_alone<K: Kind>(kind: &K, k: usize, question: &Question<'_>) -> Option<u64>
    ensures { result ≡ asked (alone_response K.price K.time kind.now k) question.now.rows.now question.now.places.now question.now.frame }
{
    if k != 0 {
        return None;
    }
    let look = look(kind, question)?;
    kind.time(&look.view())
}
