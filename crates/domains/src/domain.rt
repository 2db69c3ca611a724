// The two questions that every kind of domain answers: what a frame costs, and how late it can be.
ghost use Rattle.std.specs.Prelude.{◌≡◌, ℕ, List, Option};
ghost use Rattle.frames.specs.declared.row.Row.{Row};
ghost use Rattle.frames.specs.Payloads.{payload};
ghost use Rattle.domains.specs.Asked.{asked};
ghost use Rattle.domains.specs.Duties.{Duties};

use crate::question::Question;
use frames::frame::Frame;

// A bank has at most four domains.
pub const MOST_DOMAINS: usize = 4;

pub trait Domain {
    // How many domains there are, numbered from 0.
    ghost count: { Self → ℕ };

    // The time that a payload takes in a domain.
    ghost cost: { Self → ℕ → ℕ → ℕ };

    // The response time in a domain of a frame, with frames above it and frames below it; none where there is no bound.
    ghost response: { Self → ℕ → Row → List Row → List Row → Option ℕ };

    fn count(&self) -> usize
        ensures { result ≡ count self.now };

    // What the frame costs in domain k; 0 in a domain that is not there.
    fn cost(&self, k: usize, frame: &Frame) -> u64
        ensures { result ≡ cost self.now k (payload frame.now.fill) };

    // How late the frame asked about can be in domain k.
    fn answer(&self, k: usize, question: &Question<'_>) -> Option<u64>
        ensures { result ≡ asked (response self.now k) question.now.rows.now question.now.places.now question.now.frame };

    // What each kind owes.
    ghost duties: { Duties count cost response };
}
