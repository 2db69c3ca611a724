// The duties for whole questions, in their general form, as whoever builds on the trait uses them.
ghost use Rattle.domains.specs.Replies.{CallLaws};

use crate::domain::Domain;

// Two questions about the same record with the same records above and below have the same answer, an answer is
// bounded, and it does not grow when frames are taken out of either set or moved from above to below.
pub fn calls_keep_duties<D: Domain>(domain: &D, k: usize)
    ensures { CallLaws (D.response domain.now k) }
{}
