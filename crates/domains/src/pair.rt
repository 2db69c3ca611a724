// Two domains side by side are again a domain: the first numbers are the first's.
ghost use Rattle.std.specs.Prelude.{◌≡◌, Some, None};
ghost use Rattle.domains.specs.declared.pair.Side.TheVariants.{First, Second};
ghost use Rattle.domains.specs.Pairs.{pair_count, by_number};
ghost use Rattle.domains.specs.Pairing.{pair_duties};

use crate::domain::{Domain, MOST_DOMAINS};
use crate::question::Question;
use frames::frame::Frame;

#[derive(Clone, Copy)]
pub struct Pair<A, B> {
    first: A,
    second: B,
}

// The half that a number of the pair falls to, with the number that it has there.
enum Side {
    First(usize),
    Second(usize),
}

impl<A: Domain, B: Domain> Pair<A, B> {
    pub fn new(first: A, second: B) -> Pair<A, B>
        ensures first { result.first ≡ first }
        ensures second { result.second ≡ second }
    {
        Pair { first, second }
    }

    fn side(&self, k: usize) -> Option<Side>
        ensures { result ≡ by_number (A.Domain.count self.now.first) k (λ j. Some (First j)) (λ j. Some (Second j)) None }
    {
        if k >= MOST_DOMAINS {
            return None;
        }
        let n = self.first.count();
        Some(if k < n {
            Side::First(k)
        } else {
            Side::Second(k - n)
        })
    }
}

impl<A: Domain, B: Domain> Domain for Pair<A, B> {
    ghost count = { λ p. pair_count (A.Domain.count p.first) (B.Domain.count p.second) };

    ghost cost = { λ p k q. by_number (A.Domain.count p.first) k (λ j. A.Domain.cost p.first j q) (λ j. B.Domain.cost p.second j q) 0 };

    ghost response = { λ p k f above below. by_number (A.Domain.count p.first) k (λ j. A.Domain.response p.first j f above below) (λ j. B.Domain.response p.second j f above below) None };

    ghost duties = { pair_duties (λ p. p.first) (λ p. p.second) A.Domain.duties B.Domain.duties };

    fn count(&self) -> usize {
        (self.first.count() + self.second.count()).min(MOST_DOMAINS)
    }

    fn cost(&self, k: usize, frame: &Frame) -> u64 {
        match self.side(k) {
            Some(Side::First(j)) => self.first.cost(j, frame),
            Some(Side::Second(j)) => self.second.cost(j, frame),
            None => 0,
        }
    }

    fn answer(&self, k: usize, question: &Question<'_>) -> Option<u64> {
        match self.side(k)? {
            Side::First(j) => self.first.answer(j, question),
            Side::Second(j) => self.second.answer(j, question),
        }
    }
}
