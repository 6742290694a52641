ghost use Rattle.std.specs.Prelude.{◌≡◌, ◌<◌, ◌≤◌, ◌⊎◌, map, length, MatchOption};
ghost use Rattle.timing.specs.Bounds.{term_of, bound_of};

use crate::bound::{Bound, Term};

/// The most terms that a bound may have.
pub const MAX_TERMS: usize = 8;

impl Bound {
    /// The bound with these terms; None where there is none or there are more than eight.
    pub fn new(to: usize, kind: u8, k: u8, terms: &[Term]) -> Option<Bound>
        ensures { MatchOption result ((length terms.now ≡ 0) ⊎ (8 < length terms.now)) (λ b. bound_of b ≡ record { to = to; kind = kind; k = k; terms = map term_of terms.now }) }
    {
        let count = terms.len();
        if count == 0 || count > MAX_TERMS {
            return None;
        }
        let mut own = [Term { from: 0, delay: 0 }; MAX_TERMS];
        own[..count].copy_from_slice(terms);
        Some(Bound {
            to,
            kind,
            k,
            count,
            terms: own,
        })
    }

    pub fn to(&self) -> usize
        ensures { result ≡ (bound_of self.now).to }
    {
        self.to
    }

    pub fn kind(&self) -> u8
        ensures { result ≡ (bound_of self.now).kind }
    {
        self.kind
    }

    pub fn k(&self) -> u8
        ensures { result ≡ (bound_of self.now).k }
    {
        self.k
    }

    pub fn terms(&self) -> &[Term]
        ensures terms { map term_of result.now ≡ (bound_of self.now).terms }
        ensures some { 1 ≤ length result.now }
        ensures most { length result.now ≤ 8 }
    {
        &self.terms[..self.count]
    }
}
