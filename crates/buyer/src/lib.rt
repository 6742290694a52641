//! A rule set as a buyer writes one, with nothing but the public traits, words and lemmas of `rules`.
#![tactic(auto)]

ghost use Rattle.buyer.specs.Lead.{lead_added, lead_holds};
ghost use Rattle.buyer.specs.LeadRuleSetLemmas.{lead_adds};

use rules::{AddedKinds, first_terms, other_terms};

/// Adds kind 1 with K from 1 to the count less one: the first term, or at least K of the others.
#[derive(Clone, Copy)]
pub struct Lead {}

impl AddedKinds for Lead {
    /// How many of the others are enough.
    type Kind = u8;

    ghost added = { lead_added };

    ghost holds = { lead_holds };

    ghost asks = { lead_holds 1 };

    ghost owed = { lead_adds };

    fn read(kind: u8, k: u8, count: u8) -> Option<u8> {
        match kind {
            1 if (1..count).contains(&k) => Some(k),
            _ => None,
        }
    }

    fn passes(others: u8, _count: u8, set: u8) -> bool {
        first_terms(1, set) > 0 || other_terms(1, set).count_ones() >= u32::from(others)
    }
}
