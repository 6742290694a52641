//! Delay rules: which terms of a bound must allow it.
//!
//! A rule set answers two questions, `admits` and `enough`. `RuleSet` says what an implementation answers and
//! which laws it owes; `Plain`, `Vote` and `Group` are three of them, each given by its `AddedKinds`. A set of terms
//! is a mask, bit i for term i.
#![tactic(auto)]

ghost use Rattle.std.specs.Prelude.{◌≡◌, ℕ, ◌<◌, Bool, false};
ghost use Rattle.rules.specs.Laws.{Admits, Enough, Laws};
ghost use Rattle.rules.specs.Masks.{all_terms, first_terms, other_terms, is_set};
ghost use Rattle.rules.specs.Added.{admits_with, enough_with, Adds};
ghost use Rattle.rules.specs.AddedLemmas.{laws_with};
ghost use Rattle.rules.specs.Sets.{plain_added, plain_holds, vote_added, vote_holds, group_added, group_holds};
ghost use Rattle.rules.specs.SetsLemmas.{plain_adds, vote_adds, group_adds};
ghost use Rattle.rules.specs.Asked.{asked_by, holds_with, voted, ReadsAs};

/// Anything that answers two questions, with one fixed yes or no for each.
// kind, K and mask are bytes, not types of their own: a set of a buyer has its own kinds, and the text of a sheet has them as numbers
pub trait RuleSet {
    /// What is admitted.
    ghost admitted: { Self → Admits };

    /// Which sets are enough.
    ghost suffices: { Self → Enough };

    /// Is a bound of this kind and K, with so many terms, admitted?
    fn admits(&self, kind: u8, k: u8, count: u8) -> bool
        ensures answer { result ≡ admitted self.now kind k count }
        ensures unchanged { self.exit.now ≡ self.entry.now };

    /// Is this set of its terms enough for such a bound?
    fn enough(&self, kind: u8, k: u8, count: u8, set: u8) -> bool
        ensures answer { result ≡ suffices self.now kind k count set }
        ensures unchanged { self.exit.now ≡ self.entry.now };

    /// The laws owed by every implementation.
    ghost lawful: { (rules : Self) → Laws (admitted rules) (suffices rules) };
}

/// Those of the first K terms that are in the set.
pub fn first_terms(k: u8, set: u8) -> u8
    ensures { result ≡ first_terms k set }
{
    if k < 8 { set & all_terms(k) } else { set }
}

/// All of so many terms, fewer than eight.
fn all_terms(count: u8) -> u8
    requires { count < 8 }
    ensures { result ≡ all_terms count }
{
    (1 << count) - 1
}

/// Those of the terms after the first K that are in the set, numbered from 0 again.
pub fn other_terms(k: u8, set: u8) -> u8
    ensures { result ≡ other_terms k set }
{
    if k < 8 { set >> k } else { 0 }
}

/// Whether the mask is a set of so many terms: no bit stands at or past the count.
pub fn is_set(count: u8, set: u8) -> bool
    ensures { result ≡ is_set count set }
{
    other_terms(count, set) == 0
}

/// A rule set, given by the kinds that it adds to kind 0, "latest". The rest is common to all that are made so:
/// one to eight terms, no bit at or past the count, and kind 0 with K 0, for which any term is enough.
pub trait AddedKinds {
    /// An added kind with its K, as it was read.
    type Kind: Copy;

    /// Which kinds are added.
    ghost added: { Admits };

    /// Which sets are enough for them.
    ghost holds: { Enough };

    /// Which sets of so many terms are enough for a kind that was read.
    ghost asks: { Self.Kind → ℕ → ℕ → Bool };

    /// Reads a kind and a K, for so many terms; None where that is not added.
    fn read(kind: u8, k: u8, count: u8) -> Option<Self::Kind>
        ensures { ReadsAs added holds asks kind k count result };

    /// Is this set of so many terms enough for the kind?
    fn passes(kind: Self::Kind, count: u8, set: u8) -> bool
        ensures { result ≡ asks kind count set };

    /// What the added kinds owe.
    ghost owed: { Adds added holds };
}

impl<S: AddedKinds> RuleSet for S {
    ghost admitted = { λ _. admits_with S.added };

    ghost suffices = { λ _. enough_with S.added S.holds };

    ghost lawful = { λ rules. laws_with S.owed };

    fn admits(&self, kind: u8, k: u8, count: u8) -> bool {
        read::<S>(kind, k, count).is_some()
    }

    fn enough(&self, kind: u8, k: u8, count: u8, set: u8) -> bool {
        is_set(count, set)
            && match read::<S>(kind, k, count) {
                Some(Asked::Any) => set > 0,
                Some(Asked::Added(kind)) => S::passes(kind, count, set),
                None => false,
            }
    }
}

/// What a bound asks of its terms: any of them, or what an added kind asks.
// an enum of its own, not an Option: `Any` is a kind like the others, and `read` answers None for what is no kind
#[derive(Clone, Copy)]
enum Asked<Kind> {
    Any,
    Added(Kind),
}

/// Reads a kind and a K, for so many terms; None where that is not admitted.
fn read<S: AddedKinds>(kind: u8, k: u8, count: u8) -> Option<Asked<S::Kind>>
    ensures { ReadsAs (admits_with S.added) (holds_with S.holds) (asked_by S.asks) kind k count result }
{
    if !(1..=8).contains(&count) {
        return None;
    }
    match kind {
        0 => (k == 0).then_some(Asked::Any),
        _ => S::read(kind, k, count).map(Asked::Added),
    }
}

/// Kind 0, "latest": any term is enough. Nothing else.
#[derive(Clone, Copy)]
pub struct Plain {}

impl AddedKinds for Plain {
    /// None is ever read.
    type Kind = ();

    ghost added = { plain_added };

    ghost holds = { plain_holds };

    ghost asks = { λ _ n set. false };

    ghost owed = { plain_adds };

    fn read(_kind: u8, _k: u8, _count: u8) -> Option<()> {
        None
    }

    fn passes(_kind: (), _count: u8, _set: u8) -> bool {
        false
    }
}

/// Adds kind 1 with K 0, "every": all terms are needed; and kind 2 with K from 1 to the count, "count": at least K are.
#[derive(Clone, Copy)]
pub struct Vote {}

/// What Vote's added kinds ask.
#[derive(Clone, Copy)]
pub enum Voted {
    Every,
    AtLeast(u8),
}

impl AddedKinds for Vote {
    type Kind = Voted;

    ghost added = { vote_added };

    ghost holds = { vote_holds };

    ghost asks = { voted };

    ghost owed = { vote_adds };

    fn read(kind: u8, k: u8, count: u8) -> Option<Voted> {
        match kind {
            1 if k == 0 => Some(Voted::Every),
            2 if (1..=count).contains(&k) => Some(Voted::AtLeast(k)),
            _ => None,
        }
    }

    fn passes(kind: Voted, count: u8, set: u8) -> bool {
        match kind {
            Voted::Every => set.count_ones() >= u32::from(count),
            Voted::AtLeast(k) => set.count_ones() >= u32::from(k),
        }
    }
}

/// Adds kind 1 with K from 1 to 7 and more than K terms: one of the first K terms, and one of the others.
#[derive(Clone, Copy)]
pub struct Group {}

impl AddedKinds for Group {
    /// The size of the first group.
    type Kind = u8;

    ghost added = { group_added };

    ghost holds = { group_holds };

    ghost asks = { group_holds 1 };

    ghost owed = { group_adds };

    fn read(kind: u8, k: u8, count: u8) -> Option<u8> {
        match kind {
            1 if (1..=7).contains(&k) && k < count => Some(k),
            _ => None,
        }
    }

    fn passes(first: u8, _count: u8, set: u8) -> bool {
        first_terms(first, set) > 0 && other_terms(first, set) > 0
    }
}
