ghost use Rattle.std.specs.Prelude.{◌≡◌, pos, neg_ℤ};
ghost use Rattle.embed.specs.Answers.{failure_number, answer_number};
ghost use Rattle.embed.specs.declared.failure.Failure.TheVariants.{NoSuchRules, Text, Sheet, NoMemory};

use crate::rule_choice::UnknownRules;
use records_fault::fault::LoadFault;
use sheet::fault::Refusal;
use std::alloc::AllocError;

/// Why a call does not do what it was asked for.
#[derive(Clone, Copy, PartialEq, Eq)]
pub enum Failure {
    /// no rule set has this number
    NoSuchRules,
    /// the text is not loaded
    Text(LoadFault),
    /// the sheet does not say
    Sheet(Refusal),
    /// too few slots were handed in
    TooFewSlots,
    /// too few bytes were handed in
    TooFewBytes,
    NoMemory,
}

// by hand, as all four: the derive's conversion has no contract, and clauses name the failure that `?` makes
impl From<AllocError> for Failure {
    ghost from_gives = { λ _ r. r ≡ NoMemory };

    fn from(_error: AllocError) -> Failure {
        Failure::NoMemory
    }
}

impl From<UnknownRules> for Failure {
    ghost from_gives = { λ _ r. r ≡ NoSuchRules };

    fn from(_unknown: UnknownRules) -> Self {
        Self::NoSuchRules
    }
}

impl From<LoadFault> for Failure {
    ghost from_gives = { λ fault r. r ≡ Text fault };

    fn from(fault: LoadFault) -> Failure {
        Failure::Text(fault)
    }
}

impl From<Refusal> for Failure {
    ghost from_gives = { λ refusal r. r ≡ Sheet refusal };

    fn from(refusal: Refusal) -> Self {
        Self::Sheet(refusal)
    }
}

impl Failure {
    /// The number by which users know it.
    // a number, as C is answered
    pub fn number(self) -> u16
        ensures { result ≡ failure_number self }
    {
        match self {
            Failure::NoSuchRules => 13,
            Failure::Text(fault) => u16::from(fault.number()),
            Failure::Sheet(refusal) => u16::from(refusal.number()),
            Failure::TooFewSlots => 16,
            Failure::TooFewBytes => 19,
            Failure::NoMemory => 1000,
        }
    }

    /// What a call answers that fails so: minus its number.
    pub fn answer(self) -> i64
        ensures { result ≡ neg_ℤ (pos (failure_number self)) }
    {
        -i64::from(self.number())
    }
}

/// What a call answers: the value, or minus the number of the failure.
// here and not in embed_c: every static library with calls of its own answers so, and none can use another
pub fn answer(res: Result<u32, Failure>) -> i64
    ensures { result ≡ answer_number res }
{
    match res {
        Ok(value) => i64::from(value),
        Err(failure) => failure.answer(),
    }
}
