//! The rule sets that ship, by number.
ghost use Rattle.std.specs.Prelude.{◌≡◌, ok_or};
ghost use Rattle.embed.specs.Rules.{rule_numbered};

/// One of the rule sets that ship.
#[derive(Clone, Copy, PartialEq, Eq)]
pub enum RuleChoice {
    Plain,
    Vote,
    Group,
}

/// A number that no rule set has.
#[derive(Clone, Copy, PartialEq, Eq)]
pub struct UnknownRules {
    pub number: u8,
}

/// The rule set with this number.
impl TryFrom<u8> for RuleChoice {
    type Error = UnknownRules;

    ghost try_from_gives = { λ number r. r ≡ ok_or (rule_numbered number) (record { number = number }) };

    fn try_from(number: u8) -> Result<RuleChoice, UnknownRules> {
        match number {
            0 => Ok(RuleChoice::Plain),
            1 => Ok(RuleChoice::Vote),
            2 => Ok(RuleChoice::Group),
            _ => Err(UnknownRules { number }),
        }
    }
}

/// Asks a question under the rule set with this number, which is `$set` in it; the function called answers a failure
/// where there is none.
// a `match` written out, not a `dyn`: the solver is compiled for each rule set
#[macro_export]
macro_rules! under {
    ($number:expr, |$set:ident| $question:expr) => {
        match $crate::rule_choice::RuleChoice::try_from($number)? {
            $crate::rule_choice::RuleChoice::Plain => {
                let $set = rules::Plain {};
                $question
            }
            $crate::rule_choice::RuleChoice::Vote => {
                let $set = rules::Vote {};
                $question
            }
            $crate::rule_choice::RuleChoice::Group => {
                let $set = rules::Group {};
                $question
            }
        }
    };
}
