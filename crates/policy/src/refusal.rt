ghost use Rattle.std.specs.Prelude.{◌≡◌};
ghost use Rattle.policy.specs.Refusals.{refusal_number};
ghost use Rattle.policy.specs.declared.refusal.BookRefusal.TheVariants.{Rule};

use rules::RuleRefusal;
use thiserror::Error;

// Why a book refuses an entry or a withdrawal.
#[derive(Clone, Copy, Debug, PartialEq, Eq, Error)]
pub enum BookRefusal {
    // the rule does not pass its own questions
    #[error(transparent)]
    Rule(RuleRefusal),
    #[error("its number is in force already")]
    InForce,
    #[error("the rules with this one do not fit")]
    Full,
    #[error("the number to withdraw is not in force")]
    NotInForce,
}

impl BookRefusal {
    // The number under which this refusal is reported.
    pub fn number(self) -> u16
        ensures { result ≡ refusal_number self }
    {
        match self {
            BookRefusal::Rule(refusal) => refusal.number(),
            BookRefusal::InForce => 24,
            BookRefusal::Full => 25,
            BookRefusal::NotInForce => 26,
        }
    }
}

impl From<RuleRefusal> for BookRefusal {
    ghost from_gives = { λ refusal answer. answer ≡ Rule refusal };

    fn from(refusal: RuleRefusal) -> Self {
        Self::Rule(refusal)
    }
}
