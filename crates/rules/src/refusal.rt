ghost use Rattle.std.specs.Prelude.{◌≡◌};
ghost use Rattle.rules.specs.Refusals.{refusal_number};

use thiserror::Error;

// Why a rule is refused, whatever else is in force.
#[derive(Clone, Copy, Debug, PartialEq, Eq, Error)]
pub enum RuleRefusal {
    #[error("not a number from 1 to 999")]
    Number = 20,
    #[error("a server that is not known")]
    Server = 21,
    #[error("no attribute, or one that is not known")]
    Attributes = 22,
    #[error("a link that is not known, or a path that does not join the rule's relations into one tree")]
    Path = 23,
}

impl RuleRefusal {
    // The number under which this refusal is reported.
    pub fn number(self) -> u16
        ensures { result ≡ refusal_number self }
    {
        self as u16
    }
}
