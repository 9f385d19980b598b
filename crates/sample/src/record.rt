ghost use Rattle.std.specs.Prelude.{◌≡◌};
ghost use Rattle.sample.specs.Parts.{rule_with};

use rules::{RuleRecord, View};
use sets::SmallSet;

// A rule record.
pub fn rule(number: u16, server: u16, attributes: SmallSet, path: SmallSet) -> RuleRecord
    ensures { result ≡ rule_with number server attributes path }
{
    RuleRecord {
        number,
        view: View {
            server,
            attributes,
            path,
        },
    }
}
