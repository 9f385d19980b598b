ghost use Rattle.std.specs.Prelude.{◌≡◌, Some};
ghost use Rattle.plans.specs.Cases.{cases_planned};

use layers::Denial;
use queries::Node;
use rules::RuleRecord;
use sample::rule;
use sets::SmallSet;

// The queries that are planned, and the rules and the denial that they are planned under.
#[derive(Clone, Copy)]
pub struct Cases {
    pub joined: [Node; 3],
    pub alone: [Node; 1],
    pub whole: RuleRecord,
    pub reply: RuleRecord,
    pub column: RuleRecord,
    pub denial: Denial,
}

// Relation 0 joined with relation 1 over link 0, and relation 0 alone; server 1 may see 0,1,2; server 0 may see 0,3,4 on
// path 0 and server 1 may see 0; server 1 may not see 1.
pub fn sample_cases() -> Option<Cases>
    ensures { result ≡ Some cases_planned }
{
    let leaf = Node::Leaf { relation: 0 };
    let other = Node::Leaf { relation: 1 };
    let join = Node::Join {
        left: 0,
        right: 1,
        link: 0,
    };
    let none = SmallSet::empty();
    let zero = SmallSet::single(0)?;
    let one = SmallSet::single(1)?;
    Some(Cases {
        joined: [leaf, other, join],
        alone: [leaf],
        whole: rule(1, 1, zero.insert(1)?.insert(2)?, none),
        reply: rule(2, 0, zero.insert(3)?.insert(4)?, zero),
        column: rule(3, 1, zero, none),
        denial: Denial {
            server: 1,
            attributes: one,
        },
    })
}
