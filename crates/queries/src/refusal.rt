ghost use Rattle.std.specs.Prelude.{◌≡◌};
ghost use Rattle.queries.specs.Refusals.{refusal_number, refusal_place};

use thiserror::Error;

// Why a query tree is refused. A node's refusal has the node's number.
#[derive(Clone, Copy, Debug, PartialEq, Eq, Error)]
pub enum TreeRefusal {
    #[error("not 1 to 63 nodes")]
    Count,
    #[error("a buffer that is too short")]
    Room,
    #[error("node {0}: an operand that is not an earlier node, is used already or is named twice")]
    Operand(u16),
    #[error("node {0}: a relation that is not known, or stands at an earlier leaf")]
    Relation(u16),
    #[error("node {0}: no attribute, or one that the operand does not show")]
    Attributes(u16),
    #[error("node {0}: a link that is not known, or has not one end shown on each side")]
    Link(u16),
    #[error("node {0}: a node other than the root that nothing uses")]
    Unused(u16),
}

impl TreeRefusal {
    // The number under which this refusal is reported.
    pub fn number(self) -> u16
        ensures { result ≡ refusal_number self }
    {
        match self {
            TreeRefusal::Count => 30,
            TreeRefusal::Operand(_) | TreeRefusal::Unused(_) => 31,
            TreeRefusal::Relation(_) => 32,
            TreeRefusal::Attributes(_) => 33,
            TreeRefusal::Link(_) => 34,
            TreeRefusal::Room => 35,
        }
    }

    // The node at which it is reported; 0 where it is of no node.
    pub fn place(self) -> u16
        ensures { result ≡ refusal_place self }
    {
        match self {
            TreeRefusal::Count | TreeRefusal::Room => 0,
            TreeRefusal::Operand(node)
            | TreeRefusal::Relation(node)
            | TreeRefusal::Attributes(node)
            | TreeRefusal::Link(node)
            | TreeRefusal::Unused(node) => node,
        }
    }
}
