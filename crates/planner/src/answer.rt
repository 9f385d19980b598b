ghost use Rattle.std.specs.Prelude.{◌≡◌};
ghost use Rattle.planner.specs.declared.answer.QueryRefusal.TheVariants as variants;
ghost use Rattle.planner.specs.Refusals.{refusal_number, refusal_place};

use queries::TreeRefusal;
use search::Blocked;
use thiserror::Error;

// What a plan returns: the executor of the root, the price, and how many releases were listed.
#[derive(Clone, Copy)]
pub struct Planned<P> {
    pub executor: u16,
    pub price: P,
    pub releases: u16,
}

// Why a query is not planned.
#[derive(Clone, Copy, Debug, PartialEq, Eq, Error)]
pub enum QueryRefusal {
    // the query does not pass its questions
    #[error(transparent)]
    Tree(TreeRefusal),
    // the lowest node whose own subtree has no safe assignment
    #[error("node {0}: no safe assignment")]
    Blocked(u16),
}

impl From<TreeRefusal> for QueryRefusal {
    ghost from_gives = { λ tree r. r ≡ variants.Tree tree };

    fn from(refusal: TreeRefusal) -> QueryRefusal {
        QueryRefusal::Tree(refusal)
    }
}

impl From<Blocked> for QueryRefusal {
    ghost from_gives = { λ blocked r. r ≡ variants.Blocked blocked.node };

    fn from(blocked: Blocked) -> QueryRefusal {
        QueryRefusal::Blocked(blocked.node)
    }
}

impl QueryRefusal {
    // The number under which this refusal is reported.
    pub fn number(self) -> u16
        ensures { result ≡ refusal_number self }
    {
        match self {
            QueryRefusal::Tree(refusal) => refusal.number(),
            QueryRefusal::Blocked(_) => 40,
        }
    }

    // The node at which it is reported; 0 where it is of no node.
    pub fn place(self) -> u16
        ensures { result ≡ refusal_place self }
    {
        match self {
            QueryRefusal::Tree(refusal) => refusal.place(),
            QueryRefusal::Blocked(node) => node,
        }
    }
}
