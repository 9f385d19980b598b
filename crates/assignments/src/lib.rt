// Assignments of servers to the nodes of a query, what they release and cost, and the table of the cheapest safe ones.
#![tactic(auto)]

mod laws;
mod mode;
mod parts;

pub use laws::{assignment_laws, table_laws};
pub use mode::Mode;
pub use parts::{Place, Release, Step};
