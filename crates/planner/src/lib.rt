// The planner: plans a query over any policy and at any tariff.
#![tactic(auto)]

mod answer;
mod laws;
mod list;
mod query;
mod write;

pub use answer::{Planned, QueryRefusal};
pub use laws::release_laws;
pub use query::plan_query;
