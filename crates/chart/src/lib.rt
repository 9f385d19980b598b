// The chart: which servers, relations, attributes, links and lines there are.
#![tactic(auto)]

mod build;
mod laws;
mod lookup;
mod parts;
mod refusal;
mod state;

pub use laws::chart_laws;
pub use parts::Grade;
pub use refusal::ChartRefusal;
pub use state::Chart;
