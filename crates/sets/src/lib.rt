// Sets of numbers below 64: the attributes, links or relations of a chart.
#![tactic(auto)]

mod elements;
mod laws;
mod small_set;

pub use elements::Elements;
pub use laws::set_laws;
pub use small_set::SmallSet;
