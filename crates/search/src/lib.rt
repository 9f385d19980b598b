// The search: fills the work table with the cheapest safe ways to have each node of a query at each server.
#![tactic(auto)]

mod cheapest;
mod fill;
mod options;
mod root;
mod rows;
mod run;
mod sends;
mod table;

pub use root::Seat;
pub use run::{Blocked, Searched, search_tree};
pub use table::Table;
