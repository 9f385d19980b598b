// Policies and books: who may see what, by the rules in force.
#![tactic(auto)]

mod reading;
mod refusal;
mod traits;

pub use reading::{Viewed, is_inside, some_view_allows, view_allows};
pub use refusal::BookRefusal;
pub use traits::{Book, Policy};
