// Query trees: their nodes, and the questions that they have to pass.
#![tactic(auto)]

mod check;
mod checked;
mod node;
mod refusal;

pub use check::{check_tree, has_fit_count};
pub use checked::Checked;
pub use node::Node;
pub use refusal::TreeRefusal;
