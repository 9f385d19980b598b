// Rules on who may see what, and the questions that a rule has to pass.
#![tactic(auto)]

mod check;
mod laws;
mod refusal;
mod rule;
mod touched;
mod tree_test;
mod view;

pub use check::check_rule;
pub use laws::rule_laws;
pub use refusal::RuleRefusal;
pub use rule::Rule;
pub use touched::{relations, relations_of_link};
pub use tree_test::is_tree;
pub use view::{RuleRecord, View};
