// What the example programs share: the sample chart, rule records, and the text of sets and profiles.
#![tactic(auto)]

mod build;
mod record;
mod text;

pub use build::sample_chart;
pub use record::rule;
pub use text::{ProfileText, SetText};
