// The broker: rules are entered and withdrawn, and queries are judged by the rules that stand at that moment.
#![tactic(auto)]

mod broker;
mod laws;
mod run;

pub use broker::Broker;
pub use laws::histories_alike;
pub use run::{Answer, Call};
