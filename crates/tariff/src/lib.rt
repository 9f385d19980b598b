// Tariffs: what releases cost, in bytes or by the grade of the line.
#![tactic(auto)]

mod bytes;
mod grades;
mod traits;

pub use bytes::ByteTariff;
pub use grades::GradeTariff;
pub use traits::Tariff;
