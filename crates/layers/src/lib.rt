// Layers over any policy: denials, and a carrier.
#![tactic(auto)]

mod carrier;
mod denial;
mod denials;
mod make;
mod questions;
mod refusal;

pub use carrier::Carrier;
pub use denial::Denial;
pub use denials::Denials;
pub use questions::check_denial;
pub use refusal::LayerRefusal;
