// Profiles: what a result tells whoever sees it.
#![tactic(auto)]

mod join;
mod laws;
mod shape;

pub use join::{Join, Side, orient};
pub use laws::profile_laws;
pub use shape::Profile;
