// The members of a list of views: the views, and all that members compose to. What they are and what holds of them;
// the code that works them out stands with the book that reads them.
#![tactic(auto)]

mod laws;

pub use laws::members_laws;
