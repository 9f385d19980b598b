// Books and lists of rules that are read exactly.
#![tactic(auto)]

mod exact;
mod fault;
mod sealed;
mod slots;

pub use exact::ExactBook;
pub use fault::Fault;
pub use sealed::SealedList;
pub use slots::{free_slot, holds_number, slot_of};
