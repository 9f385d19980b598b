use crate::mode::Mode;
use profile::Profile;

// What a node of a plan is given: its executor, and the mode of a join (`Local` off joins).
#[derive(Clone, Copy)]
pub struct Step {
    pub executor: u16,
    pub mode: Mode,
}

// A profile that one server sends to another.
#[derive(Clone, Copy)]
pub struct Release {
    pub sender: u16,
    pub receiver: u16,
    pub profile: Profile,
}

// The cheapest way to have a node's result at a server: its price, the mode, and the server of the other operand
// (itself in mode `Local` and off joins).
#[derive(Clone, Copy)]
pub struct Place<P> {
    pub price: P,
    pub mode: Mode,
    pub other: u16,
}
