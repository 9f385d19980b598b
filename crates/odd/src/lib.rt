// A tariff and a book that keep the laws asked of them and no more: what is proved of all tariffs and books is tried on them.
#![tactic(auto)]

mod book;
mod doubling;

pub use book::SingleRuleBook;
pub use doubling::{Doubled, DoublingTariff};
