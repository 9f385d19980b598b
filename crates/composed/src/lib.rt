// A book that composes its rules, and a book of either kind.
#![tactic(auto)]

mod any;
mod book;
mod entries;
mod pairs;
mod table;

pub use any::AnyBook;
pub use book::ComposedBook;
