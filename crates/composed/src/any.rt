ghost use Rattle.composed.specs.AnyBook.{any_charted, any_rules, any_reading, any_fits, any_lawful};
ghost use Rattle.std.proofs.Common.{ap, arith};
ghost use Rattle.composed.specs.declared.any.AnyBook.TheVariants.{Exact, Composed};
ghost use Rattle.composed.specs.Books.{lone_fits, less_fits, alike_fits};
ghost use Rattle.std.specs.Prelude.{suc, length, nat_le, refl};
ghost use Rattle.std.proofs.lemmas.Bool.{leb-true, le-leb};
ghost use Rattle.policy.proofs.Orders.{same_length};

use crate::book::ComposedBook;
use books::ExactBook;
use chart::Chart;
use policy::{Book, BookRefusal, Policy};
use profile::Profile;
use rules::RuleRecord;

// A book of either kind, for callers that choose at run time.
#[derive(Clone, Copy)]
pub enum AnyBook {
    Exact(ExactBook),
    Composed(ComposedBook),
}

impl Policy for AnyBook {
    ghost charted = { any_charted };

    ghost rules = { any_rules };

    ghost reading = { any_reading };

    ghost lawful = { any_lawful };

    fn chart(&self) -> &Chart {
        match self {
            AnyBook::Exact(book) => book.chart(),
            AnyBook::Composed(book) => book.chart(),
        }
    }

    fn allows(&self, server: u16, profile: &Profile) -> bool {
        match self {
            AnyBook::Exact(book) => book.allows(server, profile),
            AnyBook::Composed(book) => book.allows(server, profile),
        }
    }
}

impl Book for AnyBook {
    ghost fits = { any_fits };

    ghost lone = { elim [ Exact b ↦ λ r. refl | Composed b ↦ λ r. lone_fits b.exact.chart r ] };

    ghost less = { elim [
      | Exact b ↦ λ r xs h. le-leb (length xs) 64 (omega (arith, leb-true (suc (length xs)) 64 h))
      | Composed b ↦ λ r xs h. less_fits b.exact.chart r xs h
    ] };

    ghost alike = { elim [
      | Exact b ↦ λ xs ys h. ap (λ n. nat_le n 64) (same_length h)
      | Composed b ↦ λ xs ys h. alike_fits b.exact.chart xs ys h
    ] };

    fn enter(&mut self, given: RuleRecord) -> Result<(), BookRefusal> {
        match self {
            AnyBook::Exact(book) => book.enter(given),
            AnyBook::Composed(book) => book.enter(given),
        }
    }

    fn withdraw(&mut self, number: u16) -> Result<(), BookRefusal> {
        match self {
            AnyBook::Exact(book) => book.withdraw(number),
            AnyBook::Composed(book) => book.withdraw(number),
        }
    }
}
