ghost use Rattle.std.specs.Prelude.{◌≡◌, true, [], length, nat_le};
ghost use Rattle.std.specs.List.{list_all};
ghost use Rattle.std.proofs.Common.{ap, rules, arith};
ghost use Rattle.chart.specs.Charts.{layout};
ghost use Rattle.rules.specs.Rules.{well_formed};
ghost use Rattle.policy.specs.Reading.{exact_reading};
ghost use Rattle.policy.specs.Books.{apart};
ghost use Rattle.books.specs.Slots.{held, exact_fits};
ghost use Rattle.books.specs.ExactLaws.{exact_lawful};
ghost use Rattle.policy.proofs.Orders.{same_length};

use crate::slots::{free_slot, holds_number, slot_of};
use chart::Chart;
use policy::{Book, BookRefusal, Policy, some_view_allows};
use profile::Profile;
use rules::{Rule, RuleRecord, check_rule};

// A book that reads its rules exactly. It has a slot for each of 64 rules; a withdrawal frees its slot.
#[derive(Clone, Copy)]
pub struct ExactBook {
    chart: Chart,
    slots: [Option<Rule>; 64],
    ghost sized: { length slots ≡ 64 },
    ghost distinct: { apart (held slots) ≡ true },
    ghost formed: { list_all (well_formed (layout chart)) (held slots) ≡ true },
}

impl ExactBook {
    // A book with no rules, which reads exactly and takes 64 rules.
    pub fn new(chart: Chart) -> ExactBook
        ensures chart { result.chart ≡ chart }
        ensures rules { held result.slots ≡ [] }
        ensures told { ⟦<ExactBook as Policy>⟧.charted result ≡ chart }
        ensures listed { ⟦<ExactBook as Policy>⟧.rules result ≡ [] }
        ensures reads { ⟦<ExactBook as Policy>⟧.reading result ≡ exact_reading }
        ensures fitting { ⟦<ExactBook as Book>⟧.fits result ≡ exact_fits }
    {
        ExactBook {
            chart,
            slots: [None; 64],
        }
    }

    // The slots, each with its rule or free.
    pub fn slots(&self) -> &[Option<Rule>]
        ensures { result.now ≡ self.now.slots }
    {
        &self.slots
    }
}

impl Policy for ExactBook {
    ghost charted = { λ b. b.chart };

    ghost rules = { λ b. held b.slots };

    ghost reading = { λ b. exact_reading };

    ghost lawful = { λ b. exact_lawful b.chart (held b.slots) b.distinct b.formed };

    fn chart(&self) -> &Chart {
        &self.chart
    }

    fn allows(&self, server: u16, profile: &Profile) -> bool {
        some_view_allows(&self.slots, server, profile)
    }
}

impl Book for ExactBook {
    ghost fits = { λ b. exact_fits };

    ghost lone = { Prim.search rules };

    ghost less = { Prim.search rules };

    ghost alike = { λ s xs ys h. ap (λ n. nat_le n 64) (same_length h) };

    fn enter(&mut self, given: RuleRecord) -> Result<(), BookRefusal> {
        let rule = check_rule(&self.chart, given)?;
        if holds_number(&self.slots, rule.given.number) {
            return Err(BookRefusal::InForce);
        }
        let i = free_slot(&self.slots).ok_or(BookRefusal::Full)?;
        self.slots[i] = Some(rule);
        Ok(())
    }

    fn withdraw(&mut self, number: u16) -> Result<(), BookRefusal> {
        let i = slot_of(&self.slots, number).ok_or(BookRefusal::NotInForce)?;
        self.slots[i] = None;
        Ok(())
    }
}
