ghost use Rattle.std.specs.Prelude.{◌≡◌, true, List, [], OnOk};
ghost use Rattle.std.specs.List.{list_all};
ghost use Rattle.chart.specs.Charts.{layout};
ghost use Rattle.rules.specs.Rules.{well_formed};
ghost use Rattle.policy.specs.Reading.{exact_reading};
ghost use Rattle.policy.specs.Books.{apart};
ghost use Rattle.books.specs.Sealed.{sealed_answer, sealed_rules};
ghost use Rattle.books.specs.ExactLaws.{exact_lawful};

use crate::exact::ExactBook;
use crate::fault::Fault;
use chart::Chart;
use policy::{Book, Policy, some_view_allows};
use profile::Profile;
use rules::RuleRecord;

// Rule records that are held for reading, and read exactly. It takes no entries and no withdrawals.
#[derive(Clone, Copy)]
pub struct SealedList<'a> {
    chart: Chart,
    records: &'a [RuleRecord],
    ghost distinct: { apart records.now ≡ true },
    ghost formed: { list_all (well_formed (layout chart)) records.now ≡ true },
}

impl<'a> SealedList<'a> {
    // The list of these records, read exactly; it is empty where the check refuses them.
    pub fn new(chart: Chart, records: &'a [RuleRecord]) -> SealedList<'a>
        ensures chart { result.chart ≡ chart }
        ensures rules { result.records.now ≡ sealed_rules (layout chart) records.now }
        ensures told { ⟦<SealedList<'a> as Policy>⟧.charted result ≡ chart }
        ensures listed { ⟦<SealedList<'a> as Policy>⟧.rules result ≡ sealed_rules (layout chart) records.now }
        ensures reads { ⟦<SealedList<'a> as Policy>⟧.reading result ≡ exact_reading }
    {
        match SealedList::check(&chart, records) {
            Ok(()) => SealedList { chart, records },
            Err(_) => SealedList {
                chart,
                records: &[],
            },
        }
    }

    // The first refusal of the records, as if they were entered one after another in an empty exact book.
    pub fn check(chart: &Chart, records: &[RuleRecord]) -> Result<(), Fault>
        ensures answer { result ≡ sealed_answer (layout chart.now) records.now }
        ensures distinct { OnOk result (apart records.now ≡ true) }
        ensures formed { OnOk result (list_all (well_formed (layout chart.now)) records.now ≡ true) }
    {
        let mut book = ExactBook::new(*chart);
        for record in records {
            if let Err(refusal) = book.enter(*record) {
                return Err(Fault {
                    number: record.number,
                    refusal,
                });
            }
        }
        Ok(())
    }
}

impl<'a> Policy for SealedList<'a> {
    ghost charted = { λ s. s.chart };

    ghost rules = { λ s. s.records.now };

    ghost reading = { λ s. exact_reading };

    ghost lawful = { λ s. exact_lawful s.chart s.records.now s.distinct s.formed };

    fn chart(&self) -> &Chart {
        &self.chart
    }

    fn allows(&self, server: u16, profile: &Profile) -> bool {
        some_view_allows(self.records, server, profile)
    }
}
