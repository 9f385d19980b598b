ghost use Rattle.std.specs.Prelude.{◌≡◌, ◌≤◌, [], length, take};
ghost use Rattle.chart.specs.Charts.{layout};
ghost use Rattle.rules.specs.declared.view.View.{View};
ghost use Rattle.members.specs.Members.{among};
ghost use Rattle.books.specs.Slots.{held};
ghost use Rattle.composed.specs.Composed.{composed_members, composed_reading, composed_fits};
ghost use Rattle.composed.specs.Lawful.{composed_lawful};
ghost use Rattle.composed.specs.Books.{lone_fits, less_fits, alike_fits};

use crate::entries::{enter_rule, take_rule};
use crate::table::MemberTable;
use books::ExactBook;
use chart::Chart;
use policy::{Book, BookRefusal, Policy, some_view_allows};
use profile::Profile;
use rules::RuleRecord;

// A book that composes its rules: each server may also see what its rules let it join for itself. It holds its rules as
// an exact book does, and beside them the members: the views of the rules and all that they compose to.
#[derive(Clone, Copy)]
pub struct ComposedBook {
    exact: ExactBook,
    members: MemberTable,
    ghost few: { length (composed_members (layout exact.chart) (held exact.slots)) ≤ 256 },
    ghost grown: { (v : View) → among v (take members.count members.places) ≡ among v (composed_members (layout exact.chart) (held exact.slots)) },
}

impl ComposedBook {
    // A book with no rules, which reads what its rules compose to and takes 64 rules of at most 256 members.
    pub fn new(chart: Chart) -> ComposedBook
        ensures chart { result.exact.chart ≡ chart }
        ensures rules { held result.exact.slots ≡ [] }
        ensures told { ⟦<ComposedBook as Policy>⟧.charted result ≡ chart }
        ensures listed { ⟦<ComposedBook as Policy>⟧.rules result ≡ [] }
        ensures reads { ⟦<ComposedBook as Policy>⟧.reading result ≡ composed_reading (layout chart) }
        ensures fitting { ⟦<ComposedBook as Book>⟧.fits result ≡ composed_fits (layout chart) }
    {
        ComposedBook {
            exact: ExactBook::new(chart),
            members: MemberTable::empty(),
        }
    }
}

impl Policy for ComposedBook {
    ghost charted = { λ b. b.exact.chart };

    ghost rules = { λ b. held b.exact.slots };

    ghost reading = { λ b. composed_reading (layout b.exact.chart) };

    ghost lawful = { λ b. composed_lawful b.exact.chart (held b.exact.slots) b.exact.distinct b.exact.formed };

    fn chart(&self) -> &Chart {
        self.exact.chart()
    }

    fn allows(&self, server: u16, profile: &Profile) -> bool {
        some_view_allows(self.members.views(), server, profile)
    }
}

impl Book for ComposedBook {
    ghost fits = { λ b. composed_fits (layout b.exact.chart) };

    ghost lone = { λ s r. lone_fits s.exact.chart r };

    ghost less = { λ s r xs h. less_fits s.exact.chart r xs h };

    ghost alike = { λ s xs ys h. alike_fits s.exact.chart xs ys h };

    fn enter(&mut self, given: RuleRecord) -> Result<(), BookRefusal> {
        enter_rule(&mut self.exact, &mut self.members, given)
    }

    fn withdraw(&mut self, number: u16) -> Result<(), BookRefusal> {
        take_rule(&mut self.exact, &mut self.members, number)
    }
}
