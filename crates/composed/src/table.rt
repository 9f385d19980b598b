ghost use Rattle.std.specs.Prelude.{◌≡◌, ◌<◌, ◌≤◌, List, [], ◌∷◌, length, take, slice_index_or, MatchOption};
ghost use Rattle.std.specs.List.{flat_map};
ghost use Rattle.rules.specs.declared.view.View.{View};
ghost use Rattle.chart.specs.Charts.{layout};
ghost use Rattle.members.specs.Compose.{compositions};
ghost use Rattle.members.specs.Members.{with_new, members};
ghost use Rattle.members.specs.Table.{no_view, Growing, Holds};
ghost use Rattle.policy.specs.Reading.{granted};
ghost use Rattle.books.specs.Slots.{held};

use crate::pairs::{compose, is_bridged, may_compose};
use books::ExactBook;
use chart::Chart;
use policy::Policy;
use rules::{Rule, View};

// At most 256 views, in the first `count` places of a table. A book that holds one is Copy, so it is no ArrayVec.
#[derive(Clone, Copy)]
pub(crate) struct MemberTable {
    pub(crate) places: [View; 256],
    pub(crate) count: usize,
    ghost sized: { length places ≡ 256 },
    ghost counted: { count ≤ 256 },
}

impl MemberTable {
    ghost use Rattle.composed.specs.Table.{listed, Fills, Gathers};

    // A table with no view.
    pub(crate) fn empty() -> MemberTable
        ensures { listed result ≡ [] }
    {
        MemberTable {
            places: [View::default(); 256],
            count: 0,
        }
    }

    // The views of the table.
    pub(crate) fn views(&self) -> &[View]
        ensures { result.now ≡ listed self.now }
    {
        &self.places[..self.count]
    }

    // Puts a view behind the others, unless it is one of them; none where the table is full.
    fn add(&mut self, v: View) -> Option<()>
        ensures { Fills result self.new (with_new (listed self.old) (v ∷ [])) }
    {
        if self.views().contains(&v) {
            return Some(());
        }
        if self.count == 256 {
            return None;
        }
        self.places[self.count] = v;
        self.count += 1;
        Some(())
    }

    // Adds what two views compose to over any link.
    fn add_pair(&mut self, chart: &Chart, a: View, b: View) -> Option<()>
        ensures { Fills result self.new (with_new (listed self.old) (compositions (layout chart.now) a b)) }
    {
        if !may_compose(chart, a, b) {
            return Some(());
        }
        for link in 0..64 {
            if is_bridged(chart, a, b, link) {
                self.add(compose(a, b, link))?;
            }
        }
        Some(())
    }

    // Adds what the view at place i composes to with those before it.
    fn add_row(&mut self, chart: &Chart, i: usize) -> Option<()>
        requires { i < self.old.count }
        ensures { Fills result self.new (with_new (listed self.old) (flat_map (compositions (layout chart.now) (slice_index_or self.old.places i no_view)) (take i self.old.places))) }
    {
        let a = self.places[i];
        for j in 0..i {
            self.add_pair(chart, a, self.places[j])?;
        }
        Some(())
    }

    // Composes each view with all before it, and so on with what is added, until no view is left to compose: the table
    // grows as it is walked.
    fn close(&mut self, chart: &Chart) -> Option<()>
        ensures { (given : List View) → Growing (layout chart.now) given (listed self.old) 0 → MatchOption result (256 < length (members (layout chart.now) given)) (λ u. Holds (layout chart.now) given self.new.places self.new.count) }
    {
        let mut i = 0usize;
        while i < self.count {
            self.add_row(chart, i)?;
            i += 1;
        }
        Some(())
    }

    // Adds the views of the rules in the slots.
    fn add_held(&mut self, slots: &[Option<Rule>]) -> Option<()>
        ensures { Fills result self.new (with_new (listed self.old) (granted (held slots.now))) }
    {
        for slot in slots {
            if let Some(rule) = slot {
                self.add(rule.given.view)?;
            }
        }
        Some(())
    }

    // Fills the table anew with the members of the rules of a book, each once; none where there are more than 256, and then
    // what it lists means nothing.
    pub(crate) fn refill(&mut self, book: &ExactBook) -> Option<()>
        ensures { Gathers (layout book.now.chart) (granted (held book.now.slots)) result self.new }
    {
        self.count = 0;
        self.add_held(book.slots())?;
        self.close(book.chart())
    }
}
