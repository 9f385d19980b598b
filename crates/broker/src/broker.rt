ghost use Rattle.std.specs.Prelude.{◌≡◌, List, []};
ghost use Rattle.chart.specs.Charts.{layout};
ghost use Rattle.rules.specs.declared.view.RuleRecord.{RuleRecord as Entry};
ghost use Rattle.broker.specs.Histories.{Reached};
ghost use Rattle.broker.specs.Calls.{Enters, Withdraws, Judges};

use assignments::{Place, Release, Step};
use planner::{Planned, QueryRefusal, plan_query};
use policy::{Book, BookRefusal};
use queries::Node;
use rules::RuleRecord;
use tariff::Tariff;

// A broker over a book. Entries, withdrawals and queries reach the book, and nothing else does.
#[derive(Drop)]
pub struct Broker<B> {
    pub(crate) book: B,
}

// A broker over a book, just opened.
fn over<B: Book>(book: B) -> Broker<B>
    ensures book { result.book ≡ book }
    ensures reached { Reached (layout (B.Policy.charted book)) (B.Book.fits book) (B.Policy.rules result.book) (B.Policy.rules book) [] }
{
    Broker { book }
}

// Enters a rule into a book.
fn enter_into<B: Book>(book: &mut B, given: RuleRecord) -> Result<(), BookRefusal>
    ensures enters { Enters (layout (B.Policy.charted book.old)) (B.Book.fits book.old) (B.Policy.rules book.old) (B.Policy.rules book.new) given result }
    ensures chart { B.Policy.charted book.new ≡ B.Policy.charted book.old }
    ensures reads { B.Policy.reading book.new ≡ B.Policy.reading book.old }
    ensures fitting { B.Book.fits book.new ≡ B.Book.fits book.old }
{
    book.enter(given)
}

// Withdraws the rule of this number from a book.
fn withdraw_from<B: Book>(book: &mut B, number: u16) -> Result<(), BookRefusal>
    ensures withdraws { Withdraws (layout (B.Policy.charted book.old)) (B.Book.fits book.old) (B.Policy.rules book.old) (B.Policy.rules book.new) number result }
    ensures chart { B.Policy.charted book.new ≡ B.Policy.charted book.old }
    ensures reads { B.Policy.reading book.new ≡ B.Policy.reading book.old }
    ensures fitting { B.Book.fits book.new ≡ B.Book.fits book.old }
{
    book.withdraw(number)
}

// Plans a query by the rules that a book has in force.
fn judge<B: Book, T: Tariff>(
    book: &B,
    tariff: &T,
    nodes: &[Node],
    work: &mut [Option<Place<T::Price>>],
    plan: &mut [Step],
    releases: &mut [Release],
) -> Result<Planned<T::Price>, QueryRefusal>
    ensures { Judges (layout (B.Policy.charted book.now)) (B.Book.fits book.now) (B.Policy.reading book.now) (B.Policy.rules book.now) (T.pricing tariff.now) nodes.now work.old work.new plan.old plan.new releases.old releases.new result }
{
    plan_query(book, tariff, nodes, work, plan, releases)
}

impl<B: Book> Broker<B> {
    // Opens a broker over a book, with the rules that the book has.
    pub fn open(book: B) -> Broker<B>
        ensures book { result.book ≡ book }
        ensures reached { Reached (layout (B.Policy.charted book)) (B.Book.fits book) (B.Policy.rules result.book) (B.Policy.rules book) [] }
    {
        over(book)
    }

    // Enters a rule.
    pub fn enter(&mut self, given: RuleRecord) -> Result<(), BookRefusal>
        ensures enters { Enters (layout (B.Policy.charted self.old.book)) (B.Book.fits self.old.book) (B.Policy.rules self.old.book) (B.Policy.rules self.new.book) given result }
        ensures chart { B.Policy.charted self.new.book ≡ B.Policy.charted self.old.book }
        ensures reads { B.Policy.reading self.new.book ≡ B.Policy.reading self.old.book }
        ensures fitting { B.Book.fits self.new.book ≡ B.Book.fits self.old.book }
    {
        enter_into(&mut self.book, given)
    }

    // Withdraws the rule of this number.
    pub fn withdraw(&mut self, number: u16) -> Result<(), BookRefusal>
        ensures withdraws { Withdraws (layout (B.Policy.charted self.old.book)) (B.Book.fits self.old.book) (B.Policy.rules self.old.book) (B.Policy.rules self.new.book) number result }
        ensures chart { B.Policy.charted self.new.book ≡ B.Policy.charted self.old.book }
        ensures reads { B.Policy.reading self.new.book ≡ B.Policy.reading self.old.book }
        ensures fitting { B.Book.fits self.new.book ≡ B.Book.fits self.old.book }
    {
        withdraw_from(&mut self.book, number)
    }

    // Plans a query by the rules in force, at any tariff.
    pub fn query<T: Tariff>(
        &self,
        tariff: &T,
        nodes: &[Node],
        work: &mut [Option<Place<T::Price>>],
        plan: &mut [Step],
        releases: &mut [Release],
    ) -> Result<Planned<T::Price>, QueryRefusal>
        ensures { Judges (layout (B.Policy.charted self.now.book)) (B.Book.fits self.now.book) (B.Policy.reading self.now.book) (B.Policy.rules self.now.book) (T.pricing tariff.now) nodes.now work.old work.new plan.old plan.new releases.old releases.new result }
    {
        judge(&self.book, tariff, nodes, work, plan, releases)
    }
}
