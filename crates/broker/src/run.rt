ghost use Rattle.std.specs.Prelude.{◌≡◌, ◌≤◌, false, length, is_ok, OnOk};
ghost use Rattle.chart.specs.Charts.{layout};
ghost use Rattle.broker.specs.Runs.{state_by, run_answer, Ran, Stepped};

use crate::broker::Broker;
use assignments::{Place, Release, Step};
use planner::{Planned, QueryRefusal};
use policy::{Book, BookRefusal};
use queries::{Node, TreeRefusal};
use rules::RuleRecord;
use tariff::Tariff;

// A call of a broker: a rule to enter, a number to withdraw, or the nodes of a query.
#[derive(Clone, Copy)]
pub enum Call<'a> {
    Enter(RuleRecord),
    Withdraw(u16),
    Query(&'a [Node]),
}

// The answer to a call: an entry's or a withdrawal's, or a query's.
#[derive(Clone, Copy)]
pub enum Answer<P> {
    Booked(Result<(), BookRefusal>),
    Planned(Result<Planned<P>, QueryRefusal>),
}

// Makes one call.
fn step<B: Book, T: Tariff>(
    broker: &mut Broker<B>,
    tariff: &T,
    call: Call,
    work: &mut [Option<Place<T::Price>>],
    plan: &mut [Step],
    releases: &mut [Release],
) -> Answer<T::Price>
    ensures stepped { Stepped (layout (B.Policy.charted broker.old.book)) (B.Book.fits broker.old.book) (B.Policy.reading broker.old.book) (T.pricing tariff.now) (B.Policy.rules broker.old.book) (state_by work.old plan.old releases.old) call.entry result (B.Policy.rules broker.new.book) work.new plan.new releases.new }
    ensures chart { B.Policy.charted broker.new.book ≡ B.Policy.charted broker.old.book }
    ensures reads { B.Policy.reading broker.new.book ≡ B.Policy.reading broker.old.book }
    ensures fitting { B.Book.fits broker.new.book ≡ B.Book.fits broker.old.book }
{
    match call {
        Call::Enter(given) => Answer::Booked(broker.enter(given)),
        Call::Withdraw(number) => Answer::Booked(broker.withdraw(number)),
        Call::Query(nodes) => Answer::Planned(broker.query(tariff, nodes, work, plan, releases)),
    }
}

// Makes the calls in turn, with the same buffers for every query.
fn run_all<B: Book, T: Tariff>(
    broker: &mut Broker<B>,
    tariff: &T,
    calls: &[Call],
    answers: &mut [Answer<T::Price>],
    work: &mut [Option<Place<T::Price>>],
    plan: &mut [Step],
    releases: &mut [Release],
)
    requires { length calls.now ≤ length answers.old }
    ensures ran { Ran (layout (B.Policy.charted broker.old.book)) (B.Book.fits broker.old.book) (B.Policy.reading broker.old.book) (T.pricing tariff.now) (B.Policy.rules broker.old.book) (state_by work.old plan.old releases.old) calls.now answers.old answers.new (B.Policy.rules broker.new.book) work.new plan.new releases.new }
    ensures chart { B.Policy.charted broker.new.book ≡ B.Policy.charted broker.old.book }
    ensures reads { B.Policy.reading broker.new.book ≡ B.Policy.reading broker.old.book }
    ensures fitting { B.Book.fits broker.new.book ≡ B.Book.fits broker.old.book }
{
    for (i, call) in calls.iter().enumerate() {
        answers[i] = step(broker, tariff, *call, work, plan, releases);
    }
}

impl<B: Book> Broker<B> {
    // Makes calls in turn, at one tariff and with one set of buffers for all queries, and writes each answer. Refused, with
    // nothing done, where there is less room for answers than there are calls.
    pub fn run<T: Tariff>(
        &mut self,
        tariff: &T,
        calls: &[Call],
        answers: &mut [Answer<T::Price>],
        work: &mut [Option<Place<T::Price>>],
        plan: &mut [Step],
        releases: &mut [Release],
    ) -> Result<(), QueryRefusal>
        ensures answer { result ≡ run_answer calls.now answers.old }
        ensures ran { OnOk result (Ran (layout (B.Policy.charted self.old.book)) (B.Book.fits self.old.book) (B.Policy.reading self.old.book) (T.pricing tariff.now) (B.Policy.rules self.old.book) (state_by work.old plan.old releases.old) calls.now answers.old answers.new (B.Policy.rules self.new.book) work.new plan.new releases.new) }
        ensures refused { is_ok result ≡ false → (self.new ≡ self.old) × (answers.new ≡ answers.old) × (work.new ≡ work.old) × (plan.new ≡ plan.old) × (releases.new ≡ releases.old) }
        ensures chart { B.Policy.charted self.new.book ≡ B.Policy.charted self.old.book }
        ensures reads { B.Policy.reading self.new.book ≡ B.Policy.reading self.old.book }
        ensures fitting { B.Book.fits self.new.book ≡ B.Book.fits self.old.book }
    {
        if answers.len() < calls.len() {
            return Err(TreeRefusal::Room.into());
        }
        run_all(self, tariff, calls, answers, work, plan, releases);
        Ok(())
    }
}
