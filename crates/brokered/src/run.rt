use anyhow::Context;
use assignments::{Mode, Release, Step};
use books::ExactBook;
use broker::{Answer, Broker, Call};
use chart::Chart;
use composed::AnyBook;
use layers::{Carrier, Denials};
use profile::Profile;
use queries::Node;
use rules::RuleRecord;
use sample::rule;
use sets::SmallSet;
use tariff::ByteTariff;

// A stack of layers over a book of either kind, as the broker of a harbour has it.
type Stack = Denials<Carrier<AnyBook>>;

// A broker over an exact book, with no carrier and no denials.
fn open_sample(chart: Chart) -> anyhow::Result<Broker<Stack>> {
    let carried = Carrier::new(AnyBook::Exact(ExactBook::new(chart)), None)?;
    Ok(Broker::open(Denials::new(carried, &[])?))
}

// Says what a call was answered.
fn show_answer(rt: &HostRuntime, answer: &Answer<u32>) -> anyhow::Result<()> {
    match answer {
        Answer::Booked(Ok(())) => println!(rt; "accepted")?,
        Answer::Booked(Err(refusal)) => println!(rt; "refused {}", refusal.number())?,
        Answer::Planned(Ok(plan)) => println!(rt;
            "planned at server {} for {} bytes, {} releases",
            plan.executor, plan.price, plan.releases
        )?,
        Answer::Planned(Err(refusal)) => println!(rt;
            "refused {} at {}",
            refusal.number(),
            refusal.place()
        )?,
    }
    Ok(())
}

// The rules of the run: server 1 may see relation 0; server 0 may see 0 and relation 1, joined over link 0; server 1 may see 0.
fn run_rules(chart: &Chart) -> anyhow::Result<[RuleRecord; 3]> {
    let none = SmallSet::empty();
    let zero = SmallSet::single(0).context("a set was refused")?;
    let whole = chart.attributes_of(0);
    let reply = chart.attributes_of(1).union(zero);
    Ok([
        rule(1, 1, whole, none),
        rule(2, 0, reply, zero),
        rule(3, 1, zero, none),
    ])
}

// Makes the calls, with buffers for three nodes and three servers.
fn make_calls(
    broker: &mut Broker<Stack>,
    tariff: &ByteTariff,
    calls: &[Call],
    answers: &mut [Answer<u32>],
) -> anyhow::Result<()> {
    let mut work = [None; 9];
    let mut plan = [Step {
        executor: 0,
        mode: Mode::Local,
    }; 3];
    let mut releases = [Release {
        sender: 0,
        receiver: 0,
        profile: Profile::default(),
    }; 3];
    broker.run(tariff, calls, answers, &mut work, &mut plan, &mut releases)?;
    Ok(())
}

// Enters, queries, withdraws and queries again, in one run of calls.
pub fn show_run(rt: &HostRuntime, chart: Chart) -> anyhow::Result<()> {
    let [whole, reply, column] = run_rules(&chart)?;
    let nodes = [
        Node::Leaf { relation: 0 },
        Node::Leaf { relation: 1 },
        Node::Join {
            left: 0,
            right: 1,
            link: 0,
        },
    ];
    let calls = [
        Call::Enter(whole),
        Call::Query(&nodes),
        Call::Withdraw(1),
        Call::Query(&nodes),
        Call::Enter(reply),
        Call::Enter(column),
        Call::Query(&nodes),
        Call::Withdraw(1),
    ];
    let mut answers: [Answer<u32>; 8] = [Answer::Booked(Ok(())); 8];
    let mut broker = open_sample(chart)?;
    make_calls(&mut broker, &ByteTariff::new(chart), &calls, &mut answers)?;
    for answer in &answers {
        show_answer(rt, answer)?;
    }
    Ok(())
}
