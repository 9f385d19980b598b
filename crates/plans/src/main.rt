// Plans small queries on the sample chart over sealed lists of rules, with and without layers, in bytes and by grade.
#![tactic(auto)]

mod cases;
mod prices;

use crate::cases::{Cases, sample_cases};
use crate::prices::Shown;
use anyhow::Context;
use assignments::{Mode, Place, Release, Step};
use books::SealedList;
use chart::{Chart, Grade};
use layers::{Carrier, Denial, Denials};
use planner::plan_query;
use policy::Policy;
use profile::Profile;
use queries::Node;
use rules::RuleRecord;
use sample::{ProfileText, sample_chart};
use tariff::{ByteTariff, GradeTariff};

// The first places of a buffer, as many as there are.
fn first<T>(places: &[T], count: usize) -> &[T] {
    &places[..count.min(places.len())]
}

// The step of each node, and then the releases.
fn show_plan(rt: &HostRuntime, steps: &[Step], releases: &[Release]) -> anyhow::Result<()> {
    for (node, step) in steps.iter().enumerate() {
        let mode = step.mode.number();
        println!(rt; "    node {node}: server {}, mode {mode}", step.executor)?;
    }
    for release in releases {
        let profile = ProfileText(release.profile);
        println!(rt;
            "    release {} -> {} {profile}",
            release.sender, release.receiver
        )?;
    }
    Ok(())
}

// A release that is in no plan, for places that are not written yet.
fn no_release() -> Release {
    Release {
        sender: 0,
        receiver: 0,
        profile: Profile::default(),
    }
}

// Plans a query of at most three nodes, and prints the plan or the refusal.
fn show_query<P: Policy, T: Shown>(
    rt: &HostRuntime,
    label: &str,
    policy: &P,
    tariff: &T,
    nodes: &[Node],
    work: &mut [Option<Place<T::Price>>],
) -> anyhow::Result<()> {
    let mut plan = [Step {
        executor: 0,
        mode: Mode::Local,
    }; 3];
    let mut releases = [no_release(); 3];
    match plan_query(policy, tariff, nodes, work, &mut plan, &mut releases) {
        Ok(planned) => {
            let price = tariff.text(planned.price);
            println!(rt; "  {label}: executor {}, price {price}", planned.executor)?;
            let listed = first(&releases, planned.releases as usize);
            show_plan(rt, first(&plan, nodes.len()), listed)
        }
        Err(refusal) => {
            let (number, place) = (refusal.number(), refusal.place());
            println!(rt; "  {label}: refused {number} at node {place}")?;
            Ok(())
        }
    }
}

// Plans a query at both tariffs, by the policy's own chart.
fn show_both<P: Policy>(rt: &HostRuntime, policy: &P, nodes: &[Node]) -> anyhow::Result<()> {
    let chart = *policy.chart();
    let bytes = ByteTariff::new(chart);
    let mut work: [Option<Place<u32>>; 9] = [None; 9];
    show_query(rt, "in bytes", policy, &bytes, nodes, &mut work)?;
    let grades = GradeTariff::new(chart);
    let mut work: [Option<Place<Option<Grade>>>; 9] = [None; 9];
    show_query(rt, "by grade", policy, &grades, nodes, &mut work)
}

// Over the records alone.
fn show_list(
    rt: &HostRuntime,
    chart: Chart,
    records: &[RuleRecord],
    nodes: &[Node],
) -> anyhow::Result<()> {
    show_both(rt, &SealedList::new(chart, records), nodes)
}

fn show_lists(rt: &HostRuntime, chart: Chart, cases: &Cases) -> anyhow::Result<()> {
    println!(rt; "relation 0 joined with relation 1 over link 0")?;
    println!(rt; "rule 1, server 1: 0,1,2")?;
    show_list(rt, chart, &[cases.whole], &cases.joined)?;
    println!(rt; "no rule")?;
    show_list(rt, chart, &[], &cases.joined)?;
    println!(rt; "rule 2, server 0: 0,3,4 on path 0; rule 3, server 1: 0")?;
    show_list(rt, chart, &[cases.reply, cases.column], &cases.joined)
}

// Under a denial.
fn show_denied<P: Policy + Drop>(
    rt: &HostRuntime,
    below: P,
    denial: Denial,
    nodes: &[Node],
) -> anyhow::Result<()> {
    show_both(rt, &Denials::new(below, &[denial])?, nodes)
}

// With a carrier.
fn show_carried<P: Policy + Drop>(
    rt: &HostRuntime,
    below: P,
    carrier: u16,
    nodes: &[Node],
) -> anyhow::Result<()> {
    show_both(rt, &Carrier::new(below, Some(carrier))?, nodes)
}

fn show_layers(rt: &HostRuntime, chart: Chart, cases: &Cases) -> anyhow::Result<()> {
    println!(rt; "rule 1, and a denial for server 1: 1")?;
    let records = [cases.whole];
    let list = SealedList::new(chart, &records);
    show_denied(rt, list, cases.denial, &cases.joined)?;
    println!(rt; "no rule, and server 0 as carrier")?;
    show_carried(rt, SealedList::new(chart, &[]), 0, &cases.joined)
}

fn main(rt: HostRuntime) -> anyhow::Result<()> {
    let mut chart = sample_chart()?;
    chart.set_grade(0, 1, Grade::Quay)?;
    let cases = sample_cases().context("a set was refused")?;
    show_lists(&rt, chart, &cases)?;
    show_layers(&rt, chart, &cases)?;
    println!(rt; "relation 0 alone, no rule")?;
    show_list(&rt, chart, &[], &cases.alone)
}
