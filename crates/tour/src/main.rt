// A walk through the library on a small chart: three servers with a relation each, and two links.
#![tactic(auto)]

mod parts;

use crate::parts::{
    Sets, Steps, repeated_link, sample_sets, sample_steps, tour_chart, worked_cases,
};
use anyhow::{Context, anyhow};
use chart::Chart;
use composed::ComposedBook;
use layers::{Carrier, Denial, Denials};
use policy::{Book, BookRefusal, Policy};
use profile::Profile;
use sample::{ProfileText, SetText, rule};
use sets::SmallSet;

fn show_chart(rt: &HostRuntime, chart: &Chart) -> anyhow::Result<()> {
    for relation in 0..3u16 {
        let attributes = SetText(chart.attributes_of(relation));
        if let Some(server) = chart.server_of(relation) {
            println!(rt; "relation {relation} at server {server}: attributes {attributes}")?;
        }
    }
    for link in 0..2u16 {
        if let Some((left, right)) = chart.ends(link) {
            println!(rt; "link {link}: {} = {}", SetText(left), SetText(right))?;
        }
    }
    Ok(())
}

fn show_steps(rt: &HostRuntime, steps: &Steps) -> anyhow::Result<()> {
    println!(rt; "relation 0: {}", ProfileText(steps.leaf))?;
    println!(rt; "filtered by 2: {}", ProfileText(steps.filtered))?;
    println!(rt; "projected on 0,1: {}", ProfileText(steps.projected))?;
    println!(rt; "relation 1: {}", ProfileText(steps.other))?;
    println!(rt; "joined over link 0: {}", ProfileText(steps.joined))?;
    println!(rt; "semi-join, left sends: {}", ProfileText(steps.column))?;
    println!(rt; "semi-join, left gets: {}", ProfileText(steps.reply))?;
    Ok(())
}

// Says what became of a call.
fn show_call(rt: &HostRuntime, call: &str, answer: Result<(), BookRefusal>) -> anyhow::Result<()> {
    match answer {
        Ok(()) => println!(rt; "{call}: accepted")?,
        Err(refusal) => println!(rt; "{call}: refused {}", refusal.number())?,
    }
    Ok(())
}

// Asks a policy, and says what it answered.
fn show_question<P: Policy>(
    rt: &HostRuntime,
    policy: &P,
    server: u16,
    profile: Profile,
) -> anyhow::Result<()> {
    let answer = if policy.allows(server, &profile) {
        "yes"
    } else {
        "no"
    };
    println!(rt;
        "may server {server} see {}? {answer}",
        ProfileText(profile)
    )?;
    Ok(())
}

// A book that composes two rules of server 1, and loses one of them.
fn show_composition(rt: &HostRuntime, book: &mut ComposedBook, sets: &Sets) -> anyhow::Result<()> {
    let joined = Profile {
        shown: sets.ends,
        path: sets.link,
        ..Profile::default()
    };
    let none = SmallSet::empty();
    show_call(
        rt,
        "rule 1, server 1: 0,1",
        book.enter(rule(1, 1, sets.lots, none)),
    )?;
    show_call(
        rt,
        "rule 2, server 1: 3,4",
        book.enter(rule(2, 1, sets.berths, none)),
    )?;
    show_question(rt, book, 1, joined)?;
    show_call(rt, "withdrawal of 2", book.withdraw(2))?;
    show_question(rt, book, 1, joined)?;
    show_call(rt, "withdrawal of 2", book.withdraw(2))
}

// A denial and a carrier over the same book.
fn show_layers(rt: &HostRuntime, book: ComposedBook, sets: &Sets) -> anyhow::Result<()> {
    // `?` would copy the stack of layers once more, and the tour runs on a stack of 64 KiB.
    let Ok(carried) = Carrier::new(book, Some(0)) else {
        return Err(anyhow!("the carrier was refused"));
    };
    let denial = Denial {
        server: 2,
        attributes: sets.denied,
    };
    let Ok(mut stack) = Denials::new(carried, &[denial]) else {
        return Err(anyhow!("the denial was refused"));
    };
    show_call(
        rt,
        "rule 3, server 2: 0,3,4 on path 0",
        stack.enter(rule(3, 2, sets.wide, sets.link)),
    )?;
    for server in [2, 0] {
        for shown in [sets.ends, sets.denied] {
            let profile = Profile {
                shown,
                path: sets.link,
                ..Profile::default()
            };
            show_question(rt, &stack, server, profile)?;
        }
    }
    Ok(())
}

fn main(rt: HostRuntime) -> anyhow::Result<()> {
    worked_cases();
    let chart = tour_chart()?;
    let steps = sample_steps(&chart).context("a step was refused")?;
    let refusal = repeated_link(chart).context("a repeated link was accepted")?;
    show_chart(&rt, &chart)?;
    show_steps(&rt, &steps)?;
    println!(rt; "link 3 = 0 again: refused {refusal}")?;
    let sets = sample_sets().context("a set was refused")?;
    let mut book = ComposedBook::new(chart);
    show_composition(&rt, &mut book, &sets)?;
    show_layers(&rt, book, &sets)
}
