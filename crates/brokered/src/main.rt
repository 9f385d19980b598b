// Enters and withdraws rules and plans queries through a broker, in one run of calls on the sample chart.
#![tactic(auto)]

mod run;

use crate::run::show_run;
use sample::sample_chart;

fn main(rt: HostRuntime) -> anyhow::Result<()> {
    show_run(&rt, sample_chart()?)
}
