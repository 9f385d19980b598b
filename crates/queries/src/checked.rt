ghost use Rattle.std.specs.Prelude.{◌≡◌, ℕ, ◌<◌, length, Ok, IfOk, OnOk, slice_index_or};
ghost use Rattle.chart.specs.Charts.{layout};
ghost use Rattle.queries.specs.Flat.{blank};
ghost use Rattle.queries.specs.Questions.{node_profile, tree_answer, verdict};
ghost use Rattle.queries.specs.Sound.{Sound};

use crate::check::check_tree;
use crate::node::Node;
use crate::refusal::TreeRefusal;
use chart::Chart;
use profile::Profile;

// A query that passed every question on a chart, with the profile of each node in the first places.
#[derive(Clone, Copy)]
pub struct Checked<'a> {
    pub chart: &'a Chart,
    pub nodes: &'a [Node],
    pub profiles: [Profile; 63],
    pub ghost accepted: { tree_answer (layout chart.now) nodes.now ≡ Ok tt },
    pub ghost sized: { length profiles ≡ 63 },
    pub ghost profiled: { (k : ℕ) → k < length nodes.now → slice_index_or profiles k blank ≡ node_profile (layout chart.now) nodes.now k },
}

impl<'a> Checked<'a> {
    // The query, if the tree passes every question on this chart; else the first refusal.
    pub fn new(chart: &'a Chart, nodes: &'a [Node]) -> Result<Checked<'a>, TreeRefusal>
        ensures answer { verdict result ≡ tree_answer (layout chart.now) nodes.now }
        ensures chart { IfOk result (λ v. v.chart.now ≡ chart.now) }
        ensures nodes { IfOk result (λ v. v.nodes.now ≡ nodes.now) }
        ensures sound { OnOk result (Sound (layout chart.now) nodes.now) }
    {
        let profiles = check_tree(chart, nodes)?;
        Ok(Checked {
            chart,
            nodes,
            profiles,
        })
    }
}
