ghost use Rattle.std.specs.Prelude.{◌≡◌, ◌+◌, ◌<◌, ◌≤◌, if◌then◌else◌};
ghost use Rattle.sets.specs.Sets.{members, none, single, disjoint};
ghost use Rattle.chart.specs.Charts.{layout};
ghost use Rattle.rules.specs.Relations.{link_relations};
ghost use Rattle.rules.specs.Trees.{spread, rounds, reached_from, tree};

use crate::touched::{relations, relations_of_link};
use chart::Chart;
use sets::SmallSet;

// The relations of a link, if it has one of them among `from`.
fn crossed(chart: &Chart, link: u16, from: SmallSet) -> SmallSet
    ensures { result ≡ (if disjoint (link_relations (layout chart.now) link) from then none else link_relations (layout chart.now) link) }
{
    let ends = relations_of_link(chart, link);
    if ends.is_disjoint(from) {
        SmallSet::empty()
    } else {
        ends
    }
}

// The relations of `from`, and those one link of the path away.
fn spread_once(chart: &Chart, path: SmallSet, from: SmallSet) -> SmallSet
    ensures { result ≡ spread (layout chart.now) path from }
{
    path.elements().fold(from, |found, link| found.union(crossed(chart, link, from)))
}

// All that is reached over the path from a set of relations: it stops where a round adds nothing.
fn flood(chart: &Chart, path: SmallSet, from: SmallSet) -> SmallSet
    ensures { result ≡ rounds (layout chart.now) path 64 from }
{
    let mut reached = from;
    for _round in 0..64u16 {
        let next = spread_once(chart, path, reached);
        if next == reached {
            return reached;
        }
        reached = next;
    }
    reached
}

// Whether all these relations are reached from the first of them.
fn is_connected(chart: &Chart, path: SmallSet, all: SmallSet) -> bool
    ensures { result ≡ reached_from (layout chart.now) path all (members all) }
{
    all.first()
        .and_then(SmallSet::single)
        .is_some_and(|from| all.is_subset(flood(chart, path, from)))
}

// Whether the path joins the relations into one tree: one link fewer than relations, all connected.
pub fn is_tree(chart: &Chart, attributes: SmallSet, path: SmallSet) -> bool
    ensures { result ≡ tree (layout chart.now) attributes path }
{
    let all = relations(chart, attributes, path);
    all.len() == path.len() + 1 && is_connected(chart, path, all)
}
