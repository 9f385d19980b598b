ghost use Rattle.std.specs.Prelude.{◌≡◌, ◌<◌, ◌≤◌};
ghost use Rattle.sets.specs.Sets.{members, single};
ghost use Rattle.chart.specs.Layout.{relation_of};
ghost use Rattle.chart.specs.Charts.{layout};
ghost use Rattle.rules.specs.Relations.{gather, set_of, relations_of, link_relations, touched};

use chart::Chart;
use sets::SmallSet;

// The relation of an attribute as a set: empty where the attribute is not known.
fn relation_set(chart: &Chart, attribute: u16) -> SmallSet
    ensures { result ≡ set_of (relation_of (layout chart.now) attribute) }
{
    chart
        .relation_of(attribute)
        .and_then(SmallSet::single)
        .unwrap_or_default()
}

// The relations of the attributes of a set.
fn attribute_relations(chart: &Chart, attributes: SmallSet) -> SmallSet
    ensures { result ≡ relations_of (layout chart.now) attributes }
{
    attributes.elements().fold(SmallSet::empty(), |found, a| {
        found.union(relation_set(chart, a))
    })
}

// The relations of both ends of a link: none where the link is not known.
pub fn relations_of_link(chart: &Chart, link: u16) -> SmallSet
    ensures { result ≡ link_relations (layout chart.now) link }
{
    chart.ends(link).map_or(SmallSet::empty(), |(left, right)| {
        attribute_relations(chart, left).union(attribute_relations(chart, right))
    })
}

// The relations of the ends of a path's links.
fn path_relations(chart: &Chart, path: SmallSet) -> SmallSet
    ensures { result ≡ gather (link_relations (layout chart.now)) (members path) }
{
    path.elements().fold(SmallSet::empty(), |found, link| {
        found.union(relations_of_link(chart, link))
    })
}

// The relations of attributes and of a path's links.
pub fn relations(chart: &Chart, attributes: SmallSet, path: SmallSet) -> SmallSet
    ensures { result ≡ touched (layout chart.now) attributes path }
{
    attribute_relations(chart, attributes).union(path_relations(chart, path))
}
