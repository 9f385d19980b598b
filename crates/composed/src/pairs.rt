// Two views, and what they compose to.
ghost use Rattle.std.specs.Prelude.{◌≡◌, ◌<◌, ◌&&◌, Some, ◌==◌};
ghost use Rattle.chart.specs.Charts.{layout};
ghost use Rattle.members.specs.Compose.{lies_across, bridges, share_none, composition};

use chart::Chart;
use rules::{View, relations};
use sets::SmallSet;

// Whether one of two sets lies in s and the other in t.
fn lie_across(left: SmallSet, right: SmallSet, s: SmallSet, t: SmallSet) -> bool
    ensures { result ≡ lies_across (Some (left, right)) s t }
{
    left.is_subset(s) && right.is_subset(t) || right.is_subset(s) && left.is_subset(t)
}

// Whether a link has one end in each view's attributes.
pub(crate) fn is_bridged(chart: &Chart, a: View, b: View, link: u16) -> bool
    ensures { result ≡ bridges (layout chart.now) a b link }
{
    chart.ends(link).is_some_and(|(left, right)| lie_across(
        left,
        right,
        a.attributes,
        b.attributes,
    ))
}

// Whether two views share no relation.
fn are_apart(chart: &Chart, a: View, b: View) -> bool
    ensures { result ≡ share_none (layout chart.now) a b }
{
    relations(chart, a.attributes, a.path).is_disjoint(relations(chart, b.attributes, b.path))
}

// Whether two views compose over any link that has one end in each.
pub(crate) fn may_compose(chart: &Chart, a: View, b: View) -> bool
    ensures { result ≡ (a.server == b.server && share_none (layout chart.now) a b) }
{
    a.server == b.server && are_apart(chart, a, b)
}

// What two views compose to over a link.
pub(crate) fn compose(a: View, b: View, link: u16) -> View
    requires { link < 64 }
    ensures { result ≡ composition a b link }
{
    let Some(path) = a.path.union(b.path).insert(link) else {
        unreachable()
    };
    View {
        server: a.server,
        attributes: a.attributes.union(b.attributes),
        path,
    }
}
