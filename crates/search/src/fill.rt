ghost use Rattle.std.specs.Prelude.{◌≡◌, ◌*◌, ◌<◌, ◌≤◌, length};
ghost use Rattle.std.specs.List.{AllByRecursion};
ghost use Rattle.chart.specs.Charts.{layout};
ghost use Rattle.search.specs.Rows.{Filled};

use crate::rows::{fill_row, source_of};
use crate::table::Table;
use policy::Policy;
use queries::Checked;
use tariff::Tariff;

// Fills the work table: the row of each node, in node order, has the places of its subtree. Later places stay.
pub(crate) fn fill_table<P: Policy, T: Tariff>(
    policy: &P,
    tariff: &T,
    query: &Checked,
    table: &mut Table<T::Price>,
)
    requires chart { query.now.chart.now ≡ P.Policy.charted policy.now }
    requires servers { table.old.servers ≡ (layout (P.Policy.charted policy.now)).servers }
    requires room { length query.now.nodes.now * table.old.servers ≤ length table.old.places.now }
    ensures filled { Filled (T.pricing tariff.now) (P.Policy.reading policy.now (P.Policy.rules policy.now)) (layout (P.Policy.charted policy.now)) query.now.nodes.now (length query.now.nodes.now) table.old.places.now table.new.places.now }
    ensures servers { table.new.servers ≡ table.old.servers }
    ensures lent { table.new.places.ghost_name ≡ table.old.places.ghost_name }
{
    for (i, node) in query.nodes.iter().enumerate() {
        let source = source_of(policy, *node, &query.profiles);
        fill_row(tariff, &source, i as u16, table);
    }
}
