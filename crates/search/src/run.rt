ghost use Rattle.std.specs.Prelude.{◌≡◌, ℕ, ◌*◌, ◌<◌, ◌≤◌, length, IfOk};
ghost use Rattle.chart.specs.Charts.{layout};
ghost use Rattle.queries.specs.Questions.{verdict};
ghost use Rattle.search.specs.Rows.{place_at, Filled};
ghost use Rattle.search.specs.Outcomes.{read_from, outcome_of, search_answer, TableAfter, Found};

use crate::fill::fill_table;
use crate::root::{Seat, choose, lowest_empty};
use crate::table::Table;
use assignments::Place;
use policy::Policy;
use profile::Profile;
use queries::{Checked, Node, TreeRefusal, has_fit_count};
use tariff::Tariff;
use thiserror::Error;

// No safe assignment: the lowest node whose own subtree has none.
#[derive(Clone, Copy, Debug, PartialEq, Eq, Error)]
#[error("node {node}: no safe assignment")]
pub struct Blocked {
    pub node: u16,
}

// The profile of each node, in the first places, and what was found for the root: the cheapest executor, or what blocks.
#[derive(Clone, Copy)]
pub struct Searched<P> {
    pub profiles: [Profile; 63],
    pub outcome: Result<Seat<P>, Blocked>,
}

// What a filled table says of the root.
fn read_outcome<T: Tariff>(
    tariff: &T,
    table: &Table<T::Price>,
    count: u16,
) -> Result<Seat<T::Price>, Blocked>
    requires { 0 < count }
    ensures { result ≡ read_from (T.pricing tariff.now) table.now.servers count (place_at table.now.places.now table.now.servers) }
{
    match choose(tariff, table, count - 1) {
        Some(seat) => Ok(seat),
        // The root's row is empty, so there is one.
        None => Err(Blocked {
            node: lowest_empty(table, count).unwrap(),
        }),
    }
}

// Fills the table for a query that passed its questions, and says what was found for the root.
fn run_search<P: Policy, T: Tariff>(
    policy: &P,
    tariff: &T,
    query: &Checked,
    work: &mut [Option<Place<T::Price>>],
) -> Result<Seat<T::Price>, Blocked>
    requires chart { query.now.chart.now ≡ P.Policy.charted policy.now }
    requires room { length query.now.nodes.now * (layout (P.Policy.charted policy.now)).servers ≤ length work.old }
    ensures outcome { result ≡ outcome_of (T.pricing tariff.now) (P.Policy.reading policy.now (P.Policy.rules policy.now)) (layout (P.Policy.charted policy.now)) query.now.nodes.now }
    ensures filled { Filled (T.pricing tariff.now) (P.Policy.reading policy.now (P.Policy.rules policy.now)) (layout (P.Policy.charted policy.now)) query.now.nodes.now (length query.now.nodes.now) work.old work.new }
{
    let servers = policy.chart().servers();
    let mut table = Table {
        places: work,
        servers,
    };
    fill_table(policy, tariff, query, &mut table);
    read_outcome(tariff, &table, query.nodes.len() as u16)
}

// Searches a query over any policy, at any tariff: fills the work table, and answers each node's profile and what was found
// for the root; or the first refusal, with the table as it was.
pub fn search_tree<P: Policy, T: Tariff>(
    policy: &P,
    tariff: &T,
    nodes: &[Node],
    work: &mut [Option<Place<T::Price>>],
) -> Result<Searched<T::Price>, TreeRefusal>
    ensures answer { verdict result ≡ search_answer (layout (P.Policy.charted policy.now)) nodes.now (length work.old) }
    ensures table { TableAfter (T.pricing tariff.now) (P.Policy.reading policy.now (P.Policy.rules policy.now)) (layout (P.Policy.charted policy.now)) nodes.now work.old work.new (verdict result) }
    ensures found { IfOk result (λ v. Found (T.pricing tariff.now) (P.Policy.reading policy.now (P.Policy.rules policy.now)) (layout (P.Policy.charted policy.now)) nodes.now v) }
{
    if !has_fit_count(nodes) {
        return Err(TreeRefusal::Count);
    }
    let chart = policy.chart();
    if work.len() < nodes.len() * chart.servers() as usize {
        return Err(TreeRefusal::Room);
    }
    let query = Checked::new(chart, nodes)?;
    let outcome = run_search(policy, tariff, &query, work);
    Ok(Searched {
        profiles: query.profiles,
        outcome,
    })
}
