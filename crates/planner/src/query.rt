ghost use Rattle.std.specs.Prelude.{◌≡◌, ℕ, ◌-◌, ◌<◌, ◌≤◌, Bool, true, List, length, Some, Option as Maybe};
ghost use Rattle.chart.specs.Charts.{layout};
ghost use Rattle.profile.specs.declared.shape.Profile.{Profile as Shape};
ghost use Rattle.tariff.specs.Pricing.{Pricing};
ghost use Rattle.assignments.specs.declared.parts.Place.{Place as Entry};
ghost use Rattle.assignments.specs.Table.{place as place_of};
ghost use Rattle.search.specs.Rows.{Filled};
ghost use Rattle.search.specs.Outcomes.{outcome_of};
ghost use Rattle.planner.specs.Plans.{plan_after, releases_after};
ghost use Rattle.planner.specs.Queries.{root, assigned, released, query_answer, work_after, plan_then, releases_then, WrittenOut, AnsweredBy};
ghost use Rattle.planner.specs.Judged.{Judged};

use crate::answer::{Planned, QueryRefusal};
use crate::list::list_releases;
use crate::write::write_plan;
use assignments::{Place, Release, Step};
use policy::Policy;
use queries::{Checked, Node, TreeRefusal, has_fit_count};
use search::{Blocked, Seat, Table, search_tree};
use tariff::Tariff;

// Writes out the plan and the releases that a filled table records for the query at this seat.
fn write_out<P: Copy>(
    query: &Checked,
    seat: Seat<P>,
    work: &mut [Option<Place<P>>],
    plan: &mut [Step],
    releases: &mut [Release],
) -> Planned<P>
    requires sizes { (length query.now.nodes.now ≤ length plan.old) × (length query.now.nodes.now ≤ length releases.old) }
    ensures work { work.new ≡ work.old }
    ensures wrote { (c : Pricing P) (may : ℕ → Shape → Bool) (old : List (Maybe (Entry P))) (p : Entry P) → Filled c may (layout query.now.chart.now) query.now.nodes.now (length query.now.nodes.now) old work.old → place_of c may (layout query.now.chart.now).servers (layout query.now.chart.now) (root query.now.nodes.now) seat.server ≡ Some p → seat.server < (layout query.now.chart.now).servers → WrittenOut c may (layout query.now.chart.now) query.now.nodes.now seat plan.old plan.new releases.old releases.new result }
{
    let servers = query.chart.servers();
    let table = Table {
        places: work,
        servers,
    };
    write_plan(query.nodes, &table, seat.server, plan);
    let count = list_releases(query, plan, releases);
    Planned {
        executor: seat.server,
        price: seat.price,
        releases: count,
    }
}

// Answers by what the search found: writes out the plan, or names the node that blocks.
fn answer_found<P: Copy>(
    query: &Checked,
    outcome: Result<Seat<P>, Blocked>,
    work: &mut [Option<Place<P>>],
    plan: &mut [Step],
    releases: &mut [Release],
) -> Result<Planned<P>, QueryRefusal>
    requires sizes { (length query.now.nodes.now ≤ length plan.old) × (length query.now.nodes.now ≤ length releases.old) }
    ensures work { work.new ≡ work.old }
    ensures wrote { (c : Pricing P) (may : ℕ → Shape → Bool) (old : List (Maybe (Entry P))) → Filled c may (layout query.now.chart.now) query.now.nodes.now (length query.now.nodes.now) old work.old → outcome ≡ outcome_of c may (layout query.now.chart.now) query.now.nodes.now → AnsweredBy c may (layout query.now.chart.now) query.now.nodes.now outcome plan.old plan.new releases.old releases.new result }
{
    let seat = outcome?;
    Ok(write_out(query, seat, work, plan, releases))
}

// Plans a query over any policy, at any tariff. It fills the work table, writes an executor and a mode for each node into the
// plan and the releases into their list, and returns the root's executor, the price and how many releases there are. Where
// no assignment is safe, it names the lowest node that blocks, and alters the work table alone; any other refusal alters no
// buffer. Places of the buffers that are not needed stay as they were.
pub fn plan_query<P: Policy, T: Tariff>(
    policy: &P,
    tariff: &T,
    nodes: &[Node],
    work: &mut [Option<Place<T::Price>>],
    plan: &mut [Step],
    releases: &mut [Release],
) -> Result<Planned<T::Price>, QueryRefusal>
    ensures answer { result ≡ query_answer (T.pricing tariff.now) (P.Policy.reading policy.now (P.Policy.rules policy.now)) (layout (P.Policy.charted policy.now)) nodes.now work.old plan.old releases.old }
    ensures work { work.new ≡ work_after (T.pricing tariff.now) (P.Policy.reading policy.now (P.Policy.rules policy.now)) (layout (P.Policy.charted policy.now)) nodes.now work.old plan.old releases.old }
    ensures plan { plan.new ≡ plan_then (T.pricing tariff.now) (P.Policy.reading policy.now (P.Policy.rules policy.now)) (layout (P.Policy.charted policy.now)) nodes.now work.old plan.old releases.old }
    ensures releases { releases.new ≡ releases_then (T.pricing tariff.now) (P.Policy.reading policy.now (P.Policy.rules policy.now)) (layout (P.Policy.charted policy.now)) nodes.now work.old plan.old releases.old }
    ensures judged { Judged (T.pricing tariff.now) (P.Policy.reading policy.now (P.Policy.rules policy.now)) (layout (P.Policy.charted policy.now)) nodes.now work.new plan.new releases.new result }
{
    if !has_fit_count(nodes) {
        return Err(TreeRefusal::Count.into());
    }
    if plan.len() < nodes.len() || releases.len() < nodes.len() {
        return Err(TreeRefusal::Room.into());
    }
    let found = search_tree(policy, tariff, nodes, work)?;
    let query = Checked {
        chart: policy.chart(),
        nodes,
        profiles: found.profiles,
    };
    answer_found(&query, found.outcome, work, plan, releases)
}
