ghost use Rattle.std.specs.Prelude.{◌≡◌, ℕ, ◌+◌, ◌<◌, ◌≤◌, length, slice_index_or};
ghost use Rattle.chart.specs.Charts.{layout};
ghost use Rattle.queries.specs.Flat.{node as NodeAt, blank};
ghost use Rattle.queries.specs.Questions.{node_profile};
ghost use Rattle.queries.specs.Sound.{Sound};
ghost use Rattle.assignments.specs.Modes.{sending, releases};
ghost use Rattle.planner.specs.Plans.{at_step, node_releases, entailed, releases_after, put_from};

use assignments::{Mode, Release, Step};
use profile::{Join, Profile, Side};
use queries::{Checked, Node};

// The release of a profile from one server to another.
fn release(sender: u16, receiver: u16, profile: Profile) -> Release
    ensures { result ≡ sending sender receiver profile }
{
    Release {
        sender,
        receiver,
        profile,
    }
}

// Writes what the operands of a join send one another, from `at` on, and answers where the next release goes.
fn list_join(join: &Join, mode: Mode, left: u16, right: u16, out: &mut [Release], at: u16) -> u16
    requires { (at + length (releases join.now mode left right) ≤ length out.old) × (at < 64) }
    ensures next { result ≡ at + length (releases join.now mode left right) }
    ensures wrote { out.new ≡ put_from out.old at (releases join.now mode left right) }
{
    let place = at as usize;
    match mode {
        Mode::Local => at,
        Mode::LeftMaster => {
            out[place] = release(right, left, join.operand(Side::Right));
            at + 1
        }
        Mode::LeftSemi => {
            out[place] = release(left, right, join.column(Side::Left));
            out[place + 1] = release(right, left, join.reply(Side::Left));
            at + 2
        }
        Mode::RightMaster => {
            out[place] = release(left, right, join.operand(Side::Left));
            at + 1
        }
        Mode::RightSemi => {
            out[place] = release(right, left, join.column(Side::Right));
            out[place + 1] = release(left, right, join.reply(Side::Right));
            at + 2
        }
    }
}

// Writes the releases of the node i of a plan, from `at` on, and answers where the next release goes.
fn list_node(query: &Checked, i: usize, plan: &[Step], out: &mut [Release], at: u16) -> u16
    requires sound { Sound (layout query.now.chart.now) query.now.nodes.now }
    requires profiles { (k : ℕ) → k < length query.now.nodes.now → slice_index_or query.now.profiles k blank ≡ node_profile (layout query.now.chart.now) query.now.nodes.now k }
    requires sizes { (i < length query.now.nodes.now) × (length query.now.nodes.now ≤ length plan.now) × (at < 64) }
    requires room { at + length (node_releases (layout query.now.chart.now) query.now.nodes.now (at_step plan.now) i (NodeAt query.now.nodes.now i)) ≤ length out.old }
    ensures next { result ≡ at + length (node_releases (layout query.now.chart.now) query.now.nodes.now (at_step plan.now) i (NodeAt query.now.nodes.now i)) }
    ensures wrote { out.new ≡ put_from out.old at (node_releases (layout query.now.chart.now) query.now.nodes.now (at_step plan.now) i (NodeAt query.now.nodes.now i)) }
{
    let Node::Join { left, right, link } = query.nodes[i] else {
        return at;
    };
    let (a, b) = (left as usize, right as usize);
    let Some(join) = Join::new(query.chart, query.profiles[a], query.profiles[b], link) else {
        return at;
    };
    list_join(
        &join,
        plan[i].mode,
        plan[a].executor,
        plan[b].executor,
        out,
        at,
    )
}

// Writes the releases of a plan in the order of the nodes, and answers how many there are.
pub(crate) fn list_releases(query: &Checked, plan: &[Step], out: &mut [Release]) -> u16
    requires sizes { (length query.now.nodes.now ≤ length plan.now) × (length query.now.nodes.now ≤ length out.old) }
    ensures count { result ≡ length (entailed (layout query.now.chart.now) query.now.nodes.now (at_step plan.now) (length query.now.nodes.now)) }
    ensures wrote { out.new ≡ releases_after (entailed (layout query.now.chart.now) query.now.nodes.now (at_step plan.now) (length query.now.nodes.now)) out.old }
    ensures few { result < length query.now.nodes.now }
{
    let mut at = 0;
    for i in 0..query.nodes.len() {
        at = list_node(query, i, plan, out, at);
    }
    at
}
