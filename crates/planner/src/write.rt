ghost use Rattle.std.specs.Prelude.{◌≡◌, ℕ, ◌-◌, ◌<◌, ◌≤◌, Bool, List, length, Some, Option as Maybe};
ghost use Rattle.std.specs.List.{AllByRecursion};
ghost use Rattle.chart.specs.Layout.{Layout};
ghost use Rattle.chart.specs.Sound.{Sound as SoundChart};
ghost use Rattle.profile.specs.declared.shape.Profile.{Profile as Shape};
ghost use Rattle.tariff.specs.Pricing.{Pricing};
ghost use Rattle.queries.specs.Flat.{node as NodeAt, operands, tree_of};
ghost use Rattle.queries.specs.Sound.{Sound};
ghost use Rattle.assignments.specs.declared.parts.Place.{Place as Seat};
ghost use Rattle.assignments.specs.Table.{place as place_of, recorded};
ghost use Rattle.search.specs.Rows.{Filled};
ghost use Rattle.planner.specs.Plans.{led, plan_after};

use assignments::{Mode, Step};
use queries::Node;
use search::Table;

// Writes the step of a node, and sends its operands where its mode has them. Their own modes are written when they are reached.
fn lead(node: Node, i: usize, executor: u16, mode: Mode, other: u16, plan: &mut [Step])
    requires { (AllByRecursion (λ j. j < i) (operands node)) × (i < length plan.old) }
    ensures { plan.new ≡ led node i executor mode other plan.old }
{
    plan[i] = Step { executor, mode };
    match node {
        Node::Leaf { .. } => {}
        Node::Project { operand, .. } | Node::Filter { operand, .. } => {
            plan[operand as usize] = Step {
                executor,
                mode: Mode::Local,
            };
        }
        Node::Join { left, right, .. } => {
            plan[left as usize] = Step {
                executor: mode.left_at(executor, other),
                mode: Mode::Local,
            };
            plan[right as usize] = Step {
                executor: mode.right_at(executor, other),
                mode: Mode::Local,
            };
        }
    }
}

// Writes the plan that the table records for the whole query with this executor, from the root down: each node is where its
// user sent it, and goes on by its own place.
pub(crate) fn write_plan<P: Copy>(
    nodes: &[Node],
    table: &Table<P>,
    executor: u16,
    plan: &mut [Step],
)
    requires sizes { (0 < length nodes.now) × (length nodes.now ≤ length plan.old) × (length nodes.now < 64) }
    requires earlier { (i : ℕ) → i < length nodes.now → AllByRecursion (λ j. j < i) (operands (NodeAt nodes.now i)) }
    ensures { (l : Layout) (c : Pricing P) (may : ℕ → Shape → Bool) (old : List (Maybe (Seat P))) (p : Seat P) → SoundChart l → Sound l nodes.now → table.now.servers ≡ l.servers → Filled c may l nodes.now (length nodes.now) old table.now.places.now → place_of c may l.servers l (tree_of nodes.now (length nodes.now - 1)) executor ≡ Some p → executor < l.servers → plan.new ≡ plan_after (recorded c may l.servers l (tree_of nodes.now (length nodes.now - 1)) executor) (length nodes.now) plan.old }
{
    let root = nodes.len() - 1;
    plan[root] = Step {
        executor,
        mode: Mode::Local,
    };
    for i in (0..nodes.len()).rev() {
        let server = plan[i].executor;
        let Some(place) = table.at(i as u16, server) else {
            return;
        };
        lead(nodes[i], i, server, place.mode, place.other, plan);
    }
}
