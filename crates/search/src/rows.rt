ghost use Rattle.std.specs.Prelude.{◌≡◌, ℕ, ◌+◌, ◌*◌, ◌<◌, ◌≤◌, Bool, true, length, slice_index_or};
ghost use Rattle.std.specs.List.{AllByRecursion};
ghost use Rattle.chart.specs.Layout.{Layout};
ghost use Rattle.chart.specs.Charts.{layout};
ghost use Rattle.profile.specs.declared.shape.Profile.{Profile as Shape};
ghost use Rattle.queries.specs.declared.node.Node.{Node as Part};
ghost use Rattle.queries.specs.Flat.{operands as used, blank, tree_of};
ghost use Rattle.queries.specs.Questions.{node_profile};
ghost use Rattle.queries.specs.Sound.{Sound};
ghost use Rattle.assignments.specs.Table.{kept};
ghost use Rattle.search.specs.Rows.{place_at, leaf_place, place_from, Row, Filled};
ghost use Rattle.search.specs.Sources.{Sourced, Joinable};

use crate::options::{Operands, best_option};
use crate::sends::{Sends, sends_of};
use crate::table::Table;
use assignments::{Mode, Place};
use policy::Policy;
use profile::{Join, Profile};
use queries::Node;
use tariff::Tariff;

// Where the places of a node come from: its relation's server, the places of its operand, or the options of a join.
#[derive(Clone, Copy)]
pub(crate) enum Source {
    Home(Option<u16>),
    Operand(u16),
    Options(Operands, Sends),
}

// The place of a leaf at a server: it costs nothing at its relation's own, and is nowhere else.
fn leaf_place<T: Tariff>(tariff: &T, home: Option<u16>, server: u16) -> Option<Place<T::Price>>
    ensures { result ≡ leaf_place (T.pricing tariff.now) home server }
{
    (home == Some(server)).then(|| Place {
        price: tariff.nothing(),
        mode: Mode::Local,
        other: server,
    })
}

// The place of a projection or a filter at a server, by its operand's.
fn kept_place<P: Copy>(server: u16, below: Option<Place<P>>) -> Option<Place<P>>
    ensures { result ≡ kept server below }
{
    below.map(|place| Place {
        mode: Mode::Local,
        other: server,
        ..place
    })
}

// The place of a node at a server, from the places of the nodes before it.
fn place_of<T: Tariff>(
    tariff: &T,
    source: &Source,
    server: u16,
    table: &Table<T::Price>,
) -> Option<Place<T::Price>>
    requires { server < table.now.servers }
    ensures { (l : Layout) (may : ℕ → Shape → Bool) (f : ℕ → Shape) (x : Part) → Sourced l may table.now.servers f x source.now → result ≡ place_from (T.pricing tariff.now) may table.now.servers l f x (place_at table.now.places.now table.now.servers) server }
{
    match source {
        Source::Home(home) => leaf_place(tariff, *home, server),
        Source::Operand(operand) => kept_place(server, table.at(*operand, server)),
        Source::Options(operands, sends) => best_option(tariff, sends, table, *operands, server),
    }
}

// Fills the row of a node.
pub(crate) fn fill_row<T: Tariff>(
    tariff: &T,
    source: &Source,
    node: u16,
    table: &mut Table<T::Price>,
)
    requires { node * table.old.servers + table.old.servers ≤ length table.old.places.now }
    ensures row { (l : Layout) (may : ℕ → Shape → Bool) (f : ℕ → Shape) (x : Part) → Sourced l may table.old.servers f x source.now → AllByRecursion (λ j. j < node) (used x) → Row table.old.servers node table.old.servers (place_from (T.pricing tariff.now) may table.old.servers l f x (place_at table.old.places.now table.old.servers)) table.old.places.now table.new.places.now }
    ensures servers { table.new.servers ≡ table.old.servers }
    ensures lent { table.new.places.ghost_name ≡ table.old.places.ghost_name }
{
    for server in 0..table.servers {
        let place = place_of(tariff, source, server, table);
        table.put(node, server, place);
    }
}

// Where the places of a node come from; the policy is asked here.
pub(crate) fn source_of<P: Policy>(policy: &P, node: Node, profiles: &[Profile]) -> Source
    requires earlier { AllByRecursion (λ j. j < length profiles.now) (used node) }
    requires joins { Joinable (layout (P.Policy.charted policy.now)) (λ j. slice_index_or profiles.now j blank) node }
    ensures { Sourced (layout (P.Policy.charted policy.now)) (P.Policy.reading policy.now (P.Policy.rules policy.now)) (layout (P.Policy.charted policy.now)).servers (λ j. slice_index_or profiles.now j blank) node result }
{
    let chart = policy.chart();
    match node {
        Node::Leaf { relation } => Source::Home(chart.server_of(relation)),
        Node::Project { operand, .. } | Node::Filter { operand, .. } => Source::Operand(operand),
        Node::Join { left, right, link } => {
            let (a, b) = (profiles[left as usize], profiles[right as usize]);
            let join = Join::new(chart, a, b, link).unwrap();
            let sends = sends_of(policy, chart.servers(), &join);
            Source::Options(Operands { left, right }, sends)
        }
    }
}
