ghost use Rattle.std.specs.Prelude.{◌≡◌, ℕ, ◌-◌, ◌<◌, ◌≤◌, true, ◌||◌, [], ◌∷◌, length, get_or, IfOk, if◌then◌else◌, Some, None, OnOk, ◌==◌, slice_index_or};
ghost use Rattle.std.specs.List.{AllByRecursion};
ghost use Rattle.sets.specs.Sets.{has};
ghost use Rattle.chart.specs.Questions.{asked};
ghost use Rattle.chart.specs.Charts.{layout};
ghost use Rattle.queries.specs.Flat.{operands, profile_by, blank};
ghost use Rattle.queries.specs.Sound.{Sound};
ghost use Rattle.queries.specs.Questions.{uses, is_leaf, used_by, stands_in, operands_fit, attributes_fit, kind_fits, kind_refusal, node_questions, node_profile, questions_from, uses_from, answered, tree_questions, count_fits, tree_answer, verdict};

use crate::node::Node;
use crate::refusal::TreeRefusal;
use chart::Chart;
use profile::{Join, Profile};
use sets::SmallSet;

// Of the nodes before one: which are used, and the relations of the leaves.
#[derive(Clone, Copy, Default)]
struct Seen {
    used: SmallSet,
    relations: SmallSet,
}

// The set with a number too; a number of 64 or above is in no set.
fn with_number(set: SmallSet, i: u16) -> SmallSet
    ensures { (j : ℕ) → j < 64 → has result j ≡ (has set j || i == j) }
{
    set.insert(i).unwrap_or(set)
}

// What is seen once this node was passed too.
fn with_node(seen: Seen, node: Node) -> Seen
    ensures used { (j : ℕ) → j < 64 → has result.used j ≡ (has seen.used j || uses j node) }
    ensures relations { (q : ℕ) → q < 64 → has result.relations q ≡ (has seen.relations q || is_leaf q node) }
{
    match node {
        Node::Leaf { relation } => Seen {
            relations: with_number(seen.relations, relation),
            ..seen
        },
        Node::Project { operand, .. } | Node::Filter { operand, .. } => Seen {
            used: with_number(seen.used, operand),
            ..seen
        },
        Node::Join { left, right, .. } => Seen {
            used: with_number(with_number(seen.used, left), right),
            ..seen
        },
    }
}

// Whether an operand of the node i is an earlier node that is not used yet.
fn is_free(operand: u16, i: u16, used: SmallSet) -> bool
    ensures { result ≡ operands_fit (has used) i (operand ∷ []) }
{
    operand < i && !used.contains(operand)
}

// Whether the operands of the node i are earlier, different and not yet used.
fn has_operands(node: Node, i: u16, used: SmallSet) -> bool
    ensures { result ≡ operands_fit (has used) i (operands node) }
{
    match node {
        Node::Leaf { .. } => true,
        Node::Project { operand, .. } | Node::Filter { operand, .. } => is_free(operand, i, used),
        Node::Join { left, right, .. } => {
            is_free(left, i, used) && is_free(right, i, used) && left != right
        }
    }
}

// The profile, if there are attributes and it shows all of them.
fn showing(profile: Profile, attributes: SmallSet) -> Option<Profile>
    ensures { result ≡ (if attributes_fit attributes profile.shown then Some profile else None) }
{
    let fits = attributes != SmallSet::empty() && attributes.is_subset(profile.shown);
    fits.then_some(profile)
}

// The profile of a node, if it passes the question for its kind, by the profiles of the nodes before it.
fn profile_of_node(
    chart: &Chart,
    node: Node,
    relations: SmallSet,
    profiles: &[Profile],
) -> Option<Profile>
    requires { AllByRecursion (λ j. j < length profiles.now) (operands node) }
    ensures { result ≡ (if kind_fits (layout chart.now) (has relations) (λ j. get_or profiles.now j blank) node then Some (profile_by (layout chart.now) (λ j. get_or profiles.now j blank) node) else None) }
{
    match node {
        Node::Leaf { relation } if relations.contains(relation) => None,
        Node::Leaf { relation } => Profile::leaf(chart, relation),
        Node::Project {
            operand,
            attributes,
        } => Some(showing(profiles[operand as usize], attributes)?.project(attributes)),
        Node::Filter {
            operand,
            attributes,
        } => Some(showing(profiles[operand as usize], attributes)?.filter(attributes)),
        Node::Join { left, right, link } => {
            let (left, right) = (profiles[left as usize], profiles[right as usize]);
            Some(Join::new(chart, left, right, link)?.profile())
        }
    }
}

// The refusal of a node that does not pass the question for its kind.
fn refusal_of_kind(node: Node, i: u16) -> TreeRefusal
    ensures { result ≡ kind_refusal i node }
{
    match node {
        Node::Leaf { .. } => TreeRefusal::Relation(i),
        Node::Project { .. } | Node::Filter { .. } => TreeRefusal::Attributes(i),
        Node::Join { .. } => TreeRefusal::Link(i),
    }
}

// The profile of the node i, if it passes its questions; else the first refusal.
fn check_node(
    chart: &Chart,
    node: Node,
    i: u16,
    seen: Seen,
    profiles: &[Profile],
) -> Result<Profile, TreeRefusal>
    requires { i ≤ length profiles.now }
    ensures { result ≡ asked (node_questions (layout chart.now) (has seen.used) (has seen.relations) (λ j. get_or profiles.now j blank) i node) (profile_by (layout chart.now) (λ j. get_or profiles.now j blank) node) }
{
    if !has_operands(node, i, seen.used) {
        return Err(TreeRefusal::Operand(i));
    }
    profile_of_node(chart, node, seen.relations, profiles).ok_or_else(|| refusal_of_kind(node, i))
}

// Puts its questions to each node in turn, and keeps the profile of each. The answer is the set of the used nodes.
fn check_nodes(
    chart: &Chart,
    nodes: &[Node],
    profiles: &mut [Profile],
) -> Result<SmallSet, TreeRefusal>
    requires { (length nodes.now ≤ length profiles.old) × (length nodes.now ≤ 63) }
    ensures answer { verdict result ≡ answered (questions_from (layout chart.now) nodes.now 0 (length nodes.now)) }
    ensures used { IfOk result (λ u. (j : ℕ) → j < 64 → has u j ≡ used_by nodes.now (length nodes.now) j) }
    ensures profiles { OnOk result ((k : ℕ) → k < length nodes.now → slice_index_or profiles.new k blank ≡ node_profile (layout chart.now) nodes.now k) }
{
    let mut seen = Seen::default();
    for (i, node) in nodes.iter().enumerate() {
        profiles[i] = check_node(chart, *node, i as u16, seen, profiles)?;
        seen = with_node(seen, *node);
    }
    Ok(seen.used)
}

// Whether each of the first nodes is used; else the lowest that is not.
fn check_used(used: SmallSet, count: u16) -> Result<(), TreeRefusal>
    ensures { result ≡ answered (uses_from (has used) 0 count) }
{
    (0..count)
        .find(|j| !used.contains(*j))
        .map_or(Ok(()), |j| Err(TreeRefusal::Unused(j)))
}

// Whether there are 1 to 63 nodes.
pub fn has_fit_count(nodes: &[Node]) -> bool
    ensures { result ≡ count_fits nodes.now }
{
    (1..=63).contains(&nodes.len())
}

// The questions of the nodes, and then whether all but the root are used.
fn check_all(chart: &Chart, nodes: &[Node], profiles: &mut [Profile]) -> Result<(), TreeRefusal>
    requires { (length nodes.now ≤ length profiles.old) × (count_fits nodes.now ≡ true) }
    ensures answer { result ≡ answered (tree_questions (layout chart.now) nodes.now) }
    ensures profiles { OnOk result ((k : ℕ) → k < length nodes.now → slice_index_or profiles.new k blank ≡ node_profile (layout chart.now) nodes.now k) }
{
    let used = check_nodes(chart, nodes, profiles)?;
    check_used(used, (nodes.len() - 1) as u16)
}

// The profile of each node, in the first places, if the tree passes every question on this chart; else the first refusal.
pub fn check_tree(chart: &Chart, nodes: &[Node]) -> Result<[Profile; 63], TreeRefusal>
    ensures answer { verdict result ≡ tree_answer (layout chart.now) nodes.now }
    ensures sized { IfOk result (λ ps. length ps ≡ 63) }
    ensures profiles { IfOk result (λ ps. (k : ℕ) → k < length nodes.now → slice_index_or ps k blank ≡ node_profile (layout chart.now) nodes.now k) }
    ensures sound { OnOk result (Sound (layout chart.now) nodes.now) }
{
    if !has_fit_count(nodes) {
        return Err(TreeRefusal::Count);
    }
    let mut profiles = [Profile::default(); 63];
    check_all(chart, nodes, &mut profiles)?;
    Ok(profiles)
}
