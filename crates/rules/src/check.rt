ghost use Rattle.std.specs.Prelude.{◌≡◌, ◌≤◌, true, IfOk};
ghost use Rattle.chart.specs.Charts.{layout};
ghost use Rattle.rules.specs.Rules.{path_joins, rule_answer, well_formed};
ghost use Rattle.rules.specs.Checked.{as_handed_in};

use crate::refusal::RuleRefusal;
use crate::rule::Rule;
use crate::tree_test::is_tree;
use crate::view::{RuleRecord, View};
use chart::Chart;
use sets::SmallSet;

// Whether the links of a view are known, and its path joins its relations into one tree.
#[tactic(auto, unfolding(crate::specs::Rules::path_joins))]
fn is_joined(chart: &Chart, view: View) -> bool
    ensures { result ≡ path_joins (layout chart.now) view }
{
    chart.knows_links(view.path) && is_tree(chart, view.attributes, view.path)
}

// The rule, if it passes every question on this chart; else the first refusal.
pub fn check_rule(chart: &Chart, given: RuleRecord) -> Result<Rule, RuleRefusal>
    ensures answer { as_handed_in result ≡ rule_answer (layout chart.now) given }
    ensures passed { IfOk result (λ rule. well_formed (layout chart.now) rule.given ≡ true) }
{
    let view = given.view;
    if !(1..=999).contains(&given.number) {
        return Err(RuleRefusal::Number);
    }
    if view.server >= chart.servers() {
        return Err(RuleRefusal::Server);
    }
    if !chart.knows_attributes(view.attributes) || view.attributes == SmallSet::empty() {
        return Err(RuleRefusal::Attributes);
    }
    if !is_joined(chart, view) {
        return Err(RuleRefusal::Path);
    }
    Ok(Rule { given })
}
