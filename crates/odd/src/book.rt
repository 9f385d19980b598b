ghost use Rattle.std.specs.Prelude.{◌≡◌, true, [], nat_le};
ghost use Rattle.std.specs.List.{list_all, list_any};
ghost use Rattle.std.proofs.Common.{ap, rules, arith};
ghost use Rattle.chart.specs.Charts.{layout};
ghost use Rattle.rules.specs.Rules.{well_formed};
ghost use Rattle.odd.specs.Loose.{rules_of, lets as rule_lets, loose_reading, one_fits};
ghost use Rattle.odd.specs.LooseLaws.{loose_lawful};
ghost use Rattle.policy.proofs.Orders.{same_length};

use chart::Chart;
use policy::{Book, BookRefusal, Policy, is_inside};
use profile::Profile;
use rules::{Rule, RuleRecord, check_rule};

// A book with room for one rule. It lets the rule's server see the rule's attributes on any path, whatever was filtered by.
#[derive(Clone, Copy)]
pub struct SingleRuleBook {
    chart: Chart,
    rule: Option<Rule>,
    ghost formed: { list_all (well_formed (layout chart)) (rules_of rule) ≡ true },
}

// Whether the rule, if there is one, lets the server see the profile.
fn lets(rule: &Option<Rule>, server: u16, profile: &Profile) -> bool
    ensures { result ≡ list_any (rule_lets server profile.now) (rules_of rule.now) }
{
    rule.is_some_and(|rule| {
        let view = rule.given.view;
        view.server == server && profile.shown.is_subset(view.attributes)
    })
}

impl SingleRuleBook {
    // A book with no rule.
    pub fn new(chart: Chart) -> SingleRuleBook
        ensures chart { result.chart ≡ chart }
        ensures rules { rules_of result.rule ≡ [] }
    {
        SingleRuleBook { chart, rule: None }
    }
}

impl Policy for SingleRuleBook {
    ghost charted = { λ b. b.chart };

    ghost rules = { λ b. rules_of b.rule };

    ghost reading = { λ b. loose_reading (layout b.chart) };

    ghost lawful = { λ b. loose_lawful b.chart b.rule b.formed };

    fn chart(&self) -> &Chart {
        &self.chart
    }

    fn allows(&self, server: u16, profile: &Profile) -> bool {
        is_inside(&self.chart, server, profile) && lets(&self.rule, server, profile)
    }
}

impl Book for SingleRuleBook {
    ghost fits = { λ b. one_fits };

    ghost lone = { Prim.search rules };

    ghost less = { Prim.search rules };

    ghost alike = { λ s xs ys h. ap (λ n. nat_le n 1) (same_length h) };

    fn enter(&mut self, given: RuleRecord) -> Result<(), BookRefusal> {
        let rule = check_rule(&self.chart, given)?;
        match self.rule {
            Some(held) if held.given.number == rule.given.number => Err(BookRefusal::InForce),
            Some(_) => Err(BookRefusal::Full),
            None => {
                self.rule = Some(rule);
                Ok(())
            }
        }
    }

    fn withdraw(&mut self, number: u16) -> Result<(), BookRefusal> {
        match self.rule {
            Some(held) if held.given.number == number => {
                self.rule = None;
                Ok(())
            }
            _ => Err(BookRefusal::NotInForce),
        }
    }
}
