ghost use Rattle.std.specs.Prelude.{◌≡◌, ℕ, Bool, true, List, [], ◌∷◌};
ghost use Rattle.chart.specs.declared.state.Chart.{Chart};
ghost use Rattle.chart.specs.Charts.{layout};
ghost use Rattle.profile.specs.declared.shape.Profile.{Profile};
ghost use Rattle.rules.specs.declared.view.RuleRecord.{RuleRecord};
ghost use Rattle.policy.specs.Same.{Same};
ghost use Rattle.policy.specs.Books.{entry_answer, entry_list, withdrawal_answer, withdrawal_list, rules_after};
ghost use Rattle.policy.specs.Lawful.{Lawful};

use crate::refusal::BookRefusal;
use chart::Chart;
use profile::Profile;
use rules::RuleRecord;

// A list of rules in force, and a reading, which says for any list of rules which server may see which profile.
pub trait Policy {
    ghost charted: { Self → Chart };

    ghost rules: { Self → List RuleRecord };

    ghost reading: { Self → List RuleRecord → ℕ → Profile → Bool };

    ghost lawful: { (s : Self) → Lawful (charted s) (rules s) (reading s) };

    // The chart that the rules are about.
    fn chart(&self) -> &Chart
        ensures { result.now ≡ charted self.now };

    // Whether the rules in force, as this policy reads them, let the server see the profile.
    fn allows(&self, server: u16, profile: &Profile) -> bool
        ensures { result ≡ reading self.now (rules self.now) server profile.now };
}

// A policy that also takes entries and withdrawals, and says which lists of rules fit.
pub trait Book: Policy {
    ghost fits: { Self → List RuleRecord → Bool };

    // Puts a rule into force.
    fn enter(&mut self, given: RuleRecord) -> Result<(), BookRefusal>
        ensures answer { result ≡ entry_answer (layout (Self.Policy.charted self.old)) (fits self.old) (Self.Policy.rules self.old) given }
        ensures after { Same (Self.Policy.rules self.new) (entry_list (layout (Self.Policy.charted self.old)) (fits self.old) (Self.Policy.rules self.old) given) }
        ensures chart { Self.Policy.charted self.new ≡ Self.Policy.charted self.old }
        ensures reads { Self.Policy.reading self.new ≡ Self.Policy.reading self.old }
        ensures fitting { fits self.new ≡ fits self.old };

    // Withdraws the rule of this number.
    fn withdraw(&mut self, number: u16) -> Result<(), BookRefusal>
        ensures answer { result ≡ withdrawal_answer (Self.Policy.rules self.old) number }
        ensures after { Same (Self.Policy.rules self.new) (withdrawal_list (Self.Policy.rules self.old) number) }
        ensures chart { Self.Policy.charted self.new ≡ Self.Policy.charted self.old }
        ensures reads { Self.Policy.reading self.new ≡ Self.Policy.reading self.old }
        ensures fitting { fits self.new ≡ fits self.old };

    // A list of one rule fits.
    ghost lone: { (s : Self) (r : RuleRecord) → fits s (r ∷ []) ≡ true };

    // A fitting list less one rule fits.
    ghost less: { (s : Self) (r : RuleRecord) (xs : List RuleRecord) → fits s (r ∷ xs) ≡ true → fits s xs ≡ true };

    // The order of a list never matters.
    ghost alike: { (s : Self) (xs ys : List RuleRecord) → Same xs ys → fits s xs ≡ fits s ys };
}
