ghost use Rattle.std.specs.Prelude.{◌≡◌, ◌≤◌, ◌≢◌};
ghost use Rattle.sets.specs.Sets.{none};

use crate::view::RuleRecord;

// A rule that has passed its questions. What can be said of it without a chart is part of the type.
#[derive(Clone, Copy)]
pub struct Rule {
    pub given: RuleRecord,
    ghost numbered: { (1 ≤ given.number) × (given.number ≤ 999) },
    ghost some: { given.view.attributes ≢ none },
}
