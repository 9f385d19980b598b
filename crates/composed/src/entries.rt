ghost use Rattle.std.specs.Prelude.{◌≡◌};
ghost use Rattle.chart.specs.Charts.{layout};
ghost use Rattle.policy.specs.Same.{Same};
ghost use Rattle.policy.specs.Books.{entry_answer, entry_list, withdrawal_answer, withdrawal_list};
ghost use Rattle.books.specs.Slots.{held};
ghost use Rattle.composed.specs.Composed.{composed_fits};
ghost use Rattle.composed.specs.Kept.{Kept};

use crate::table::MemberTable;
use books::ExactBook;
use policy::{Book, BookRefusal};
use rules::RuleRecord;

// Enters a rule and composes anew; a refusal leaves the rules and their members as they were.
pub(crate) fn enter_rule(
    exact: &mut ExactBook,
    members: &mut MemberTable,
    given: RuleRecord,
) -> Result<(), BookRefusal>
    requires { Kept (layout exact.old.chart) exact.old.slots members.old.places members.old.count }
    ensures kept { Kept (layout exact.new.chart) exact.new.slots members.new.places members.new.count }
    ensures answer { result ≡ entry_answer (layout exact.old.chart) (composed_fits (layout exact.old.chart)) (held exact.old.slots) given }
    ensures after { Same (held exact.new.slots) (entry_list (layout exact.old.chart) (composed_fits (layout exact.old.chart)) (held exact.old.slots) given) }
    ensures chart { exact.new.chart ≡ exact.old.chart }
{
    exact.enter(given)?;
    let mut grown = *members;
    let Some(()) = grown.refill(exact) else {
        // the rule that was just entered leaves again
        let _ = exact.withdraw(given.number);
        return Err(BookRefusal::Full);
    };
    *members = grown;
    Ok(())
}

// Withdraws the rule of this number and composes anew, so that no member outlives it.
pub(crate) fn take_rule(
    exact: &mut ExactBook,
    members: &mut MemberTable,
    number: u16,
) -> Result<(), BookRefusal>
    requires { Kept (layout exact.old.chart) exact.old.slots members.old.places members.old.count }
    ensures kept { Kept (layout exact.new.chart) exact.new.slots members.new.places members.new.count }
    ensures answer { result ≡ withdrawal_answer (held exact.old.slots) number }
    ensures after { Same (held exact.new.slots) (withdrawal_list (held exact.old.slots) number) }
    ensures chart { exact.new.chart ≡ exact.old.chart }
{
    exact.withdraw(number)?;
    let Some(()) = members.refill(exact) else {
        unreachable()
    };
    Ok(())
}
