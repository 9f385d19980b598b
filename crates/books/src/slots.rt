ghost use Rattle.std.specs.Prelude.{◌≡◌, false, length, is_some, position, MatchOption};
ghost use Rattle.policy.specs.Books.{in_force};
ghost use Rattle.books.specs.Slots.{held, numbered, is_free, Holds, Free};

use rules::Rule;

// Whether a slot holds the rule of this number.
fn has_number(slot: &Option<Rule>, number: u16) -> bool
    ensures { result ≡ numbered number slot.now }
{
    slot.is_some_and(|rule| rule.given.number == number)
}

// The slot that holds the rule of this number.
pub fn slot_of(slots: &[Option<Rule>], number: u16) -> Option<usize>
    ensures value { result ≡ position (numbered number) slots.now }
    ensures finds { MatchOption result (in_force number (held slots.now) ≡ false) (λ i. Holds slots.now i number) }
    ensures whether { is_some result ≡ in_force number (held slots.now) }
{
    slots.iter().position(|slot| has_number(slot, number))
}

// Whether a rule of this number is held.
pub fn holds_number(slots: &[Option<Rule>], number: u16) -> bool
    ensures { result ≡ in_force number (held slots.now) }
{
    slot_of(slots, number).is_some()
}

// The first slot that holds no rule.
pub fn free_slot(slots: &[Option<Rule>]) -> Option<usize>
    ensures value { result ≡ position is_free slots.now }
    ensures finds { MatchOption result (length (held slots.now) ≡ length slots.now) (λ i. Free slots.now i) }
{
    slots.iter().position(|slot| slot.is_none())
}
