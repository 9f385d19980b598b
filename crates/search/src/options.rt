ghost use Rattle.std.specs.Prelude.{◌≡◌, ℕ, ◌<◌, Bool, ◌&&◌, ◌⊎◌, Some};
ghost use Rattle.profile.specs.declared.shape.Profile.{Profile as Shape};
ghost use Rattle.profile.specs.declared.join.Join.{Join as Pair};
ghost use Rattle.assignments.specs.Modes.{fits, left_at, right_at, releases, allowed};
ghost use Rattle.assignments.specs.Assignments.{own_price};
ghost use Rattle.assignments.specs.Table.{weighed, offer as option_of, best_of_mode, best};
ghost use Rattle.search.specs.Rows.{place_at};
ghost use Rattle.search.specs.Sends.{Sent};

use crate::cheapest::{better, cheapest};
use crate::sends::{Sends, is_open, price_of};
use crate::table::Table;
use assignments::{Mode, Place};
use tariff::Tariff;

// The two operands of a join, by their nodes.
#[derive(Clone, Copy)]
pub(crate) struct Operands {
    pub(crate) left: u16,
    pub(crate) right: u16,
}

// Whether a mode is open to a master with the other operand at this server.
fn is_option(sends: &Sends, mode: Mode, master: u16, other: u16) -> bool
    ensures { (may : ℕ → Shape → Bool) (n : ℕ) (j : Pair) → Sent may n j sends.now → left_at mode master other < n → right_at mode master other < n → result ≡ (fits mode master other && allowed may (releases j mode (left_at mode master other) (right_at mode master other))) }
{
    let left = mode.left_at(master, other);
    let right = mode.right_at(master, other);
    mode.fits(master, other) && is_open(sends, mode, left, right)
}

// What an option gives from the operands' places, if it is open.
fn weigh<T: Tariff>(
    tariff: &T,
    sends: &Sends,
    mode: Mode,
    master: u16,
    other: u16,
    left: Place<T::Price>,
    right: Place<T::Price>,
) -> Option<Place<T::Price>>
    ensures { (may : ℕ → Shape → Bool) (n : ℕ) (j : Pair) → Sent may n j sends.now → left_at mode master other < n → right_at mode master other < n → result ≡ weighed (T.pricing tariff.now) (fits mode master other && allowed may (releases j mode (left_at mode master other) (right_at mode master other))) mode other (own_price (T.pricing tariff.now) (releases j mode (left_at mode master other) (right_at mode master other))) (Some left) (Some right) }
{
    if !is_option(sends, mode, master, other) {
        return None;
    }
    let operands = tariff.join(left.price, right.price);
    let left_at = mode.left_at(master, other);
    let right_at = mode.right_at(master, other);
    let own = price_of(tariff, sends, mode, left_at, right_at);
    Some(Place {
        price: tariff.join(operands, own),
        mode,
        other,
    })
}

// The option of a mode with the other operand at this server; none where it is not open or an operand's place is empty.
fn offer<T: Tariff>(
    tariff: &T,
    sends: &Sends,
    table: &Table<T::Price>,
    operands: Operands,
    master: u16,
    mode: Mode,
    other: u16,
) -> Option<Place<T::Price>>
    requires { (master < table.now.servers) × (other < table.now.servers) }
    ensures { (may : ℕ → Shape → Bool) (j : Pair) → Sent may table.now.servers j sends.now → result ≡ option_of (T.pricing tariff.now) may table.now.servers j (place_at table.now.places.now table.now.servers operands.left) (place_at table.now.places.now table.now.servers operands.right) master mode other }
{
    let left = table.at(operands.left, mode.left_at(master, other))?;
    let right = table.at(operands.right, mode.right_at(master, other))?;
    weigh(tariff, sends, mode, master, other, left, right)
}

// The operand that lies at the master.
fn own_operand(operands: Operands, mode: Mode) -> u16
    ensures { ((result ≡ operands.left) × ((s u : ℕ) → left_at mode s u ≡ s)) ⊎ ((result ≡ operands.right) × ((s u : ℕ) → right_at mode s u ≡ s)) }
{
    match mode {
        Mode::Local | Mode::LeftMaster | Mode::LeftSemi => operands.left,
        Mode::RightMaster | Mode::RightSemi => operands.right,
    }
}

// The first of the cheapest options of a mode. There is none where the operand that lies at the master has no place there.
fn best_by<T: Tariff>(
    tariff: &T,
    sends: &Sends,
    table: &Table<T::Price>,
    operands: Operands,
    master: u16,
    mode: Mode,
) -> Option<Place<T::Price>>
    requires { master < table.now.servers }
    ensures { (may : ℕ → Shape → Bool) (j : Pair) → Sent may table.now.servers j sends.now → result ≡ best_of_mode (T.pricing tariff.now) may table.now.servers j (place_at table.now.places.now table.now.servers operands.left) (place_at table.now.places.now table.now.servers operands.right) master mode }
{
    table.at(own_operand(operands, mode), master)?;
    cheapest(tariff, table.servers, |other| {
        offer(tariff, sends, table, operands, master, mode, other)
    })
}

// The first of the cheapest options of a join with this master, by mode and then by the other operand's server.
pub(crate) fn best_option<T: Tariff>(
    tariff: &T,
    sends: &Sends,
    table: &Table<T::Price>,
    operands: Operands,
    master: u16,
) -> Option<Place<T::Price>>
    requires { master < table.now.servers }
    ensures { (may : ℕ → Shape → Bool) (j : Pair) → Sent may table.now.servers j sends.now → result ≡ best (T.pricing tariff.now) may table.now.servers j (place_at table.now.places.now table.now.servers operands.left) (place_at table.now.places.now table.now.servers operands.right) master }
{
    let mut best = None;
    for mode in Mode::ALL {
        let place = best_by(tariff, sends, table, operands, master, mode);
        best = better(tariff, best, place);
    }
    best
}
