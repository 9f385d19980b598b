ghost use Rattle.std.specs.Prelude.{◌≡◌, ℕ, ◌<◌, ◌≤◌, Bool};
ghost use Rattle.profile.specs.declared.shape.Profile.{Profile as Shape};
ghost use Rattle.profile.specs.declared.join.Join.{Join as Pair};
ghost use Rattle.assignments.specs.Modes.{releases, allowed};
ghost use Rattle.assignments.specs.Assignments.{own_price};
ghost use Rattle.search.specs.Sends.{Told, Sent};

use assignments::Mode;
use policy::Policy;
use profile::{Join, Profile, Side};
use sets::SmallSet;
use tariff::Tariff;

// A profile, and the servers that may see it.
#[derive(Clone, Copy)]
pub(crate) struct Sending {
    profile: Profile,
    receivers: SmallSet,
}

// All that the operands of a join may send one another: each operand whole, its join column, and the reply to that.
#[derive(Clone, Copy)]
pub(crate) struct Sends {
    left: Sending,
    right: Sending,
    left_column: Sending,
    left_reply: Sending,
    right_column: Sending,
    right_reply: Sending,
}

// Asks the policy, for each server, whether it may see the profile.
fn with_receivers<P: Policy>(policy: &P, servers: u16, profile: Profile) -> Sending
    requires { servers ≤ 16 }
    ensures { Told (P.Policy.reading policy.now (P.Policy.rules policy.now)) servers profile result }
{
    let mut receivers = SmallSet::empty();
    for server in 0..servers {
        if policy.allows(server, &profile) {
            receivers = receivers.insert(server).unwrap_or(receivers);
        }
    }
    Sending { profile, receivers }
}

// What a join may send, with the policy's answers for each server: one question for each profile and receiver.
pub(crate) fn sends_of<P: Policy>(policy: &P, servers: u16, join: &Join) -> Sends
    requires { servers ≤ 16 }
    ensures { Sent (P.Policy.reading policy.now (P.Policy.rules policy.now)) servers join.now result }
{
    Sends {
        left: with_receivers(policy, servers, join.operand(Side::Left)),
        right: with_receivers(policy, servers, join.operand(Side::Right)),
        left_column: with_receivers(policy, servers, join.column(Side::Left)),
        left_reply: with_receivers(policy, servers, join.reply(Side::Left)),
        right_column: with_receivers(policy, servers, join.column(Side::Right)),
        right_reply: with_receivers(policy, servers, join.reply(Side::Right)),
    }
}

// Whether each receiver may see what this mode sends, with the operands at these servers.
pub(crate) fn is_open(sends: &Sends, mode: Mode, left: u16, right: u16) -> bool
    ensures { (may : ℕ → Shape → Bool) (n : ℕ) (j : Pair) → Sent may n j sends.now → left < n → right < n → result ≡ allowed may (releases j mode left right) }
{
    match mode {
        Mode::Local => true,
        Mode::LeftMaster => sends.right.receivers.contains(left),
        Mode::LeftSemi => {
            sends.left_column.receivers.contains(right) && sends.left_reply.receivers.contains(left)
        }
        Mode::RightMaster => sends.left.receivers.contains(right),
        Mode::RightSemi => {
            sends.right_column.receivers.contains(left)
                && sends.right_reply.receivers.contains(right)
        }
    }
}

// A join's own price by this mode, with the operands at these servers.
pub(crate) fn price_of<T: Tariff>(
    tariff: &T,
    sends: &Sends,
    mode: Mode,
    left: u16,
    right: u16,
) -> T::Price
    ensures { (may : ℕ → Shape → Bool) (n : ℕ) (j : Pair) → Sent may n j sends.now → result ≡ own_price (T.pricing tariff.now) (releases j mode left right) }
{
    match mode {
        Mode::Local => tariff.nothing(),
        Mode::LeftMaster => tariff.price(right, left, &sends.right.profile),
        Mode::LeftSemi => tariff.join(
            tariff.price(left, right, &sends.left_column.profile),
            tariff.price(right, left, &sends.left_reply.profile),
        ),
        Mode::RightMaster => tariff.price(left, right, &sends.left.profile),
        Mode::RightSemi => tariff.join(
            tariff.price(right, left, &sends.right_column.profile),
            tariff.price(left, right, &sends.right_reply.profile),
        ),
    }
}
