ghost use Rattle.std.specs.Prelude.{◌≡◌, ℕ, ◌<◌, Option as Maybe};
ghost use Rattle.assignments.specs.Cheapest.{better as cheaper, cheapest as first_cheapest};

use crate::root::Seat;
use assignments::Place;
use tariff::Tariff;

// What has a price, by which it is chosen.
pub(crate) trait Priced<P: Copy>: Copy {
    ghost priced: { Self → P };

    fn price(self) -> P
        ensures { result ≡ priced self };
}

impl<P: Copy> Priced<P> for Place<P> {
    ghost priced = { λ p. p.price };

    fn price(self) -> P {
        self.price
    }
}

impl<P: Copy> Priced<P> for Seat<P> {
    ghost priced = { λ q. q.price };

    fn price(self) -> P {
        self.price
    }
}

// The first, unless the second is strictly cheaper.
pub(crate) fn better<T: Tariff, X: Priced<T::Price>>(
    tariff: &T,
    first: Option<X>,
    second: Option<X>,
) -> Option<X>
    ensures { result ≡ cheaper (T.pricing tariff.now).leq X.priced first second }
{
    let (Some(x), Some(y)) = (first, second) else {
        return first.or(second);
    };
    if tariff.at_most(x.price(), y.price()) {
        first
    } else {
        second
    }
}

// The first of the cheapest of what is offered for each number below `count`.
pub(crate) fn cheapest<T: Tariff, X: Priced<T::Price>, F: Fn(u16) -> Option<X>>(
    tariff: &T,
    count: u16,
    offer: F,
) -> Option<X>
    requires { (i : ℕ) → i < count → F.pre offer i }
    ensures { (f : ℕ → Maybe X) → ((i : ℕ) (x : Maybe X) → i < count → F.post offer i x → x ≡ f i) → result ≡ first_cheapest (T.pricing tariff.now).leq X.priced f count }
{
    let mut best = None;
    for i in 0..count {
        best = better(tariff, best, offer(i));
    }
    best
}
