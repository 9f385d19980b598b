ghost use Rattle.std.specs.Prelude.{◌≡◌};
ghost use Rattle.odd.specs.Doubling.{doubling};
ghost use Rattle.std.proofs.Common.{rules};

use profile::Profile;
use tariff::Tariff;

// A price: a cost, which is compared, and a mark, which is not. So prices that are at most each other may differ.
#[derive(Clone, Copy, PartialEq, Eq)]
pub struct Doubled {
    pub cost: u32,
    pub mark: u16,
}

// Joining doubles the first cost and adds the second, and keeps the second mark: the order and the grouping of prices matter.
#[derive(Clone, Copy)]
pub struct DoublingTariff {
    pub base: u16,
}

impl Tariff for DoublingTariff {
    type Price = Doubled;

    ghost pricing = { λ t. doubling t.base };

    ghost lawful = { λ t. record { total = Prim.search rules; transitive = Prim.search rules; left = Prim.search rules; right = Prim.search rules } };

    fn nothing(&self) -> Doubled {
        Doubled { cost: 0, mark: 0 }
    }

    fn join(&self, a: Doubled, b: Doubled) -> Doubled {
        Doubled {
            cost: a.cost.saturating_add(a.cost).saturating_add(b.cost),
            mark: b.mark,
        }
    }

    fn at_most(&self, a: Doubled, b: Doubled) -> bool {
        a.cost <= b.cost
    }

    fn price(&self, sender: u16, receiver: u16, _profile: &Profile) -> Doubled {
        Doubled {
            cost: u32::from(self.base) + u32::from(receiver),
            mark: sender,
        }
    }
}
