ghost use Rattle.std.specs.Prelude.{◌≡◌};
ghost use Rattle.tariff.specs.Pricing.{Pricing, Lawful};

use profile::Profile;

// A kind of price, and what each release costs: a profile that one server sends to another.
pub trait Tariff {
    type Price: Copy;

    // what a tariff means: the price of nothing, prices joined and compared, and the price of a release
    ghost pricing: { Self → Pricing Self.Price };

    fn nothing(&self) -> Self::Price
        ensures { result ≡ (pricing self.now).free };

    fn join(&self, a: Self::Price, b: Self::Price) -> Self::Price
        ensures { result ≡ (pricing self.now).sum a b };

    fn at_most(&self, a: Self::Price, b: Self::Price) -> bool
        ensures { result ≡ (pricing self.now).leq a b };

    fn price(&self, sender: u16, receiver: u16, profile: &Profile) -> Self::Price
        ensures { result ≡ (pricing self.now).release sender receiver profile.now };

    // The comparison is total and transitive, and joining an equal or dearer price on either side never gives a cheaper sum.
    ghost lawful: { (s : Self) → Lawful (pricing s) };
}
