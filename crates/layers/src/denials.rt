ghost use Rattle.std.specs.Prelude.{◌≡◌, not, ◌&&◌, Decides};
ghost use Rattle.layers.specs.Readings.{hits, denied, Denied};
ghost use Rattle.layers.specs.Lawful.{denials_lawful};
ghost use Rattle.std.proofs.Common.{rules};

use crate::denial::Denial;
use arrayvec::ArrayVec;
use chart::Chart;
use policy::{Book, BookRefusal, Policy};
use profile::Profile;
use rules::RuleRecord;

// Denials over any policy.
#[derive(Drop)]
pub struct Denials<P> {
    pub(crate) below: P,
    pub(crate) denials: ArrayVec<Denial, 32>,
}

// Whether a denial forbids the server to see the profile.
fn denial_hits(denial: Denial, server: u16, profile: &Profile) -> bool
    ensures { result ≡ hits server profile.now denial }
{
    let seen = profile.shown.union(profile.filtered);
    denial.server == server && denial.attributes.is_subset(seen)
}

// Whether some denial forbids the server to see the profile.
fn some_denial_hits(denials: &[Denial], server: u16, profile: &Profile) -> bool
    ensures value { result ≡ denied denials.now server profile.now }
    ensures means { Decides result (Denied denials.now server profile.now) }
{
    denials
        .iter()
        .any(|denial| denial_hits(*denial, server, profile))
}

impl<P: Policy> Policy for Denials<P> {
    ghost charted = { λ d. P.Policy.charted d.below };

    ghost rules = { λ d. P.Policy.rules d.below };

    ghost reading = { λ d xs server p. not (denied d.denials.items server p) && P.Policy.reading d.below xs server p };

    ghost lawful = { λ d. denials_lawful d.denials.items (P.Policy.lawful d.below) };

    fn chart(&self) -> &Chart {
        self.below.chart()
    }

    fn allows(&self, server: u16, profile: &Profile) -> bool {
        !some_denial_hits(&self.denials, server, profile) && self.below.allows(server, profile)
    }
}

impl<B: Book> Book for Denials<B> {
    ghost fits = { λ d xs. B.Book.fits d.below xs };

    ghost lone = { Prim.search rules };

    ghost less = { Prim.search rules };

    ghost alike = { Prim.search rules };

    fn enter(&mut self, given: RuleRecord) -> Result<(), BookRefusal> {
        self.below.enter(given)
    }

    fn withdraw(&mut self, number: u16) -> Result<(), BookRefusal> {
        self.below.withdraw(number)
    }
}
