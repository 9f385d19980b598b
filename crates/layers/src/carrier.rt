ghost use Rattle.std.specs.Prelude.{◌≡◌, ◌||◌, Decides};
ghost use Rattle.chart.specs.Charts.{layout};
ghost use Rattle.layers.specs.Readings.{carries, Carried};
ghost use Rattle.layers.specs.Lawful.{carrier_lawful};
ghost use Rattle.std.proofs.Common.{rules};

use chart::Chart;
use policy::{Book, BookRefusal, Policy, is_inside};
use profile::Profile;
use rules::RuleRecord;

// A carrier, who may see all of the chart and nothing else, over any policy.
#[derive(Drop)]
pub struct Carrier<P> {
    pub(crate) below: P,
    pub(crate) carrier: Option<u16>,
}

// Whether the server is the carrier, and the profile lies inside the chart.
fn is_carried(chart: &Chart, carrier: Option<u16>, server: u16, profile: &Profile) -> bool
    ensures value { result ≡ carries (layout chart.now) carrier server profile.now }
    ensures means { Decides result (Carried (layout chart.now) carrier server profile.now) }
{
    carrier == Some(server) && is_inside(chart, server, profile)
}

impl<P: Policy> Policy for Carrier<P> {
    ghost charted = { λ d. P.Policy.charted d.below };

    ghost rules = { λ d. P.Policy.rules d.below };

    ghost reading = { λ d xs server p. carries (layout (P.Policy.charted d.below)) d.carrier server p || P.Policy.reading d.below xs server p };

    ghost lawful = { λ d. carrier_lawful d.carrier (P.Policy.lawful d.below) };

    fn chart(&self) -> &Chart {
        self.below.chart()
    }

    fn allows(&self, server: u16, profile: &Profile) -> bool {
        is_carried(self.below.chart(), self.carrier, server, profile)
            || self.below.allows(server, profile)
    }
}

impl<B: Book> Book for Carrier<B> {
    ghost fits = { λ d xs. B.Book.fits d.below xs };

    ghost lone = { Prim.search rules };

    ghost less = { Prim.search rules };

    ghost alike = { Prim.search rules };

    fn enter(&mut self, given: RuleRecord) -> Result<(), BookRefusal> {
        self.below.enter(given)
    }

    fn withdraw(&mut self, number: u16) -> Result<(), BookRefusal> {
        self.below.withdraw(number)
    }
}
