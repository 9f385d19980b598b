ghost use Rattle.std.specs.Prelude.{◌≡◌};
ghost use Rattle.chart.specs.Charts.{layout};
ghost use Rattle.tariff.specs.Bytes.{shown_bytes, byte_pricing};
ghost use Rattle.std.proofs.Common.{rules};

use crate::traits::Tariff;
use chart::Chart;
use profile::Profile;
use sets::SmallSet;

// Prices in bytes: a release costs the widths that it shows, added. A sum stops at 4,294,967,295 instead of passing it.
#[derive(Clone, Copy)]
pub struct ByteTariff {
    chart: Chart,
}

// The widths of the attributes of a set, added.
fn weigh(chart: &Chart, shown: SmallSet) -> u32
    ensures { result ≡ shown_bytes (layout chart.now) shown }
{
    shown.elements().fold(0, |total, attribute| {
        total.saturating_add(u32::from(chart.width(attribute)))
    })
}

impl ByteTariff {
    // Prices by the widths of a chart.
    pub fn new(chart: Chart) -> ByteTariff
        ensures { result.chart ≡ chart }
    {
        ByteTariff { chart }
    }
}

impl Tariff for ByteTariff {
    type Price = u32;

    ghost pricing = { λ t. byte_pricing (layout t.chart) };

    ghost lawful = { λ t. record { total = Prim.search rules; transitive = Prim.search rules; left = Prim.search rules; right = Prim.search rules } };

    fn nothing(&self) -> u32 {
        0
    }

    fn join(&self, a: u32, b: u32) -> u32 {
        a.saturating_add(b)
    }

    fn at_most(&self, a: u32, b: u32) -> bool {
        a <= b
    }

    fn price(&self, _sender: u16, _receiver: u16, profile: &Profile) -> u32 {
        weigh(&self.chart, profile.shown)
    }
}
