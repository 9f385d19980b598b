ghost use Rattle.std.specs.Prelude.{◌≡◌};
ghost use Rattle.chart.specs.Charts.{layout};
ghost use Rattle.tariff.specs.Grades.{rank, grade_pricing};
ghost use Rattle.std.proofs.Common.{rules};

use crate::traits::Tariff;
use chart::{Chart, Grade};
use profile::Profile;

// Prices by grade: a release costs the grade of its line, and joined prices the worse of the two. Nothing is below quay.
#[derive(Clone, Copy)]
pub struct GradeTariff {
    chart: Chart,
}

impl GradeTariff {
    // Prices by the lines of a chart.
    pub fn new(chart: Chart) -> GradeTariff
        ensures { result.chart ≡ chart }
    {
        GradeTariff { chart }
    }
}

impl Tariff for GradeTariff {
    type Price = Option<Grade>;

    ghost pricing = { λ t. grade_pricing (layout t.chart) };

    ghost lawful = { λ t. record { total = Prim.search rules; transitive = Prim.search rules; left = Prim.search rules; right = Prim.search rules } };

    fn nothing(&self) -> Option<Grade> {
        None
    }

    fn join(&self, a: Option<Grade>, b: Option<Grade>) -> Option<Grade> {
        a.max(b)
    }

    fn at_most(&self, a: Option<Grade>, b: Option<Grade>) -> bool {
        a <= b
    }

    fn price(&self, sender: u16, receiver: u16, _profile: &Profile) -> Option<Grade> {
        Some(self.chart.grade(sender, receiver))
    }
}
