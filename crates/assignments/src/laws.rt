ghost use Rattle.chart.specs.Charts.{layout};
ghost use Rattle.assignments.specs.Laws.{Laws};
ghost use Rattle.assignments.specs.Theorem.{TableLaws};

use chart::Chart;
use tariff::Tariff;

// The laws of modes: the contract is the theorem.
pub fn assignment_laws()
    ensures { Laws }
{}

// The laws of the table, on every chart and by every tariff: the contract is the theorem.
pub fn table_laws<T: Tariff>(tariff: &T, chart: &Chart)
    ensures { TableLaws (layout chart.now) (T.pricing tariff.now) }
{}
