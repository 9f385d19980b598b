ghost use Rattle.chart.specs.Charts.{layout};
ghost use Rattle.planner.specs.Releases.{ReleaseLaws};

use chart::Chart;

// The releases of a plan are allowed just where the plan is safe, on every chart: the contract is the theorem.
pub fn release_laws(chart: &Chart)
    ensures { ReleaseLaws (layout chart.now) }
{}
