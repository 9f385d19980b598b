ghost use Rattle.chart.specs.Sound.{Laws};

// The laws of charts: the contract is the theorem.
pub fn chart_laws()
    ensures { Laws }
{}
