ghost use Rattle.std.specs.Prelude.{◌≡◌};
ghost use Rattle.chart.specs.Build.{laid_out};
ghost use Rattle.sample.specs.Sample.{sample_answer};

use chart::{Chart, ChartRefusal};

// Three servers with a relation each, and two links.
#[tactic(auto, unfolding(chart::specs::Build::bare))]
pub fn sample_chart() -> Result<Chart, ChartRefusal>
    ensures { laid_out result ≡ sample_answer }
{
    let mut chart = Chart::new(3)?;
    chart.add_relation(0, &[4, 8, 4])?;
    chart.add_relation(1, &[4, 6])?;
    chart.add_relation(2, &[4, 10])?;
    chart.add_link(0, 3)?;
    chart.add_link(3, 5)?;
    Ok(chart)
}
