ghost use Rattle.std.specs.Prelude.{◌≡◌, IfOk};
ghost use Rattle.chart.specs.Charts.{layout};
ghost use Rattle.layers.specs.Questions.{denial_answer, denials_answer, carrier_answer, verdict};

use crate::denial::Denial;
use crate::refusal::LayerRefusal;
use arrayvec::ArrayVec;
use chart::Chart;
use sets::SmallSet;

// The questions for one more denial, where `held` are held already.
pub fn check_denial(chart: &Chart, held: usize, denial: Denial) -> Result<(), LayerRefusal>
    ensures { result ≡ denial_answer (layout chart.now) held denial }
{
    if denial.server >= chart.servers() {
        return Err(LayerRefusal::Unfit);
    }
    if !chart.knows_attributes(denial.attributes) || denial.attributes == SmallSet::empty() {
        return Err(LayerRefusal::Unfit);
    }
    if held >= 32 {
        return Err(LayerRefusal::TooMany);
    }
    Ok(())
}

// The denials, if each passes its questions, in their order.
pub(crate) fn check_denials(
    chart: &Chart,
    denials: &[Denial],
) -> Result<ArrayVec<Denial, 32>, LayerRefusal>
    ensures answer { verdict result ≡ denials_answer (layout chart.now) denials.now }
    ensures list { IfOk result (λ held. held.items ≡ denials.now) }
{
    let mut held = ArrayVec::new();
    for denial in denials {
        check_denial(chart, held.len(), *denial)?;
        held.push(*denial);
    }
    Ok(held)
}

// The question for a carrier, if there is one.
pub(crate) fn check_carrier(chart: &Chart, carrier: Option<u16>) -> Result<(), LayerRefusal>
    ensures { result ≡ carrier_answer (layout chart.now) carrier }
{
    if carrier.is_some_and(|server| server >= chart.servers()) {
        return Err(LayerRefusal::Unfit);
    }
    Ok(())
}
