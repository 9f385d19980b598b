ghost use Rattle.std.specs.Prelude.{◌≡◌};
ghost use Rattle.layers.specs.Refusals.{refusal_number};

use thiserror::Error;

// Why a layer is refused.
#[derive(Clone, Copy, Debug, PartialEq, Eq, Error)]
pub enum LayerRefusal {
    #[error("a carrier or a denial that names what the chart does not have, or a denial without an attribute")]
    Unfit = 17,
    #[error("a 33rd denial")]
    TooMany = 18,
}

impl LayerRefusal {
    // The number under which this refusal is reported.
    pub fn number(self) -> u16
        ensures { result ≡ refusal_number self }
    {
        self as u16
    }
}
