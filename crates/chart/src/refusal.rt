ghost use Rattle.std.specs.Prelude.{◌≡◌};
ghost use Rattle.chart.specs.Refusals.{refusal_number};

use thiserror::Error;

// Why a chart, or a setting that names parts of it, is refused.
#[derive(Clone, Copy, Debug, PartialEq, Eq, Error)]
pub enum ChartRefusal {
    #[error("not 1 to 16 servers")]
    Servers = 10,
    #[error("a relation at a server that is not known")]
    Home = 11,
    #[error("a relation without a width, or with a width of 0")]
    Widths = 12,
    #[error("over 32 relations or 64 attributes")]
    Limits = 13,
    #[error("a link whose ends are not two known attributes of different relations")]
    Ends = 14,
    #[error("a 65th link")]
    LinkLimit = 15,
    #[error("a pair that is linked already, either way round")]
    LinkRepeated = 16,
    #[error("a line whose servers are not two different known ones")]
    Line = 17,
}

impl ChartRefusal {
    // The number under which this refusal is reported.
    pub fn number(self) -> u16
        ensures { result ≡ refusal_number self }
    {
        self as u16
    }
}
