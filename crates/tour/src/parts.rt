ghost use Rattle.std.specs.Prelude.{◌≡◌, Some};
ghost use Rattle.chart.specs.Build.{link_answer, laid_out};
ghost use Rattle.chart.specs.Charts.{layout};
ghost use Rattle.sample.specs.Sample.{sample_answer};
ghost use Rattle.tour.specs.Parts.{steps_of, refusal_of, sets_of_tour};
ghost use Rattle.tour.specs.Worked.{Worked};

use chart::{Chart, ChartRefusal};
use profile::{Join, Profile, Side};
use sample::sample_chart;
use sets::SmallSet;

// The chart of the tour: three servers with a relation each, and two links.
pub fn tour_chart() -> Result<Chart, ChartRefusal>
    ensures { laid_out result ≡ sample_answer }
{
    sample_chart()
}

// The profiles of a small query, from the leaves up.
#[derive(Clone, Copy)]
pub struct Steps {
    pub leaf: Profile,
    pub filtered: Profile,
    pub projected: Profile,
    pub other: Profile,
    pub joined: Profile,
    pub column: Profile,
    pub reply: Profile,
}

// Relation 0 filtered by 2, projected on 0 and 1, and joined with relation 1 over link 0.
pub fn sample_steps(chart: &Chart) -> Option<Steps>
    ensures { result ≡ steps_of (layout chart.now) }
{
    let leaf = Profile::leaf(chart, 0)?;
    let filtered = leaf.filter(SmallSet::single(2)?);
    let projected = filtered.project(SmallSet::single(0)?.insert(1)?);
    let other = Profile::leaf(chart, 1)?;
    let join = Join::new(chart, projected, other, 0)?;
    Some(Steps {
        leaf,
        filtered,
        projected,
        other,
        joined: join.profile(),
        column: join.column(Side::Left),
        reply: join.reply(Side::Left),
    })
}

// The sets that the tour's rules and questions are made of.
#[derive(Clone, Copy)]
pub struct Sets {
    pub lots: SmallSet,
    pub berths: SmallSet,
    pub ends: SmallSet,
    pub denied: SmallSet,
    pub wide: SmallSet,
    pub link: SmallSet,
}

// 0,1 and 3,4 and 0,4 and 0,3 and 0,3,4 and, as a path, link 0.
pub fn sample_sets() -> Option<Sets>
    ensures { result ≡ Some sets_of_tour }
{
    let zero = SmallSet::single(0)?;
    let denied = zero.insert(3)?;
    Some(Sets {
        lots: zero.insert(1)?,
        berths: SmallSet::single(3)?.insert(4)?,
        ends: zero.insert(4)?,
        denied,
        wide: denied.insert(4)?,
        link: zero,
    })
}

// The number under which a second link between attributes 3 and 0 is refused.
pub fn repeated_link(mut chart: Chart) -> Option<u16>
    ensures { result ≡ refusal_of (link_answer (layout chart) 3 0) }
{
    chart.add_link(3, 0).err().map(|refusal| refusal.number())
}

// The worked cases: the contract is the list of them.
pub fn worked_cases()
    ensures { Worked }
{}
