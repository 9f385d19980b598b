ghost use Rattle.std.specs.Prelude.{◌≡◌};
ghost use Rattle.chart.specs.Charts.{layout};
ghost use Rattle.profile.specs.Profiles.{leaf_answer, project, filter};

use chart::Chart;
use sets::SmallSet;

// What a result tells: the attributes it shows, the links it was joined over, the attributes it was filtered by.
#[derive(Clone, Copy, Default, PartialEq, Eq)]
pub struct Profile {
    pub shown: SmallSet,
    pub path: SmallSet,
    pub filtered: SmallSet,
}

impl Profile {
    // A relation as it lies at its server; none where the relation is not known.
    pub fn leaf(chart: &Chart, relation: u16) -> Option<Profile>
        ensures { result ≡ leaf_answer (layout chart.now) relation }
    {
        chart.server_of(relation)?;
        Some(Profile {
            shown: chart.attributes_of(relation),
            ..Profile::default()
        })
    }

    // A projection shows these attributes alone.
    pub fn project(self, attributes: SmallSet) -> Profile
        ensures { result ≡ project self attributes }
    {
        Profile {
            shown: attributes,
            ..self
        }
    }

    // A filter by these attributes. They count although it shows no more than before.
    pub fn filter(self, attributes: SmallSet) -> Profile
        ensures { result ≡ filter self attributes }
    {
        Profile {
            filtered: self.filtered.union(attributes),
            ..self
        }
    }
}
