ghost use Rattle.std.specs.Prelude.{◌≡◌, List, [], ◌∷◌};
ghost use Rattle.std.specs.List.{flat_map};
ghost use Rattle.std.specs.Option.{option_to_list};
ghost use Rattle.chart.specs.Charts.{layout};
ghost use Rattle.rules.specs.declared.view.View.{View};
ghost use Rattle.policy.specs.Reading.{view_lets, exact, inside};
ghost use Rattle.policy.specs.Viewed.{slot_views};

use chart::Chart;
use profile::Profile;
use rules::{Rule, RuleRecord, View};

// Something that may hold a view: a view, a rule, a slot for a rule.
pub trait Viewed {
    ghost views: { Self → List View };

    fn view(&self) -> Option<View>
        ensures { option_to_list result ≡ views self.now };
}

impl Viewed for View {
    ghost views = { λ v. v ∷ [] };

    fn view(&self) -> Option<View> {
        Some(*self)
    }
}

impl Viewed for RuleRecord {
    ghost views = { λ r. r.view ∷ [] };

    fn view(&self) -> Option<View> {
        Some(self.view)
    }
}

impl Viewed for Option<Rule> {
    ghost views = { slot_views };

    fn view(&self) -> Option<View> {
        self.map(|rule| rule.given.view)
    }
}

// Whether a view lets a server see a profile.
pub fn view_allows(view: &View, server: u16, profile: &Profile) -> bool
    ensures { result ≡ view_lets server profile.now view.now }
{
    view.server == server
        && view.path == profile.path
        && profile
            .shown
            .union(profile.filtered)
            .is_subset(view.attributes)
}

// Whether the view that is held, if any, lets a server see a profile.
fn item_allows<T: Viewed>(item: &T, server: u16, profile: &Profile) -> bool
    ensures { result ≡ exact (T.Viewed.views item.now) server profile.now }
{
    item.view()
        .is_some_and(|view| view_allows(&view, server, profile))
}

// Whether some item holds a view that lets a server see a profile.
pub fn some_view_allows<T: Viewed>(items: &[T], server: u16, profile: &Profile) -> bool
    ensures { result ≡ exact (flat_map T.Viewed.views items.now) server profile.now }
{
    items.iter().any(|item| item_allows(item, server, profile))
}

// Whether the server and the profile lie inside the chart.
pub fn is_inside(chart: &Chart, server: u16, profile: &Profile) -> bool
    ensures { result ≡ inside (layout chart.now) server profile.now }
{
    server < chart.servers()
        && chart.knows_attributes(profile.shown)
        && chart.knows_attributes(profile.filtered)
        && chart.knows_links(profile.path)
}
