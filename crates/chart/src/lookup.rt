ghost use Rattle.std.specs.Prelude.{◌≡◌, ℕ, ◌+◌, ◌*◌, ◌<◌, ◌≤◌, true, length, take, is_some, IfSome, nat_eq, slice_index_or};
ghost use Rattle.sets.specs.Sets.{single, union, subset, below};
ghost use Rattle.std.specs.List.{slice_get};
ghost use Rattle.chart.specs.declared.parts.Grade.TheVariants.{Public};
ghost use Rattle.chart.specs.Layout.{relation_of};
ghost use Rattle.chart.specs.Lookup.{server_of, width_of, ends, ends_of, attributes_of, attributes_known, links_known, places, line_place, line_known, grade_of};
ghost use Rattle.chart.specs.Charts.{layout};

use crate::parts::{Attribute, Grade, Link};
use crate::state::Chart;
use sets::SmallSet;

// A link by its number.
fn link_at(chart: &Chart, link: u16) -> Option<Link>
    ensures { result ≡ slice_get (layout chart.now).links link }
{
    chart.links[..chart.link_count].get(link as usize).copied()
}

// An attribute by its number. It belongs to one of at most 32 relations.
fn attribute_at(chart: &Chart, attribute: u16) -> Option<Attribute>
    ensures value { result ≡ slice_get (layout chart.now).attributes attribute }
    ensures bound { IfSome result (λ x. x.relation < 32) }
{
    chart.attributes[..chart.attribute_count]
        .get(attribute as usize)
        .copied()
}

// The places of the attributes of a relation.
fn places_of(attributes: &[Attribute], relation: u16) -> SmallSet
    requires { length attributes.now ≤ 64 }
    ensures { result ≡ places (λ x. nat_eq x.relation relation) 0 attributes.now }
{
    let mut found = SmallSet::empty();
    for (i, attribute) in attributes.iter().enumerate() {
        if attribute.relation == relation {
            found = with_place(found, i);
        }
    }
    found
}

// The set with a place below 64 too.
fn with_place(set: SmallSet, i: usize) -> SmallSet
    requires { i < 64 }
    ensures { result ≡ union set (single i) }
{
    set.insert(i as u16).unwrap_or(set)
}

// Where the grade of a line stands among the grades.
pub(crate) fn place_of_line(a: u16, b: u16) -> usize
    requires { (a < 16) × (b < 16) }
    ensures value { result ≡ line_place a b }
    ensures bound { result < 256 }
{
    a.min(b) as usize * 16 + a.max(b) as usize
}

// The grade of the line between two servers.
fn grade_at(grades: &[Grade], a: u16, b: u16) -> Grade
    requires { (a < 16) × ((b < 16) × (length grades.now ≡ 256)) }
    ensures { result ≡ slice_index_or grades.now (line_place a b) Public }
{
    grades[place_of_line(a, b)]
}

// Whether these are two different servers of the chart.
pub(crate) fn is_line(chart: &Chart, a: u16, b: u16) -> bool
    ensures { result ≡ line_known (layout chart.now) a b }
{
    a < chart.servers && b < chart.servers && a != b
}

// Whether every number of a set is below `count`.
fn all_below(set: SmallSet, count: usize) -> bool
    requires { count ≤ 64 }
    ensures { result ≡ subset set (below count) }
{
    SmallSet::below(count as u16).is_some_and(|known| set.is_subset(known))
}

impl Chart {
    // How many servers there are.
    pub fn servers(&self) -> u16
        ensures { result ≡ (layout self.now).servers }
    {
        self.servers
    }

    // The server at which a relation lies.
    pub fn server_of(&self, relation: u16) -> Option<u16>
        ensures { result ≡ server_of (layout self.now) relation }
    {
        self.homes[..self.relation_count]
            .get(relation as usize)
            .copied()
    }

    // The relation to which an attribute belongs.
    pub fn relation_of(&self, attribute: u16) -> Option<u16>
        ensures value { result ≡ relation_of (layout self.now) attribute }
        ensures bound { IfSome result (λ x. x < 32) }
    {
        attribute_at(self, attribute).map(|found| found.relation)
    }

    // How many bytes wide an attribute is; 0 where it is not known.
    pub fn width(&self, attribute: u16) -> u16
        ensures { result ≡ width_of (layout self.now) attribute }
    {
        attribute_at(self, attribute).map_or(0, |found| found.width)
    }

    // The two ends of a link, each as the set of its attributes, in the order in which they were declared.
    pub fn ends(&self, link: u16) -> Option<(SmallSet, SmallSet)>
        ensures value { result ≡ ends_of (layout self.now) link }
        ensures known { is_some result ≡ true → link < 64 }
    {
        let found = link_at(self, link)?;
        SmallSet::single(found.left).zip(SmallSet::single(found.right))
    }

    // The attributes of a relation; the empty set where the relation is not known.
    pub fn attributes_of(&self, relation: u16) -> SmallSet
        ensures { result ≡ attributes_of (layout self.now) relation }
    {
        places_of(&self.attributes[..self.attribute_count], relation)
    }

    // Whether every attribute of a set is known.
    pub fn knows_attributes(&self, attributes: SmallSet) -> bool
        ensures { result ≡ attributes_known (layout self.now) attributes }
    {
        all_below(attributes, self.attribute_count)
    }

    // Whether every link of a set is known.
    pub fn knows_links(&self, links: SmallSet) -> bool
        ensures { result ≡ links_known (layout self.now) links }
    {
        all_below(links, self.link_count)
    }

    // The grade of the line between two servers, the same both ways; public where there is no such line.
    pub fn grade(&self, a: u16, b: u16) -> Grade
        ensures { result ≡ grade_of (layout self.now) a b }
    {
        if is_line(self, a, b) {
            grade_at(&self.grades, a, b)
        } else {
            Grade::Public
        }
    }
}
