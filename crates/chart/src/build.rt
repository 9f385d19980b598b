ghost use Rattle.std.specs.Prelude.{◌≡◌, ℕ, ◌+◌, ◌<◌, ◌≤◌, true, false, ◌&&◌, ◌++◌, length, take, is_ok, if◌then◌else◌, Ok, nat_lt};
ghost use Rattle.std.specs.List.{list_all, list_any};
ghost use Rattle.chart.specs.Layout.{crosses};
ghost use Rattle.chart.specs.Lookup.{line_known, same_line, grade_of};
ghost use Rattle.chart.specs.Build.{settled, bare, new_answer, laid_out, columns, relation_answer, with_relation, link_answer, with_link, joins, grade_answer, with_grade};
ghost use Rattle.chart.specs.Charts.{layout};

use crate::lookup::{is_line, place_of_line};
use crate::parts::{Attribute, Grade, Link};
use crate::refusal::ChartRefusal;
use crate::state::Chart;

const NO_ATTRIBUTE: Attribute = Attribute {
    relation: 0,
    width: 0,
};

const NO_LINK: Link = Link { left: 0, right: 0 };

// A chart of servers alone.
#[tactic(auto, unfolding(crate::specs::Build::bare))]
fn bare_chart(servers: u16) -> Chart
    requires { (0 < servers) × (servers ≤ 16) }
    ensures { layout result ≡ bare servers }
{
    Chart {
        servers,
        relation_count: 0,
        homes: [0; 32],
        attribute_count: 0,
        attributes: [NO_ATTRIBUTE; 64],
        link_count: 0,
        links: [NO_LINK; 64],
        grades: [Grade::Public; 256],
    }
}

// Whether no width is 0.
fn all_positive(widths: &[u16]) -> bool
    ensures { result ≡ list_all (λ w. nat_lt 0 w) widths.now }
{
    widths.iter().all(|width| *width != 0)
}

// The questions for a new relation; the answer is its number.
fn check_relation(chart: &Chart, server: u16, widths: &[u16]) -> Result<u16, ChartRefusal>
    ensures { result ≡ relation_answer (layout chart.now) server widths.now }
{
    if server >= chart.servers {
        return Err(ChartRefusal::Home);
    }
    if widths.is_empty() || !all_positive(widths) {
        return Err(ChartRefusal::Widths);
    }
    if chart.relation_count >= 32 || widths.len() > 64 - chart.attribute_count {
        return Err(ChartRefusal::Limits);
    }
    Ok(chart.relation_count as u16)
}

// Writes the attributes of a relation behind the first `from`.
fn write_columns(attributes: &mut [Attribute], from: usize, relation: u16, widths: &[u16])
    requires { from + length widths.now ≤ length attributes.old }
    ensures { take (from + length widths.now) attributes.new ≡ take from attributes.old ++ columns relation widths.now }
{
    for (i, width) in widths.iter().enumerate() {
        attributes[from + i] = Attribute {
            relation,
            width: *width,
        };
    }
}

// Adds a relation for which every question was answered with yes.
fn put_relation(chart: &mut Chart, server: u16, widths: &[u16])
    requires { relation_answer (layout chart.old) server widths.now ≡ Ok (length (layout chart.old).homes) }
    ensures { layout chart.new ≡ with_relation (layout chart.old) server widths.now }
{
    let relation = chart.relation_count;
    let from = chart.attribute_count;
    write_columns(&mut chart.attributes, from, relation as u16, widths);
    chart.attribute_count = from + widths.len();
    chart.homes[relation] = server;
    chart.relation_count = relation + 1;
}

// Whether two attributes are linked already, either way round.
fn is_linked(links: &[Link], a: u16, b: u16) -> bool
    ensures { result ≡ list_any (joins a b) links.now }
{
    links.iter().any(|link| same_pair(*link, a, b))
}

// Whether a link is between these two, either way round.
fn same_pair(link: Link, a: u16, b: u16) -> bool
    ensures { result ≡ joins a b link }
{
    link.left == a && link.right == b || link.left == b && link.right == a
}

// Whether these are known attributes of different relations.
fn is_crossing(chart: &Chart, a: u16, b: u16) -> bool
    ensures { result ≡ crosses (layout chart.now).attributes a b }
{
    match (chart.relation_of(a), chart.relation_of(b)) {
        (Some(left), Some(right)) => left != right,
        _ => false,
    }
}

// The questions for a new link; the answer is its number.
fn check_link(chart: &Chart, a: u16, b: u16) -> Result<u16, ChartRefusal>
    ensures { result ≡ link_answer (layout chart.now) a b }
{
    if !is_crossing(chart, a, b) {
        return Err(ChartRefusal::Ends);
    }
    if chart.link_count >= 64 {
        return Err(ChartRefusal::LinkLimit);
    }
    if is_linked(&chart.links[..chart.link_count], a, b) {
        return Err(ChartRefusal::LinkRepeated);
    }
    Ok(chart.link_count as u16)
}

// Adds a link for which every question was answered with yes.
fn put_link(chart: &mut Chart, a: u16, b: u16)
    requires { link_answer (layout chart.old) a b ≡ Ok (length (layout chart.old).links) }
    ensures { layout chart.new ≡ with_link (layout chart.old) a b }
{
    let link = chart.link_count;
    chart.links[link] = Link { left: a, right: b };
    chart.link_count = link + 1;
}

// Sets the grade of a line.
fn put_grade(chart: &mut Chart, a: u16, b: u16, grade: Grade)
    requires { line_known (layout chart.old) a b ≡ true }
    ensures after { layout chart.new ≡ with_grade (layout chart.old) a b grade }
    ensures lines { (x y : ℕ) → grade_of (layout chart.new) x y ≡ (if same_line a b x y then grade else grade_of (layout chart.old) x y) }
{
    chart.grades[place_of_line(a, b)] = grade;
}

impl Chart {
    // A chart of servers alone, with public lines between them.
    pub fn new(servers: u16) -> Result<Chart, ChartRefusal>
        ensures { laid_out result ≡ new_answer servers }
    {
        if servers == 0 || servers > 16 {
            return Err(ChartRefusal::Servers);
        }
        Ok(bare_chart(servers))
    }

    // Adds a relation at a server, with an attribute for each width, and answers its number.
    pub fn add_relation(&mut self, server: u16, widths: &[u16]) -> Result<u16, ChartRefusal>
        ensures answer { result ≡ relation_answer (layout self.old) server widths.now }
        ensures after { layout self.new ≡ settled result (layout self.old) (with_relation (layout self.old) server widths.now) }
        ensures refused { is_ok result ≡ false → self.new ≡ self.old }
    {
        let relation = check_relation(self, server, widths)?;
        put_relation(self, server, widths);
        Ok(relation)
    }

    // Adds a link between two attributes of different relations, and answers its number.
    pub fn add_link(&mut self, left: u16, right: u16) -> Result<u16, ChartRefusal>
        ensures answer { result ≡ link_answer (layout self.old) left right }
        ensures after { layout self.new ≡ settled result (layout self.old) (with_link (layout self.old) left right) }
        ensures refused { is_ok result ≡ false → self.new ≡ self.old }
    {
        let link = check_link(self, left, right)?;
        put_link(self, left, right);
        Ok(link)
    }

    // Sets the grade of the line between two servers, both ways.
    pub fn set_grade(&mut self, a: u16, b: u16, grade: Grade) -> Result<(), ChartRefusal>
        ensures answer { result ≡ grade_answer (layout self.old) a b }
        ensures after { layout self.new ≡ settled result (layout self.old) (with_grade (layout self.old) a b grade) }
        ensures lines { (x y : ℕ) → grade_of (layout self.new) x y ≡ (if is_ok result && same_line a b x y then grade else grade_of (layout self.old) x y) }
        ensures refused { is_ok result ≡ false → self.new ≡ self.old }
    {
        if !is_line(self, a, b) {
            return Err(ChartRefusal::Line);
        }
        put_grade(self, a, b, grade);
        Ok(())
    }
}
