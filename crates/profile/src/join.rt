ghost use Rattle.std.specs.Prelude.{◌≡◌, ◌<◌, true, is_some};
ghost use Rattle.chart.specs.Charts.{layout};
ghost use Rattle.profile.specs.Joins.{turned, orient_answer, join_answer, operand, joined, column, reply};

use crate::shape::Profile;
use chart::Chart;
use sets::SmallSet;

// One of the two operands of a join.
#[derive(Clone, Copy)]
pub enum Side {
    Left,
    Right,
}

// Two operands and the link between them, with the link's end on each side.
#[derive(Clone, Copy)]
pub struct Join {
    left: Profile,
    right: Profile,
    link: SmallSet,
    left_end: SmallSet,
    right_end: SmallSet,
}

// The ends in the order in which the left operand shows the first and the right operand the second.
fn turn(ends: (SmallSet, SmallSet), left: SmallSet, right: SmallSet) -> Option<(SmallSet, SmallSet)>
    ensures { result ≡ turned ends left right }
{
    let (first, second) = ends;
    if first.is_subset(left) && second.is_subset(right) {
        return Some((first, second));
    }
    if second.is_subset(left) && first.is_subset(right) {
        return Some((second, first));
    }
    None
}

// The ends of a link for a join of operands that show these attributes: the end on the left, and the end on the
// right. None where the link is not known, or has not one end shown on each side.
pub fn orient(
    chart: &Chart,
    left: SmallSet,
    right: SmallSet,
    link: u16,
) -> Option<(SmallSet, SmallSet)>
    ensures value { result ≡ orient_answer (layout chart.now) left right link }
    ensures known { is_some result ≡ true → link < 64 }
{
    let ends = chart.ends(link)?;
    turn(ends, left, right)
}

impl Join {
    // The join of two operands over a link; none where the link does not fit them.
    pub fn new(chart: &Chart, left: Profile, right: Profile, link: u16) -> Option<Join>
        ensures { result ≡ join_answer (layout chart.now) left right link }
    {
        let (left_end, right_end) = orient(chart, left.shown, right.shown, link)?;
        let link = SmallSet::single(link)?;
        Some(Join {
            left,
            right,
            link,
            left_end,
            right_end,
        })
    }

    // The operand on this side, whole.
    pub fn operand(&self, side: Side) -> Profile
        ensures { result ≡ operand self.now side }
    {
        match side {
            Side::Left => self.left,
            Side::Right => self.right,
        }
    }

    // The profile of the joined result.
    pub fn profile(&self) -> Profile
        ensures { result ≡ joined self.now }
    {
        Profile {
            shown: self.left.shown.union(self.right.shown),
            path: self.left.path.union(self.right.path).union(self.link),
            filtered: self.left.filtered.union(self.right.filtered),
        }
    }

    // What the master of a semi-join sends: the join column of its operand.
    pub fn column(&self, master: Side) -> Profile
        ensures { result ≡ column self.now master }
    {
        match master {
            Side::Left => self.left.project(self.left_end),
            Side::Right => self.right.project(self.right_end),
        }
    }

    // What comes back to the master of a semi-join: the other operand's rows that match the join column.
    pub fn reply(&self, master: Side) -> Profile
        ensures { result ≡ reply self.now master }
    {
        let shown = match master {
            Side::Left => self.left_end.union(self.right.shown),
            Side::Right => self.right_end.union(self.left.shown),
        };
        self.profile().project(shown)
    }
}
