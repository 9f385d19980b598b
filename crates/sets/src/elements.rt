ghost use Rattle.std.specs.Prelude.{◌≡◌, ◌+◌, ◌-◌, ◌<◌, ◌≤◌, ◌++◌, length, IfSome};
ghost use Rattle.std.specs.Option.{option_to_list};
ghost use Rattle.sets.specs.Sets.{members, members_from, next_from, head};
ghost use Rattle.sets.specs.Elements.{rest};
ghost use Rattle.std.specs.Iterator.{YieldsFirst, item_count};

use crate::small_set::SmallSet;

// Goes through the numbers of a set in rising order.
#[derive(Drop)]
pub struct Elements {
    set: SmallSet,
    from: u16,
}

// The least number of the set that is `from` or above.
fn first_from(set: SmallSet, from: u16) -> Option<u16>
    ensures value { members_from set from ≡ next_from set result }
    ensures bound { IfSome result (λ i. i < 64) }
{
    (from..64).find(|i| set.contains(*i))
}

impl SmallSet {
    // The least number of the set.
    pub fn first(self) -> Option<u16>
        ensures value { result ≡ head (members self) }
        ensures bound { IfSome result (λ i. i < 64) }
    {
        first_from(self, 0)
    }

    // The numbers of the set, in rising order.
    pub fn elements(self) -> Elements
        ensures { rest result ≡ members self }
    {
        Elements { set: self, from: 0 }
    }
}

impl Iterator for Elements {
    type Item = u16;

    ghost remaining = { item_count rest };

    ghost next_gives = { YieldsFirst rest };

    fn next(&mut self) -> Option<u16> {
        let i = first_from(self.set, self.from)?;
        self.from = i + 1;
        Some(i)
    }
}
