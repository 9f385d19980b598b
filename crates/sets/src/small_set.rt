ghost use Rattle.std.specs.Prelude.{◌≡◌, ◌+◌, ◌-◌, ◌*◌, ◌/◌, ◌%◌, ◌^◌, ◌<◌, ◌≤◌, length, bit_or};
ghost use Rattle.sets.specs.Bits.{bit, rising};
ghost use Rattle.sets.specs.Sets.{has, none, single_answer, insert_answer, union, subset, disjoint, same, below_answer, count};

// A set of numbers below 64. What it means is which numbers it has.
#[derive(Clone, Copy, Default, PartialEq, Eq)]
pub struct SmallSet {
    bits: u64,
}

// Whether bit i of a number is set.
fn bit_at(bits: u64, i: u16) -> bool
    ensures { result ≡ bit bits i }
{
    i < 64 && (bits >> i) & 1 == 1
}

// How many of the lowest 64 bits are set.
fn count_bits(bits: u64) -> u32
    ensures value { result ≡ length (rising (bit bits) 0 64) }
    ensures bound { result ≤ 64 }
{
    bits.count_ones()
}

// The number with bit i set too.
fn with_bit(bits: u64, i: u16) -> u64
    requires { i < 64 }
    ensures { result ≡ bit_or bits (2 ^ i) }
{
    bits | 1u64 << i
}

// The number whose lowest n bits are set.
fn low_bits(n: u16) -> u64
    requires { n ≤ 64 }
    ensures { result ≡ 2 ^ n - 1 }
{
    if n == 64 {
        return u64::MAX;
    }
    (1u64 << n) - 1
}

impl SmallSet {
    pub fn empty() -> SmallSet
        ensures { result ≡ none }
    {
        SmallSet { bits: 0 }
    }

    // The set of `i` alone, or none where `i` is not below 64.
    pub fn single(i: u16) -> Option<SmallSet>
        ensures { result ≡ single_answer i }
    {
        SmallSet::empty().insert(i)
    }

    // The set with `i` too, or none where `i` is not below 64.
    pub fn insert(self, i: u16) -> Option<SmallSet>
        ensures { result ≡ insert_answer self i }
    {
        if i >= 64 {
            return None;
        }
        Some(SmallSet {
            bits: with_bit(self.bits, i),
        })
    }

    // The numbers below `n`, or none where `n` is over 64.
    pub fn below(n: u16) -> Option<SmallSet>
        ensures { result ≡ below_answer n }
    {
        if n > 64 {
            return None;
        }
        Some(SmallSet { bits: low_bits(n) })
    }

    pub fn contains(self, i: u16) -> bool
        ensures { result ≡ has self i }
    {
        bit_at(self.bits, i)
    }

    pub fn len(self) -> u32
        ensures value { result ≡ count self }
        ensures bound { result ≤ 64 }
    {
        count_bits(self.bits)
    }

    pub fn union(self, other: SmallSet) -> SmallSet
        ensures { result ≡ union self other }
    {
        SmallSet {
            bits: self.bits | other.bits,
        }
    }

    // Whether `other` has every number of this set.
    pub fn is_subset(self, other: SmallSet) -> bool
        ensures { result ≡ subset self other }
    {
        self.bits & other.bits == self.bits
    }

    // Whether the two sets have no number in common.
    pub fn is_disjoint(self, other: SmallSet) -> bool
        ensures { result ≡ disjoint self other }
    {
        self.bits & other.bits == 0
    }

    // Whether the two are the same set.
    pub fn is_same(self, other: SmallSet) -> bool
        ensures { result ≡ same self other }
    {
        self == other
    }
}
