// Sets of numbers below 64, as the bits of one word, by value.
#![tactic(auto)]

ghost use Rattle.std.specs.Prelude.{◌≡◌, ◌↔◌, true, ◌<◌};
ghost use Rattle.semantics.specs.Count.{count};
ghost use Rattle.sets.specs.Set.{member, nothing, added, removed, either, both, but_not, HighestOf, Within, code, BelowOf};

// Bit i is set where i is in the set.
#[derive(Clone, Copy, Debug, PartialEq, Eq)]
pub struct Set {
    pub bits: u64,
}

impl Set {
    // The set of no numbers.
    pub fn empty() -> Set
        ensures { member result ≡ nothing }
    {
        Set { bits: 0 }
    }

    // The set of two numbers.
    pub fn pair(i: usize, j: usize) -> Set
        requires { (i < 64) × (j < 64) }
        ensures { member result ≡ added (added nothing i) j }
    {
        Set::empty().with(i).with(j)
    }

    // Is i in the set? No number from 64 on is.
    pub fn contains(self, i: usize) -> bool
        ensures { result ≡ member self i }
    {
        i < 64 && (self.bits >> i) & 1 == 1
    }

    // The set with i.
    pub fn with(self, i: usize) -> Set
        requires { i < 64 }
        ensures { member result ≡ added (member self) i }
    {
        Set {
            bits: self.bits | (1 << i),
        }
    }

    // The set without i.
    pub fn without(self, i: usize) -> Set
        ensures { member result ≡ removed (member self) i }
    {
        if 64 <= i {
            self
        } else {
            Set {
                bits: self.bits & !(1 << i),
            }
        }
    }

    // The numbers of either set.
    pub fn union(self, other: Set) -> Set
        ensures { member result ≡ either (member self) (member other) }
    {
        Set {
            bits: self.bits | other.bits,
        }
    }

    // The numbers of both sets.
    pub fn intersection(self, other: Set) -> Set
        ensures { member result ≡ both (member self) (member other) }
    {
        Set {
            bits: self.bits & other.bits,
        }
    }

    // The numbers of this set that are not in the other.
    pub fn minus(self, other: Set) -> Set
        ensures { member result ≡ but_not (member self) (member other) }
    {
        Set {
            bits: self.bits & !other.bits,
        }
    }

    // Has the set no numbers?
    pub fn is_empty(self) -> bool
        ensures { (result ≡ true) ↔ (member self ≡ nothing) }
    {
        self.bits == 0
    }

    // How many numbers are in the set.
    #[tactic(auto, using(crate::proofs::Words::ones_count), unfolding(crate::specs::Set::member))]
    pub fn len(self) -> u32
        ensures { result ≡ count (member self) 64 }
    {
        self.bits.count_ones()
    }

    // How many numbers are in both sets.
    pub fn common(self, other: Set) -> u32
        ensures { result ≡ count (both (member self) (member other)) 64 }
    {
        (self.bits & other.bits).count_ones()
    }

    // The greatest number of the set: as many places below the top as there are zeros above its bit.
    pub fn highest(self) -> Option<usize>
        ensures { HighestOf (member self) result }
    {
        if self.bits == 0 {
            None
        } else {
            Some((63 - self.bits.leading_zeros()) as usize)
        }
    }

    // The set of the greatest number alone.
    #[tactic(auto, using(crate::proofs::Tests::both_parts))]
    pub fn highest_alone(self) -> Set
        ensures { Within (member result) (member self) }
    {
        let Some(i) = self.highest() else {
            return self;
        };
        self.minus(self.without(i))
    }

    // The same, of those that come first, if there are any.
    #[tactic(auto, using(crate::proofs::Tests::both_parts))]
    pub fn foremost(self, first: Set) -> Set
        ensures { Within (member result) (member self) }
    {
        let common = self.intersection(first);
        if common.is_empty() {
            return self.highest_alone();
        }
        common.highest_alone()
    }

    // Of the sets within another one, as this set is, the one that comes next below it in the order of their codes.
    pub fn below(self, within: Set) -> Option<Set>
        requires { Within (member self) (member within) }
        ensures { BelowOf (member within) (code self) result }
    {
        if self.bits == 0 {
            None
        } else {
            Some(Set {
                bits: (self.bits - 1) & within.bits,
            })
        }
    }

    // The number that the members spell.
    pub fn code(self) -> u64
        ensures { result ≡ code self }
    {
        self.bits
    }

    // The set whose members spell this number.
    pub fn of_code(number: u64) -> Set
        ensures { code result ≡ number }
    {
        Set { bits: number }
    }
}
