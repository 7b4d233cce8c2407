// Sets of points, of which a plan has at most 32: a number with a bit for each.
ghost use Rattle.std.specs.Prelude.{◌≡◌, ◌-◌, ◌^◌, ◌<◌, ◌≤◌, eqb};
ghost use Rattle.std.specs.Int.Bits.{bit_or, bit_and};
ghost use Rattle.plan.specs.LinkSet.{contains, remove};
ghost use Rattle.rounds_points.specs.PointSets.{In, TakesPoint};
ghost use Rattle.std.specs.Iterator.{at_most};

use std::marker::Model;

#[derive(Clone, Copy)]
pub struct PointSet {
    bits: usize,
}

// A clause sees the number.
impl Model for PointSet {
    ghost use Rattle.std.specs.Prelude.{ℕ};

    ghost Value = { ℕ };

    ghost view = { λ s. s.bits };

    ghost inverse = { λ n. record { bits = n } };
}

impl PointSet {
    pub fn new() -> Self
        ensures { result ≡ 0 }
    {
        PointSet { bits: 0 }
    }

    // The set that has a point for each bit; any number is one.
    pub fn from_bits(bits: usize) -> Self
        ensures { result ≡ bits }
    {
        PointSet { bits }
    }

    // The points below n.
    pub fn below(n: usize) -> Self
        requires { n ≤ 32 }
        ensures { result ≡ 2 ^ n - 1 }
    {
        PointSet { bits: (1 << n) - 1 }
    }

    pub fn is_empty(self) -> bool
        ensures { result ≡ eqb self 0 }
    {
        self.bits == 0
    }

    pub fn contains(self, x: usize) -> bool
        requires { x < 32 }
        ensures { result ≡ contains self x }
    {
        self.bits >> x & 1 == 1
    }

    // The set with point x added.
    pub fn with(self, x: usize) -> Self
        requires { x < 32 }
        ensures { result ≡ bit_or self (2 ^ x) }
    {
        PointSet {
            bits: self.bits | 1 << x,
        }
    }

    pub fn insert(&mut self, x: usize)
        requires { x < 32 }
        ensures { self.new ≡ bit_or self.old (2 ^ x) }
    {
        self.bits |= 1 << x;
    }

    // The set with point x taken out.
    pub fn without(self, x: usize) -> Self
        requires { In self x × (x < 32) }
        ensures { (result ≡ remove self x) × (result < self) }
    {
        PointSet {
            bits: self.bits - (1 << x),
        }
    }

    pub fn union(self, other: PointSet) -> Self
        ensures { result ≡ bit_or self other }
    {
        PointSet {
            bits: self.bits | other.bits,
        }
    }

    pub fn intersection(self, other: PointSet) -> Self
        ensures { result ≡ bit_and self other }
    {
        PointSet {
            bits: self.bits & other.bits,
        }
    }

    // The points, from the lowest.
    pub fn iter(self) -> Points
        ensures { result.left ≡ self }
    {
        Points { left: self }
    }

    // Takes out the lowest point.
    fn take_lowest(&mut self) -> Option<usize>
        ensures { TakesPoint self.old result self.new }
    {
        if self.bits == 0 {
            return None;
        }
        let x = usize::trailing_zeros(self.bits) as usize;
        self.bits -= 1 << x;
        Some(x)
    }
}

// The points of a set that are still to come.
#[derive(Drop)]
pub struct Points {
    left: PointSet,
}

impl Iterator for Points {
    type Item = usize;

    ghost next_gives = { λ s r t. TakesPoint s.left r t.left };

    ghost remaining = { λ s. at_most s.left };

    fn next(&mut self) -> Option<usize> {
        self.left.take_lowest()
    }
}
