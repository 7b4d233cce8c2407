// The edge rows of a plan, for loops over them: where the ends and the bytes of edge 0 stand is found once.
ghost use Rattle.std.specs.Prelude.{◌≡◌, ◌<◌};
ghost use Rattle.plan.specs.Layout.{plan_of, spare_at, EdgesAt};

use crate::bytes::{byte_at, word_at};
use crate::fields::{data_at, edge_row, ends_at};

#[derive(Clone, Copy)]
pub struct EdgeRows<'a> {
    pub plan: &'a [u8],
    pub ends: usize,
    pub bytes: usize,
    ghost placed: { EdgesAt plan.now ends bytes },
}

impl<'a> EdgeRows<'a> {
    pub fn new(plan: &'a [u8]) -> Self
        ensures { result.plan.now ≡ plan.now }
    {
        let row = edge_row(plan, 0);
        EdgeRows {
            plan,
            ends: ends_at(plan, row),
            bytes: data_at(plan, row),
        }
    }

    pub fn from(&self, i: usize) -> usize
        requires { i < 256 }
        ensures { (result ≡ (plan_of self.now.plan.now).from i) × (result < 256) }
    {
        byte_at(self.plan, self.ends + 2 * i)
    }

    pub fn to(&self, i: usize) -> usize
        requires { i < 256 }
        ensures { (result ≡ (plan_of self.now.plan.now).to i) × (result < 256) }
    {
        byte_at(self.plan, self.ends + 2 * i + 1)
    }

    // The weight where it is not negative, else 0.
    pub fn up(&self, i: usize) -> u64
        requires { i < 256 }
        ensures { (result ≡ (plan_of self.now.plan.now).up i) × (result < 65536) }
    {
        let weight = word_at(self.plan, self.bytes + 4 * i);
        if weight < 32768 { weight } else { 0 }
    }

    // The weight's negative where it is negative, else 0.
    pub fn down(&self, i: usize) -> u64
        requires { i < 256 }
        ensures { (result ≡ (plan_of self.now.plan.now).down i) × (result < 65536) }
    {
        let weight = word_at(self.plan, self.bytes + 4 * i);
        if weight < 32768 { 0 } else { 65536 - weight }
    }

    pub fn label(&self, i: usize) -> usize
        requires { i < 256 }
        ensures { (result ≡ (plan_of self.now.plan.now).label i) × (result < 256) }
    {
        byte_at(self.plan, self.bytes + 4 * i + 2)
    }

    // The spare byte of an edge.
    pub fn spare(&self, i: usize) -> usize
        requires { i < 256 }
        ensures { (result ≡ spare_at self.now.plan.now i) × (result < 256) }
    {
        byte_at(self.plan, self.bytes + 4 * i + 3)
    }
}
