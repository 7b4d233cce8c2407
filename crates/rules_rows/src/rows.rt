// The rows of a plan as they were read, and their shapes: what a row avoids, adds and removes, as bits of a place.
ghost use Rattle.std.specs.Prelude.{◌≡◌, ◌+◌, ◌<◌};
ghost use Rattle.plan.specs.Layout.{plan_of};
ghost use Rattle.plan.specs.Horizons.{plan_with};
ghost use Rattle.plan.specs.Refusal.{Accepted};
ghost use Rattle.rules.specs.declared.Edge.TheVariants as edge;
ghost use Rattle.rules_fill.specs.Rows.{EdgeRow, LowerRow, UpperRow, LetterRow, LiteralRow};
ghost use Rattle.rules_rows.specs.RowsRead.{RowsRead, next_edge, edge_or_none};

use crate::numbers::{EdgeNumbers, LinkNumbers};
use crate::reading::{read_edges, read_links, read_observers};
use rules_fill::{Propagator, Remover, digit_bit, digit_mask, link_bit};

// Each number in as few bytes as it takes. The edges that start at a point are linked: `first` has the first of each point, and every edge the next.
#[derive(Drop)]
pub struct Rows<'a> {
    pub plan: &'a [u8],
    pub observers: [u8; 4],
    pub links: [LinkNumbers; 4],
    pub first: &'a [Option<u8>; 32],
    pub edges: &'a [EdgeNumbers; 128],
    ghost accepted: { Accepted plan.now },
    ghost read: { RowsRead (plan_of plan.now) observers links first.now edges.now },
}

impl<'a> Rows<'a> {
    // All rows of a plan, its edges in lent memory: as fields they would be copied once more.
    pub fn read(
        plan: &'a [u8],
        first: &'a mut [Option<u8>; 32],
        edges: &'a mut [EdgeNumbers; 128],
    ) -> Rows<'a>
        requires { Accepted plan.now }
        ensures { result.plan.now ≡ plan.now }
    {
        *first = [None; 32];
        read_edges(plan, first, edges);
        Rows {
            plan,
            observers: read_observers(plan),
            links: read_links(plan),
            first,
            edges,
        }
    }

    pub fn observer(&self, j: usize) -> usize
        requires { j < (plan_of self.now.plan.now).propositions }
        ensures { result ≡ (plan_of self.now.plan.now).observer j }
    {
        usize::from(self.observers[j])
    }

    pub fn activation(&self, i: usize) -> usize
        requires { i < (plan_of self.now.plan.now).links }
        ensures { result ≡ (plan_of self.now.plan.now).activation i }
    {
        usize::from(self.links[i].activation)
    }

    pub fn finish(&self, i: usize) -> usize
        requires { i < (plan_of self.now.plan.now).links }
        ensures { result ≡ (plan_of self.now.plan.now).finish i }
    {
        usize::from(self.links[i].finish)
    }

    fn least(&self, i: usize) -> u64
        requires { i < (plan_of self.now.plan.now).links }
        ensures { (result ≡ (plan_of self.now.plan.now).least i) × (result < 65536) }
    {
        u64::from(self.links[i].least)
    }

    fn most(&self, i: usize) -> u64
        requires { i < (plan_of self.now.plan.now).links }
        ensures { (result ≡ (plan_of self.now.plan.now).most i) × (result < 65536) }
    {
        u64::from(self.links[i].most)
    }

    // The first edge that starts at point x.
    pub fn first_edge(&self, x: usize) -> Option<usize>
        requires { x < (plan_of self.now.plan.now).points }
        ensures { result ≡ edge_or_none (plan_of self.now.plan.now) (next_edge (plan_of self.now.plan.now) x 0) }
    {
        self.first[x].map(usize::from)
    }

    // The next edge after edge i that starts where edge i starts.
    pub fn next_edge(&self, i: usize) -> Option<usize>
        requires { i < (plan_of self.now.plan.now).edges }
        ensures { result ≡ edge_or_none (plan_of self.now.plan.now) (next_edge (plan_of self.now.plan.now) ((plan_of self.now.plan.now).from i) (i + 1)) }
    {
        self.edges[i].next.map(usize::from)
    }

    // Rule 1 of plan edge i.
    pub fn edge_row(&self, i: usize) -> Propagator
        requires { i < (plan_of self.now.plan.now).edges }
        ensures { EdgeRow (plan_of self.now.plan.now) (edge.PlanEdge i) result }
    {
        let edge = self.edges[i];
        Propagator {
            from: usize::from(edge.to),
            avoid: 0,
            add: usize::from(edge.label),
            up: u64::from(edge.up),
            down: u64::from(edge.down),
        }
    }

    // Rule 1 of the horizon edge to point y.
    pub fn horizon_row(&self, horizon: u64, y: usize) -> Propagator
        ensures { EdgeRow (plan_with self.now.plan.now horizon) (edge.HorizonEdge y) result }
    {
        Propagator {
            from: y,
            avoid: 0,
            add: 0,
            up: horizon,
            down: 0,
        }
    }

    // Rule 1 of the upper bound of link i.
    pub fn upper_bound_row(&self, i: usize) -> Propagator
        requires { i < (plan_of self.now.plan.now).links }
        ensures { EdgeRow (plan_of self.now.plan.now) (edge.UpperBound i) result }
    {
        Propagator {
            from: self.finish(i),
            avoid: 0,
            add: 0,
            up: self.most(i),
            down: 0,
        }
    }

    // Rule 1 of the lower bound of link i.
    pub fn lower_bound_row(&self, i: usize) -> Propagator
        requires { i < (plan_of self.now.plan.now).links }
        ensures { EdgeRow (plan_of self.now.plan.now) (edge.LowerBound i) result }
    {
        Propagator {
            from: self.activation(i),
            avoid: 0,
            add: 0,
            up: 0,
            down: self.least(i),
        }
    }

    // Rule 2 of link i.
    pub fn lower_row(&self, i: usize) -> Propagator
        requires { i < (plan_of self.now.plan.now).links }
        ensures { LowerRow (plan_of self.now.plan.now) i result }
    {
        Propagator {
            from: self.finish(i),
            avoid: link_bit(self.plan, i),
            add: 0,
            up: self.least(i),
            down: 0,
        }
    }

    // Rule 3 of link i.
    pub fn upper_row(&self, i: usize) -> Propagator
        requires { i < (plan_of self.now.plan.now).links }
        ensures { UpperRow (plan_of self.now.plan.now) i result }
    {
        Propagator {
            from: self.activation(i),
            avoid: 0, // the link may be in the set already
            add: link_bit(self.plan, i),
            up: 0,
            down: self.most(i),
        }
    }

    // Rule 4 of link i.
    pub fn letter_row(&self, i: usize) -> Remover
        requires { i < (plan_of self.now.plan.now).links }
        ensures { LetterRow (plan_of self.now.plan.now) i result }
    {
        let bit = link_bit(self.plan, i);
        Remover {
            other: self.activation(i),
            mask: bit,
            low: bit,
            add: self.least(i),
        }
    }

    // Rule 6 of proposition j. Nothing is added, so a starting line of the observing point gives wait 0, which is nothing.
    pub fn literal_row(&self, j: usize) -> Remover
        requires { j < (plan_of self.now.plan.now).propositions }
        ensures { LiteralRow (plan_of self.now.plan.now) j result }
    {
        Remover {
            other: self.observer(j),
            mask: digit_mask(j),
            low: digit_bit(j),
            add: 0,
        }
    }
}
