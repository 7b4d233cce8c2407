// The rows of a plan, read from its bytes.
ghost use Rattle.std.specs.Prelude.{◌≡◌, ◌<◌};
ghost use Rattle.plan.specs.Layout.{plan_of};
ghost use Rattle.plan.specs.Refusal.{Accepted};
ghost use Rattle.rules_rows.specs.RowsRead.{ObserversRead, LinksRead, EdgesFrom, EdgesRead, link_of, edge_with};

use crate::numbers::{EdgeNumbers, LinkNumbers};
use plan::{EdgeRows, edges, link_activation, link_finish, link_least, link_most, links, observer};
use std::array;

pub fn read_observers(plan: &[u8]) -> [u8; 4]
    requires { Accepted plan.now }
    ensures { ObserversRead (plan_of plan.now) result }
{
    array::from_fn(|j| observer(plan, j) as u8)
}

fn read_link(plan: &[u8], i: usize) -> LinkNumbers
    requires { i < 4 }
    ensures { result ≡ link_of (plan_of plan.now) i }
{
    LinkNumbers {
        activation: link_activation(plan, i) as u8,
        finish: link_finish(plan, i) as u8,
        least: link_least(plan, i) as u16,
        most: link_most(plan, i) as u16,
    }
}

pub fn read_links(plan: &[u8]) -> [LinkNumbers; 4]
    requires { Accepted plan.now }
    ensures { LinksRead (plan_of plan.now) result }
{
    let mut read = [LinkNumbers::NONE; 4];
    for i in 0..links(plan) {
        read[i] = read_link(plan, i);
    }
    read
}

fn read_edge(rows: &EdgeRows, i: usize, next: Option<u8>) -> EdgeNumbers
    requires { i < 128 }
    ensures { result ≡ edge_with (plan_of rows.now.plan.now) i next }
{
    EdgeNumbers {
        to: rows.to(i) as u8,
        label: rows.label(i) as u8,
        up: rows.up(i) as u16,
        down: rows.down(i) as u16,
        next,
    }
}

// The edges from the last to the first, so that each is put before those of its point that are linked.
pub fn read_edges(plan: &[u8], first: &mut [Option<u8>; 32], read: &mut [EdgeNumbers; 128])
    requires { Accepted plan.now × EdgesFrom (plan_of plan.now) (plan_of plan.now).edges first.old read.old }
    ensures { EdgesRead (plan_of plan.now) first.new read.new }
{
    let rows = EdgeRows::new(plan);
    // By number: each edge writes into two lists.
    for i in (0..edges(plan)).rev() {
        let x = rows.from(i);
        read[i] = read_edge(&rows, i, first[x]);
        first[x] = Some(i as u8);
    }
}
