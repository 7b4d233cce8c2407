// M and the horizon.
ghost use Rattle.std.specs.Prelude.{◌≡◌, ◌<◌};
ghost use Rattle.plan.specs.Layout.{plan_of, greatest, most_at, down_at};

use crate::edge_rows::EdgeRows;
use crate::fields::{edges, link_most, links, points};

fn greatest_most(plan: &[u8]) -> u64
    ensures { (result ≡ greatest (most_at plan.now) (plan_of plan.now).links) × (result < 65536) }
{
    (0..links(plan)).fold(0, |most: u64, i| most.max(link_most(plan, i)))
}

fn greatest_down(plan: &[u8]) -> u64
    ensures { (result ≡ greatest (down_at plan.now) (plan_of plan.now).edges) × (result < 65536) }
{
    let rows = EdgeRows::new(plan);
    (0..edges(plan)).fold(0, |most: u64, i| most.max(rows.down(i)))
}

// M: the largest of all y and all -u with u < 0, or 0.
pub fn largest(plan: &[u8]) -> u64
    ensures { (result ≡ (plan_of plan.now).largest) × (result < 65536) }
{
    greatest_most(plan).max(greatest_down(plan))
}

pub fn horizon(plan: &[u8]) -> u64
    ensures { (result ≡ (plan_of plan.now).horizon) × (result < 16777216) }
{
    points(plan) as u64 * largest(plan)
}
