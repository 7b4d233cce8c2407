// The loops over a point's cells, one for each shape of rule.
ghost use Rattle.std.specs.Prelude.{◌≡◌, ℕ, ◌+◌, ◌*◌, ◌<◌, ◌≤◌, length};
ghost use Rattle.plan.specs.Moments.{SameLength};
ghost use Rattle.rules.specs.Tables.{raise_cell};
ghost use Rattle.rules_fill.specs.Shapes as shapes;
ghost use Rattle.rules_fill.specs.Parts.{laid_over};
ghost use Rattle.rules_fill.specs.Cells.{JoinsIn, AllJoin, PropagatorLent, RemoverLent, RemoveAtLent, RemoveRunLent, remove_step_by, remove_steps_by};

use crate::shapes::{Propagator, Remover, cleared, joined, propagated, removed, touches};
use plan::{cell_at, copy_elements};

fn raise(part: &mut [u32], place: usize, wait: u64)
    requires { (place < length part.old) × (wait < 4294967296) }
    ensures part_value { part.new ≡ raise_cell place wait part.old }
    ensures same_length { SameLength part }
{
    if u64::from(part[place]) < wait {
        part[place] = wait as u32;
    }
}

// The first n cells of one table into another.
pub fn copy_cells(source: &[u32], target: &mut [u32], n: usize)
    requires { (n ≤ length source.now) × (n ≤ length target.old) }
    ensures target_value { target.new ≡ laid_over n source.now target.old }
    ensures same_length { SameLength target }
{
    copy_elements(&mut target[..n], &source[..n]);
}

// Rules 1 to 3, from all cells of one point.
pub fn propagate_in(
    marks: &[u8; 256],
    first: &[u32],
    part: &mut [u32],
    width: usize,
    mask: usize,
    by: Propagator,
)
    requires { PropagatorLent marks.now first.now part.old width mask by }
    ensures part_value { part.new ≡ shapes.propagate_in width first.now mask by.from by.avoid by.add by.up by.down part.old }
    ensures same_length { SameLength part }
{
    let base = by.from * width;
    for (c, &wait) in first[base..base + width].iter().enumerate() {
        let given = propagated(marks, by, mask, c, u64::from(wait));
        raise(part, joined(c, by.add), given);
    }
}

// Rules 4 and 6, from one line (its place cleared) and the other point's cell at c, a place that has no bit of the mask.
fn remove_at(
    first: &[u32],
    part: &mut [u32],
    base: usize,
    by: Remover,
    place: usize,
    wait: u64,
    c: usize,
)
    requires { RemoveAtLent first.now part.old base by place c × (wait < 4294967296) × (by.add < 65536) }
    ensures by_index { (m : ℕ) → base ≡ by.other * m → part.new ≡ remove_step_by m first.now by place wait c part.old }
    ensures same_length { SameLength part }
{
    let w = removed(by, wait, c, cell_at(first, base + c));
    raise(part, joined(place, c), w);
}

// The same from the other point's cells from lo on and below hi.
fn remove_run(
    first: &[u32],
    part: &mut [u32],
    base: usize,
    by: Remover,
    place: usize,
    wait: u64,
    lo: usize,
    hi: usize,
)
    requires { RemoveRunLent first.now part.old base by place lo hi × (wait < 4294967296) × (by.add < 65536) }
    ensures by_index { (m : ℕ) → base ≡ by.other * m → part.new ≡ remove_steps_by m first.now by place wait lo hi part.old }
    ensures same_length { SameLength part }
{
    for c in lo..hi {
        remove_at(first, part, base, by, place, wait, c);
    }
}

// Rules 4 and 6, from one line (its place cleared) and all cells of the other point.
// In each block only the first places have no bit of the mask: the others give nothing, and are passed over.
fn remove_one(first: &[u32], part: &mut [u32], width: usize, by: Remover, place: usize, wait: u64)
    requires { RemoverLent first.now part.old width by × JoinsIn width place × (wait < 4294967296) }
    ensures part_value { part.new ≡ shapes.remove_one width first.now by.other by.mask by.add place wait part.old }
    ensures same_length { SameLength part }
{
    let base = by.other * width;
    let block = by.mask + by.low;
    let mut start = 0;
    while start < width {
        remove_run(first, part, base, by, place, wait, start, start + by.low);
        start += block;
    }
}

// The same from any line: nothing where it waits 0 or has no bit of the mask.
fn remove_cell(first: &[u32], part: &mut [u32], width: usize, by: Remover, place: usize, wait: u64)
    requires { RemoverLent first.now part.old width by × AllJoin width × (place < width) × (wait < 4294967296) }
    ensures part_value { part.new ≡ shapes.remove_cell width first.now by.other by.mask by.add place wait part.old }
    ensures same_length { SameLength part }
{
    if wait == 0 {
        return;
    }
    if !touches(by.mask, place) {
        return;
    }
    let rest = cleared(place, by.mask);
    remove_one(first, part, width, by, rest, wait);
}

// Rules 4 and 6, from all cells of point x.
pub fn remove_in(first: &[u32], part: &mut [u32], width: usize, by: Remover, x: usize)
    requires { RemoverLent first.now part.old width by × AllJoin width × (x * width + width ≤ length first.now) }
    ensures part_value { part.new ≡ shapes.remove_in width first.now by.other by.mask by.add x part.old }
    ensures same_length { SameLength part }
{
    let base = x * width;
    for (c, &wait) in first[base..base + width].iter().enumerate() {
        remove_cell(first, part, width, by, c, u64::from(wait));
    }
}

fn clear_cell(part: &mut [u32], mask: usize, place: usize, wait: u64)
    requires { (place < length part.old) × (wait < 4294967296) }
    ensures part_value { part.new ≡ shapes.clear_cell mask place wait part.old }
    ensures same_length { SameLength part }
{
    if touches(mask, place) {
        let rest = cleared(place, mask);
        raise(part, rest, wait);
    }
}

// Rule 5, at the observing point x.
pub fn clear_in(first: &[u32], part: &mut [u32], width: usize, mask: usize, x: usize)
    requires { (x * width + width ≤ length first.now) × (width ≤ length part.old) }
    ensures part_value { part.new ≡ shapes.clear_in width first.now mask x part.old }
    ensures same_length { SameLength part }
{
    let base = x * width;
    for (c, &wait) in first[base..base + width].iter().enumerate() {
        clear_cell(part, mask, c, u64::from(wait));
    }
}
