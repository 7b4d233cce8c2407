// The first cells of lent tables: whether they agree, whether one is above 0, and zeros.
ghost use Rattle.std.specs.Prelude.{◌≡◌, ◌+◌, ◌*◌, ◌≤◌, ◌<◌, length, take, replicate};
ghost use Rattle.plan.specs.Moments.{SameLength};
ghost use Rattle.rules_fill.specs.Parts.{laid_over};
ghost use Rattle.rounds_tables.specs.Cells.{same, any_above};
ghost use Rattle.rounds_tables.specs.Ready.{SameOutside, Compared};

use rounds_points::PointSet;

// How many cells of point x are to be compared: none where it is outside the set.
fn to_compare(set: PointSet, x: usize, width: usize) -> usize
    requires { x < 32 }
    ensures { Compared set x width result }
{
    if set.contains(x) { width } else { 0 }
}

// Whether the first cells of two tables agree, point by point up to the first cell that differs. Outside the set of points they do.
pub fn same_cells(first: &[u32], second: &[u32], points: usize, width: usize, set: PointSet) -> bool
    requires points_bound { (points ≤ 32) × (points * width ≤ length first.now) × (points * width ≤ length second.now) }
    requires same_outside { SameOutside points width first.now second.now set }
    ensures { result ≡ same (take (points * width) first.now) (take (points * width) second.now) }
{
    // Document 01's form for this comparison: a nested walk, left by a label.
    let mut agree = true;
    'walk: for x in 0..points {
        let start = x * width;
        let end = to_compare(set, x, width);
        for t in 0..end {
            if first[start + t] != second[start + t] {
                agree = false;
                break 'walk;
            }
        }
    }
    agree
}

// Whether one of the first n cells, those of the first alarm, is above 0.
pub fn first_alarm_waits(table: &[u32], n: usize) -> bool
    requires { n ≤ length table.now }
    ensures { result ≡ any_above (take n table.now) }
{
    table[..n].iter().any(|&wait| wait > 0)
}

// The first n cells at 0.
pub fn clear_cells(table: &mut [u32], n: usize)
    requires { n ≤ length table.old }
    ensures table_value { table.new ≡ laid_over n (replicate n 0) table.old }
    ensures same_length { SameLength table }
{
    table[..n].fill(0);
}
