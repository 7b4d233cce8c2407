// The 16-bit table: for each cell the number of its last line.
ghost use Rattle.std.specs.Prelude.{◌≡◌, [], ◌+◌, ◌<◌, length};
ghost use Rattle.plan.specs.Moments.{SameLength};
ghost use Rattle.plan.specs.Plan.{Plan, width as width_of, cells as cells_of};
ghost use Rattle.plan.specs.Layout.{plan_of};
ghost use Rattle.plan.specs.Refusal.{Accepted};
ghost use Rattle.listing_lines.specs.Listed.{cell_lines, start_number, index_table};
ghost use Rattle.listing_write.specs.Progress.{all_raised, NumbersReady, CellNumbered, Numbers};

use plan::{points, width as width_for};

// The point of a starting cell; 0 for another cell. The width is a power of 2, so that a mask finds the starting cells without a division.
fn start_number(width: usize, c: usize) -> usize
    requires { (0 < width) × (c < 65536) }
    ensures { ((P : Plan) → width ≡ width_of P → result ≡ start_number P c) × (result < 65536) }
{
    if c & (width - 1) == 0 { c / width } else { 0 }
}

// The table with no line listed.
pub fn start_index(plan: &[u8], index: &mut [u16])
    requires { Accepted plan.now × (length index.old ≡ cells_of (plan_of plan.now)) }
    ensures index_value { index.new ≡ index_table (plan_of plan.now) [] }
    ensures same_length { SameLength index }
{
    let width = width_for(plan);
    let end = index.len();
    for c in 0..end {
        index[c] = start_number(width, c) as u16;
    }
}

// A cell that the round raised takes number i; the next number.
fn number_cell(first: &[u32], second: &[u32], index: &mut [u16], i: usize, c: usize) -> usize
    requires { (c < length first.now) × (c < length second.now) × (c < length index.old) × (i < 65536) }
    ensures value { (P : Plan) → result ≡ i + length (cell_lines P first.now second.now c) }
    ensures cell_numbered { CellNumbered first.now second.now i c index.old index.new }
    ensures same_length { SameLength index }
{
    if second[c] <= first[c] {
        return i;
    }
    index[c] = i as u16;
    i + 1
}

// All cells that the round raised take the numbers of their lines, the first of which is line `at`.
pub fn number_cells(plan: &[u8], first: &[u32], second: &[u32], index: &mut [u16], at: usize)
    requires { NumbersReady plan.now first.now second.now index.old at }
    ensures numbers { Numbers plan at (all_raised (plan_of plan.now) first.now second.now) index }
    ensures same_length { SameLength index }
{
    let end = first.len();
    let mut i = points(plan) + at;
    for c in 0..end {
        i = number_cell(first, second, index, i, c);
    }
}
