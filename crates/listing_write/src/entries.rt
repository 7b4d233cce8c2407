// The lines of one round, written with their grounds.
ghost use Rattle.std.specs.Prelude.{◌≡◌, [], ◌∷◌, ◌+◌, length};
ghost use Rattle.plan.specs.Moments.{SameLength};
ghost use Rattle.plan.specs.Layout.{plan_of};
ghost use Rattle.rules.specs.Lines.{line_at};
ghost use Rattle.listing_write.specs.Entry.{LineReady};
ghost use Rattle.listing_lines.specs.Listed.{cell_lines};
ghost use Rattle.listing_write.specs.Progress.{all_raised, Appends};
ghost use Rattle.listing_write.specs.Entries.{FoundReady, PutBy, Raised, CellReady, CellsReady};

use crate::entry::put_line;
use rules::{Ground, Line};
use rules_ground::{find_ground, frame_of, line_at};

// What was found has cells for its parents: their numbers stand in the 16-bit table.
fn put_found(
    plan: &[u8],
    index: &[u16],
    out: &mut [u8],
    m: usize,
    i: usize,
    line: Line,
    found: Option<Ground>,
)
    requires { LineReady plan.now out.old m i line × FoundReady plan.now index.now found }
    ensures put_by { PutBy (plan_of plan.now) m i line index.now found out.old out.new }
    ensures same_length { SameLength out }
{
    if let Some(ground) = found {
        let numbered = Ground {
            by: ground.by,
            first: usize::from(index[ground.first]),
            second: usize::from(index[ground.second]),
        };
        put_line(plan, out, m, i, line, numbered);
    }
}

// The line of a cell that the round from the first table to the second raised.
pub fn list_raised(
    plan: &[u8],
    marks: &[u8; 256],
    horizon: u64,
    first: &[u32],
    second: &[u32],
    index: &[u16],
    out: &mut [u8],
    m: usize,
    i: usize,
    c: usize,
)
    requires { CellReady plan.now marks.now horizon first.now second.now index.now out.old m i c × Raised first.now second.now c }
    ensures { Appends plan i (line_at (plan_of plan.now) second.now c ∷ []) out }
{
    let frame = frame_of(plan);
    let line = line_at(second, frame, c);
    let found = find_ground(plan, marks, horizon, first, line);
    put_found(plan, index, out, m, i, line, found);
}

// The line of a cell, if the round raised it; the number of the next line.
fn list_cell(
    plan: &[u8],
    marks: &[u8; 256],
    horizon: u64,
    first: &[u32],
    second: &[u32],
    index: &[u16],
    out: &mut [u8],
    m: usize,
    i: usize,
    c: usize,
) -> usize
    requires { CellReady plan.now marks.now horizon first.now second.now index.now out.old m i c }
    ensures value { result ≡ i + length (cell_lines (plan_of plan.now) first.now second.now c) }
    ensures appends { Appends plan i (cell_lines (plan_of plan.now) first.now second.now c) out }
{
    if second[c] <= first[c] {
        return i;
    }
    list_raised(plan, marks, horizon, first, second, index, out, m, i, c);
    i + 1
}

// The lines of all cells that the round raised, from line `at` on; the number of the next line.
pub fn list_cells(
    plan: &[u8],
    marks: &[u8; 256],
    horizon: u64,
    first: &[u32],
    second: &[u32],
    index: &[u16],
    out: &mut [u8],
    m: usize,
    at: usize,
) -> usize
    requires { CellsReady plan.now marks.now horizon first.now second.now index.now out.old m at }
    ensures value { result ≡ at + length (all_raised (plan_of plan.now) first.now second.now) }
    ensures appends { Appends plan at (all_raised (plan_of plan.now) first.now second.now) out }
{
    let end = first.len();
    let mut i = at;
    for c in 0..end {
        i = list_cell(plan, marks, horizon, first, second, index, out, m, i, c);
    }
    i
}
