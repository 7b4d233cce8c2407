// The lines of a table listed, where rounds begin from it: they count as raised.
ghost use Rattle.std.specs.Prelude.{◌+◌, ◌*◌, ◌≤◌, length};
ghost use Rattle.plan.specs.Moments.{SameLength};
ghost use Rattle.rounds_tables.specs.Settling.{LinesLent, ListedPoint};
ghost use Rattle.rounds_tables.specs.Known.{AllListed};

// The lines of point y, twice: its starting line, and a line for each cell above 0. Gives their number.
fn list_point(table: &[u32], lists: &mut [u16], width: usize, y: usize) -> usize
    requires { LinesLent width table.now lists.old y }
    ensures listed_point { ListedPoint width table.now lists.old lists.new y result }
    ensures same_length { SameLength lists }
{
    let base = y * width;
    let raised = 2 * y * width;
    let lines = (2 * y + 1) * width;
    let mut n = 0;
    for (c, &wait) in table[base..base + width].iter().enumerate() {
        if c == 0 || wait != 0 {
            lists[raised + n] = c as u16;
            lists[lines + n] = c as u16;
            n += 1;
        }
    }
    n
}

// The lines of every point.
pub fn list_lines(
    table: &[u32],
    lists: &mut [u16],
    counts: &mut [usize],
    points: usize,
    width: usize,
)
    requires { (points * width ≤ length table.now) × ((2 * points) * width ≤ length lists.old) × (2 * points ≤ length counts.old) × (width ≤ 65536) }
    ensures all_listed { AllListed points width table.now lists.new counts.new }
    ensures same_length { SameLength lists × SameLength counts }
{
    // By number: each point writes two counts and two lists, which no iterator over one of them gives.
    for y in 0..points {
        let n = list_point(table, lists, width, y);
        counts[2 * y] = n;
        counts[2 * y + 1] = n;
    }
}
