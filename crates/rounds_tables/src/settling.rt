// After a round: its raised cells into the other table, and into the lists that the next round goes by.
ghost use Rattle.std.specs.Prelude.{◌≡◌, ℕ, ◌<◌, length, get_or, ltb};
ghost use Rattle.std.specs.List.{list_any};
ghost use Rattle.plan.specs.Moments.{SameLength};
ghost use Rattle.rounds_tables.specs.Known.{SettleLent, AfterSettle, LinedBut, LinedIn, OverLent, NoneRaisedAbove};
ghost use Rattle.rounds_tables.specs.Settling.{CellLent, AfterCell, PointLent, AfterPoint};

use rounds_points::PointSet;

// One cell of a point, whose cells start at base, from one table to the other; a cell that was 0 is a line from now on.
// The point's lines are listed from `at` on; gives their number.
fn settle_cell(
    source: &[u32],
    target: &mut [u32],
    lists: &mut [u16],
    base: usize,
    at: usize,
    known: usize,
    place: usize,
    width: usize,
) -> usize
    requires { CellLent width source.now target.old lists.old base at known place }
    ensures after_cell { AfterCell width source.now target.old lists.old target.new lists.new base at place result }
    ensures same_length { SameLength target × SameLength lists }
{
    let c = base + place;
    let was = target[c];
    target[c] = source[c];
    if was != 0 || place == 0 {
        return known;
    }
    lists[at + known] = place as u16;
    known + 1
}

// The n noted cells of point y: they are its raised cells of the next round. Gives the number of its lines.
fn settle_point(
    source: &[u32],
    target: &mut [u32],
    notes: &[u16],
    n: usize,
    lists: &mut [u16],
    known: usize,
    width: usize,
    y: usize,
) -> usize
    requires { PointLent width source.now target.old notes.now n lists.old known y }
    ensures after_point { AfterPoint width source.now target.old target.new lists.old lists.new n y result }
    ensures same_length { SameLength target × SameLength lists }
{
    let base = y * width;
    let raised = 2 * y * width;
    let lines = (2 * y + 1) * width;
    let mut lined = known;
    for (i, &place) in notes[base..base + n].iter().enumerate() {
        lists[raised + i] = place;
        lined = settle_cell(
            source,
            target,
            lists,
            base,
            lines,
            lined,
            usize::from(place),
            width,
        );
    }
    lined
}

// The noted cells of the points of a set, which has all points with notes or raised places. Gives the set of the points that have notes; then none has.
// It changes most of what it is lent, so a struct of the rest would hold only the source and the notes, which is no plainer.
pub fn settle(
    source: &[u32],
    target: &mut [u32],
    notes: &[u16],
    noted: &mut [usize],
    lists: &mut [u16],
    counts: &mut [usize],
    points: usize,
    width: usize,
    set: PointSet,
) -> PointSet
    requires { SettleLent points width source.now target.old notes.now noted.old lists.old counts.old set }
    ensures after_settle { AfterSettle points width source.now target.old target.new noted.new lists.new counts.new result }
    ensures same_length { SameLength target × SameLength noted × SameLength lists × SameLength counts }
{
    let mut changed = PointSet::new();
    for y in set.iter() {
        let n = noted[y];
        noted[y] = 0;
        counts[2 * y] = n;
        if n != 0 {
            counts[2 * y + 1] = settle_point(
                source,
                target,
                notes,
                n,
                lists,
                counts[2 * y + 1],
                width,
                y,
            );
            changed.insert(y);
        }
    }
    changed
}

// The points with a line beside the starting line: those that had one, and changed points that have one.
pub fn lined_after(counts: &[usize], points: usize, changed: PointSet, lined: PointSet) -> PointSet
    requires { LinedBut points counts.now changed lined }
    ensures { LinedIn points counts.now result }
{
    // A fold would name the set in both branches of a closure, which is no plainer.
    let mut found = lined;
    for y in changed.iter() {
        if 1 < counts[2 * y + 1] {
            found.insert(y);
        }
    }
    found
}

// Whether one of the listed cells waits longer than the horizon.
fn any_over(cells: &[u32], places: &[u16], horizon: u64) -> bool
    requires { (i : ℕ) → i < length places.now → get_or places.now i 0 < length cells.now }
    ensures { result ≡ list_any (λ c. ltb horizon (get_or cells.now c 0)) places.now }
{
    places
        .iter()
        .any(|&place| horizon < u64::from(cells[usize::from(place)]))
}

// Whether a raised cell of one of the changed points waits longer than the horizon.
pub fn over_horizon(
    table: &[u32],
    lists: &[u16],
    counts: &[usize],
    points: usize,
    width: usize,
    changed: PointSet,
    horizon: u64,
) -> bool
    requires { OverLent points width table.now lists.now counts.now changed }
    ensures { NoneRaisedAbove points width horizon table.now lists.now counts.now changed result }
{
    // The closure of an `any` would have all these lines, which is no plainer.
    for y in changed.iter() {
        let base = y * width;
        let start = 2 * y * width;
        let cells = &table[base..base + width];
        let raised = &lists[start..start + counts[2 * y]];
        if any_over(cells, raised, horizon) {
            return true;
        }
    }
    false
}
