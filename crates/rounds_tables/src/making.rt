// One round from a lent table to another.
ghost use Rattle.std.specs.Prelude.{◌≡◌, take};
ghost use Rattle.plan.specs.Moments.{SameLength};
ghost use Rattle.plan.specs.Plan.{cells as cells_of};
ghost use Rattle.plan.specs.Layout.{plan_of};
ghost use Rattle.plan.specs.Horizons.{plan_with};
ghost use Rattle.rules_fill.specs.Parts.{next_cells, AtMost, laid_over};
ghost use Rattle.rounds_tables.specs.Ready.{Ready, RoundLent};
ghost use Rattle.rounds_tables.specs.Known.{RoundNoted};

use plan::{cells, points, width as point_width};
use rounds_points::PointSet;
use rules_fill::fill_point;
use rules_refill::Refill;
use rules_rows::Rows;

// One round: each point gets its part of the second table, which starts at the point's first cell.
pub fn round(plan: &[u8], marks: &[u8; 256], horizon: u64, first: &[u32], second: &mut [u32])
    requires ready { Ready plan.now marks.now horizon first.now second.old }
    requires at_most { AtMost 4000000000 (take (cells_of (plan_of plan.now)) first.now) }
    ensures second_value { second.new ≡ laid_over (cells_of (plan_of plan.now)) (next_cells (plan_with plan.now horizon) first.now) second.old }
    ensures same_length { SameLength second }
{
    let n = points(plan);
    let width = point_width(plan);
    let end = cells(plan);
    for x in 0..n {
        let start = x * width;
        fill_point(plan, marks, horizon, &first[..end], &mut second[start..], x);
    }
}

// One round where the second table has the first's cells: the points of a set are filled from the cells that the last round raised.
// Of each point it notes how many of its cells it raised, and their places.
pub fn next_round(
    plan: &[u8],
    marks: &[u8; 256],
    horizon: u64,
    first: &[u32],
    second: &mut [u32],
    lists: &[u16],
    counts: &[usize],
    rows: &Rows,
    notes: &mut [u16],
    noted: &mut [usize],
    width: usize,
    mask: usize,
    set: PointSet,
    over: bool,
)
    requires { RoundLent plan.now marks.now horizon first.now second.old lists.now counts.now rows.now notes.old noted.old width mask set over }
    ensures second_value { second.new ≡ laid_over (cells_of (plan_of plan.now)) (next_cells (plan_with plan.now horizon) first.now) second.old }
    ensures round_noted { RoundNoted (plan_of plan.now).points width first.now second.new notes.new noted.new set }
    ensures same_length { SameLength second × SameLength notes × SameLength noted }
{
    let end = cells(plan);
    let refill = Refill::new(
        plan,
        marks,
        horizon,
        &first[..end],
        lists,
        counts,
        rows,
        width,
        mask,
    );
    for x in set.iter() {
        let start = x * width;
        noted[x] = refill.refill_point(
            x,
            over,
            &mut second[start..],
            &mut notes[start..start + width],
        );
    }
}
