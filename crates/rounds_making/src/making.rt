// One round of both tables, and rounds up to a limit.
ghost use Rattle.std.specs.Prelude.{◌≡◌, true, ◌*◌, ◌^◌, ◌≤◌, ◌<◌, length, take};
ghost use Rattle.plan.specs.Moments.{moments, SameLength};
ghost use Rattle.plan.specs.Plan.{cells as cells_of};
ghost use Rattle.plan.specs.Layout.{plan_of};
ghost use Rattle.plan.specs.Horizons.{plan_with};
ghost use Rattle.plan.specs.Refusal.{Accepted};
ghost use Rattle.rules_fill.specs.Filling.{FillNumbers};
ghost use Rattle.rounds_tables.specs.Cells.{same, any_above};
ghost use Rattle.rounds_tables.specs.Ready.{Ready, SameOutside};
ghost use Rattle.rounds_points.specs.PointSets.{In, Dependents, Givers, Concerned};
ghost use Rattle.rounds_making.specs.Runs.{RoomFrom, RunLent, Ran};
ghost use Rattle.rounds_making.specs.Making.{stops_by, RoundReady, RoundMade, ListsLent, FirstLent, FirstLists};
ghost use Rattle.rounds_making.specs.Outcomes.{kept, broken, pick, outcome_of};

use crate::Answer;
use plan::{cells, points, width as point_width};
use rounds_points::{PointSet, concerned, find_dependents, find_givers};
use rounds_tables::{
    first_alarm_waits, lined_after, list_lines, next_round, over_horizon, same_cells, settle,
};
use rules_fill::label_mask;
use rules_rows::{EdgeNumbers, Rows};

// Whether a round that changed these points stops the rounds: the first alarm waits, or both tables agree. They are compared where no point changed, at the points that it filled.
fn stops(
    first: &[u32],
    second: &[u32],
    points: usize,
    width: usize,
    waits: bool,
    changed: PointSet,
    filled: PointSet,
) -> bool
    requires points_bound { (points ≤ 32) × (points * width ≤ length first.now) × (points * width ≤ length second.now) }
    requires same_outside { SameOutside points width first.now second.now filled }
    ensures { result ≡ stops_by waits changed (same (take (points * width) first.now) (take (points * width) second.now)) }
{
    waits
        || changed.contains(0)
        || changed.is_empty() && same_cells(first, second, points, width, filled)
}

// No Option: each of the four is known after every round.
// A round made: whether it stops the rounds, the points that it changed, those with a line beside the starting line, and whether a raised cell is over the horizon.
#[derive(Clone, Copy)]
pub struct Round {
    pub stops: bool,
    pub changed: PointSet,
    pub lined: PointSet,
    pub over: bool,
}

// What all rounds read: the plan's bytes with the marks and a horizon, the plan's numbers and rows, and which points depend on which.
#[derive(Clone, Copy)]
struct Reading<'a> {
    plan: &'a [u8],
    marks: &'a [u8; 256],
    horizon: u64,
    points: usize,
    width: usize,
    mask: usize,
    rows: &'a Rows<'a>,
    dependents: &'a [PointSet],
    givers: PointSet,
    ghost points_are: { points ≡ (plan_of plan.now).points },
    ghost numbers: { FillNumbers plan.now width mask },
    ghost rows_are: { rows.now.plan.now ≡ plan.now },
    ghost dependents_are: { Dependents (plan_of plan.now) dependents.now },
    ghost givers_are: { Givers (plan_of plan.now) givers },
}

impl Reading<'_> {
    // The points to fill in a round after the last: those that it concerns, and the first alarm where a raised cell is over the horizon.
    fn points_to_fill(&self, changed: PointSet, lined: PointSet, over: bool) -> PointSet
        requires { (changed < 2 ^ self.now.points) × (lined < 2 ^ self.now.points) × (0 < self.now.points) }
        ensures { Concerned self.now.points self.now.dependents.now changed lined self.now.givers result × (over ≡ true → In result 0) }
    {
        let mut found = concerned(self.dependents, self.points, changed, lined, self.givers);
        if over {
            found.insert(0);
        }
        found
    }

    // One round of both tables, which have the same cells before it and after it.
    fn make_round(
        &self,
        first: &mut [u32],
        second: &mut [u32],
        lists: &mut [u16],
        counts: &mut [usize],
        notes: &mut [u16],
        noted: &mut [usize],
        last: Round,
    ) -> Round
        requires { RoundReady self.now.plan.now self.now.marks.now self.now.horizon first.old second.old lists.old counts.old notes.old noted.old last }
        ensures round_made { RoundMade (plan_with self.now.plan.now self.now.horizon) (moments first) (moments second) lists.new counts.new noted.new result }
        ensures same_length { SameLength lists × SameLength counts × SameLength notes × SameLength noted }
    {
        let Round {
            stops: waits,
            changed: raised,
            lined,
            over,
        } = last;
        let set = self.points_to_fill(raised, lined, over);
        let Reading {
            plan,
            marks,
            horizon,
            points: n,
            width,
            mask,
            rows,
            ..
        } = *self;
        next_round(
            plan, marks, horizon, first, second, lists, counts, rows, notes, noted, width, mask,
            set, over,
        );
        let changed = settle(
            second,
            first,
            notes,
            noted,
            lists,
            counts,
            n,
            width,
            set.union(raised),
        );
        let lined = lined_after(counts, n, changed, lined);
        let over = over_horizon(second, lists, counts, n, width, changed, horizon);
        Round {
            stops: stops(first, second, n, width, waits, changed, set),
            changed,
            lined,
            over,
        }
    }
}

// The answer of the round that stopped.
fn ending(table: &[u32], width: usize, made: u64) -> Answer
    requires { width ≤ length table.now }
    ensures { outcome_of result ≡ pick (any_above (take width table.now)) (broken made) (kept made) }
{
    if first_alarm_waits(table, width) {
        return Answer::Broken(made);
    }
    Answer::Kept(made)
}

// Rounds from two tables with the same cells, up to the limit, with what is known of them in the lists.
fn rounds_from<'a>(
    plan: &'a [u8],
    marks: &'a [u8; 256],
    horizon: u64,
    first: &mut [u32],
    second: &mut [u32],
    limit: u64,
    lists: &mut [u16],
    counts: &mut [usize],
    notes: &mut [u16],
    lined: PointSet,
    over: bool,
) -> Answer
    requires ready { Ready plan.now marks.now horizon first.old second.old }
    requires room_from { RoomFrom (plan_with plan.now horizon) (take (cells_of (plan_of plan.now)) first.old) }
    requires second_value { take (cells_of (plan_of plan.now)) second.old ≡ take (cells_of (plan_of plan.now)) first.old }
    requires lists_lent { ListsLent plan.now horizon first.old lists.old counts.old notes.old lined over }
    ensures ran { Ran (plan_with plan.now horizon) first.old second.old limit (outcome_of result) first.new second.new }
    ensures same_length { SameLength lists × SameLength counts × SameLength notes }
{
    let n = points(plan);
    let width = point_width(plan);
    let mut first_edges = [None; 32];
    let mut edges = [EdgeNumbers::NONE; 128];
    let rows = Rows::read(plan, &mut first_edges, &mut edges);
    let mut dependents = [PointSet::new(); 32];
    find_dependents(plan, &mut dependents);
    let reading = Reading {
        plan,
        marks,
        horizon,
        points: n,
        width,
        mask: label_mask(plan),
        rows: &rows,
        dependents: &dependents,
        givers: find_givers(plan),
    };
    let mut noted = [0usize; 32];
    let mut last = Round {
        stops: first_alarm_waits(first, width),
        changed: PointSet::below(n),
        lined,
        over,
    };
    for made in 0..limit {
        last = reading.make_round(first, second, lists, counts, notes, &mut noted, last);
        if last.stops {
            return ending(second, width, made + 1);
        }
    }
    Answer::Spent(limit)
}

// The lists before the first round. A table of zeros has the starting lines alone, and so do lists of zeros; else all lines are listed. Gives a set that has
// the points with more lines.
fn first_lists(
    plan: &[u8],
    first: &[u32],
    lists: &mut [u16],
    counts: &mut [usize],
    zeros: bool,
) -> PointSet
    requires { Accepted plan.now × FirstLent plan.now first.now lists.old counts.old zeros }
    ensures first_lists { FirstLists (plan_of plan.now) first.now lists.new counts.new result }
    ensures same_length { SameLength lists × SameLength counts }
{
    if zeros {
        return PointSet::new();
    }
    let n = points(plan);
    list_lines(first, lists, counts, n, point_width(plan));
    PointSet::below(n)
}

// Rounds with lists of so many places, for a plan of half as many cells at most.
fn run_with<const PLACES: usize, const CELLS: usize>(
    plan: &[u8],
    marks: &[u8; 256],
    horizon: u64,
    first: &mut [u32],
    second: &mut [u32],
    limit: u64,
    zeros: bool,
) -> Answer
    requires run_lent { RunLent plan.now marks.now horizon first.old second.old zeros }
    requires sizes { (cells_of (plan_of plan.now) ≤ CELLS) × (PLACES ≡ 2 * CELLS) × (CELLS ≤ 16384) }
    ensures { Ran (plan_with plan.now horizon) first.old second.old limit (outcome_of result) first.new second.new }
{
    let mut lists = [0u16; PLACES];
    let mut notes = [0u16; CELLS];
    let mut counts = [1usize; 64];
    let lined = first_lists(plan, first, &mut lists, &mut counts, zeros);
    rounds_from(
        plan,
        marks,
        horizon,
        first,
        second,
        limit,
        &mut lists,
        &mut counts,
        &mut notes,
        lined,
        !zeros,
    )
}

// Rounds from two tables with the same cells, up to the limit; zeros says that all their cells are 0. Lists are of four sizes, so that small plans pay nothing for large ones.
pub fn rounds_to(
    plan: &[u8],
    marks: &[u8; 256],
    horizon: u64,
    first: &mut [u32],
    second: &mut [u32],
    limit: u64,
    zeros: bool,
) -> Answer
    requires { RunLent plan.now marks.now horizon first.old second.old zeros }
    ensures { Ran (plan_with plan.now horizon) first.old second.old limit (outcome_of result) first.new second.new }
{
    let end = cells(plan);
    if end <= 64 {
        return run_with::<128, 64>(plan, marks, horizon, first, second, limit, zeros);
    }
    if end <= 512 {
        return run_with::<1024, 512>(plan, marks, horizon, first, second, limit, zeros);
    }
    if end <= 2048 {
        return run_with::<4096, 2048>(plan, marks, horizon, first, second, limit, zeros);
    }
    run_with::<32768, 16384>(plan, marks, horizon, first, second, limit, zeros)
}
