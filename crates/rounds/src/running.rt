// Rounds from the cells of a table or from zeros, and the check.
ghost use Rattle.std.specs.Prelude.{◌≡◌, take};
ghost use Rattle.plan.specs.Moments.{moments};
ghost use Rattle.plan.specs.Plan.{cells as cells_of};
ghost use Rattle.plan.specs.Layout.{plan_of};
ghost use Rattle.plan.specs.Horizons.{plan_with};
ghost use Rattle.plan.specs.Refusal.{Accepted};
ghost use Rattle.rounds_tables.specs.Ready.{Ready};
ghost use Rattle.rounds_making.specs.Runs.{RoomFrom, Ran};
ghost use Rattle.rounds_making.specs.Outcomes.{outcome_of, outcome_of_check};
ghost use Rattle.rounds.specs.FromZeros.{ZerosLent, RanFromZeros};
ghost use Rattle.rounds.specs.Meaning.{enough_rounds};
ghost use Rattle.rounds.specs.AfterCheck.{AfterCheck};

use crate::Answer;
use plan::{Refusal, cells, horizon as horizon_of, largest, plain_marks};
use plan_refusal::refusal;
use rounds_making::rounds_to;
use rounds_tables::clear_cells;
use rules_fill::copy_cells;

// Rounds from the first table's cells, up to the limit; both tables then hold the last round's table.
pub fn run(
    plan: &[u8],
    marks: &[u8; 256],
    horizon: u64,
    first: &mut [u32],
    second: &mut [u32],
    limit: u64,
) -> Answer
    requires ready { Ready plan.now marks.now horizon first.old second.old }
    requires room_from { RoomFrom (plan_with plan.now horizon) (take (cells_of (plan_of plan.now)) first.old) }
    ensures { Ran (plan_with plan.now horizon) first.old second.old limit (outcome_of result) first.new second.new }
{
    let end = cells(plan);
    copy_cells(first, second, end);
    rounds_to(plan, marks, horizon, first, second, limit, false)
}

// Rounds from zeros, with a horizon that is no shorter than the plan's own.
pub fn run_from_zeros(
    plan: &[u8],
    horizon: u64,
    first: &mut [u32],
    second: &mut [u32],
    limit: u64,
) -> Answer
    requires { ZerosLent plan.now horizon first.old second.old }
    ensures { RanFromZeros (plan_with plan.now horizon) limit (moments first) (moments second) (outcome_of result) }
{
    let end = cells(plan);
    clear_cells(first, end);
    clear_cells(second, end);
    let marks = plain_marks();
    rounds_to(plan, &marks, horizon, first, second, limit, true)
}

// The number of rounds that is enough for the plan.
pub fn enough_rounds(plan: &[u8]) -> u64
    requires { Accepted plan.now }
    ensures { result ≡ enough_rounds (plan_of plan.now) }
{
    cells(plan) as u64 * (horizon_of(plan) + largest(plan) + 1) + 1
}

// What rounds from zeros end with; refused, the tables are untouched.
pub fn check(
    plan: &[u8],
    first: &mut [u32],
    second: &mut [u32],
    limit: u64,
) -> Result<Answer, Refusal>
    ensures { AfterCheck plan.now limit (moments first) (moments second) (outcome_of_check result) }
{
    refusal(plan)?;
    let end = cells(plan);
    if first.len() < end || second.len() < end {
        return Err(Refusal::ShortTable);
    }
    Ok(run_from_zeros(plan, horizon_of(plan), first, second, limit))
}
