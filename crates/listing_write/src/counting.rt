// How many lines the listing of a broken plan has, counted in 16 bits as far as 4,097.
ghost use Rattle.std.specs.Prelude.{◌≡◌, ◌≤◌, min, length};
ghost use Rattle.plan.specs.Moments.{SameLength};
ghost use Rattle.plan.specs.Plan.{Plan};
ghost use Rattle.plan.specs.Layout.{plan_of};
ghost use Rattle.rules.specs.Tables.{next};
ghost use Rattle.rules_fill.specs.Parts.{AtMost};
ghost use Rattle.listing_lines.specs.Listed.{table, raised_lines, lines_to, listing_lines};
ghost use Rattle.listing_write.specs.BrokenPlans.{BrokenPlan};
ghost use Rattle.listing_write.specs.Progress.{round_lines, count_with, Exact, RoundsLent};

use plan::{cells, horizon as horizon_of, plain_marks};
use rounds_tables::{clear_cells, round};
use rules_fill::copy_cells;

// Nothing needs the count beyond 4,097.
const MANY: u16 = 4097;

// Lines counted so far and the cells that a round raised.
fn count_raised(first: &[u32], second: &[u32], lines: u16) -> u16
    requires { (length second.now ≡ length first.now) × (lines ≤ 4097) }
    ensures { (P : Plan) → result ≡ count_with lines (raised_lines P first.now second.now (length first.now)) }
{
    let end = first.len();
    let mut count = lines;
    for c in 0..end {
        if first[c] < second[c] {
            count = (count + 1).min(MANY);
        }
    }
    count
}

fn count_round(
    plan: &[u8],
    marks: &[u8; 256],
    horizon: u64,
    first: &mut [u32],
    second: &mut [u32],
    lines: u16,
) -> u16
    requires { Exact plan.now marks.now horizon first.old second.old × AtMost 4000000000 first.old × (lines ≤ 4097) }
    ensures value { result ≡ count_with lines (round_lines (plan_of plan.now) first.old) }
    ensures first_value { first.new ≡ next (plan_of plan.now) first.old }
    ensures second_value { second.new ≡ next (plan_of plan.now) first.old }
    ensures same_length { SameLength first }
    ensures same_length_2 { SameLength second }
{
    round(plan, marks, horizon, first, second);
    let count = count_raised(first, second, lines);
    let end = cells(plan);
    copy_cells(second, first, end);
    count
}

// The lines of some rounds from zeros, and the last line.
fn count_rounds(
    plan: &[u8],
    marks: &[u8; 256],
    horizon: u64,
    first: &mut [u32],
    second: &mut [u32],
    rounds: u64,
) -> u16
    requires { RoundsLent plan.now marks.now horizon first.old second.old rounds }
    ensures value { result ≡ count_with 1 (lines_to (plan_of plan.now) rounds) }
    ensures first_value { first.new ≡ table (plan_of plan.now) rounds }
    ensures same_length { SameLength first }
    ensures same_length_2 { SameLength second }
{
    let mut lines = 1;
    for made in 0..rounds {
        lines = count_round(plan, marks, horizon, first, second, lines);
    }
    lines
}

// The lines of the listing of a plan that breaks in round r. Both tables end with that round's table.
pub fn count_lines(plan: &[u8], first: &mut [u32], second: &mut [u32], r: u64) -> u16
    requires { BrokenPlan plan.now first.old second.old r }
    ensures value { result ≡ min 4097 (length (listing_lines (plan_of plan.now) r)) }
    ensures first_value { first.new ≡ table (plan_of plan.now) r }
    ensures second_value { second.new ≡ table (plan_of plan.now) r }
    ensures same_length { SameLength first }
    ensures same_length_2 { SameLength second }
{
    let marks = plain_marks();
    let horizon = horizon_of(plan);
    let end = cells(plan);
    clear_cells(first, end);
    let lines = count_rounds(plan, &marks, horizon, first, second, r - 1);
    count_round(plan, &marks, horizon, first, second, lines);
    lines
}
