// What the listing answers, and the listing of a broken plan handed over.
ghost use Rattle.std.specs.Prelude.{◌≡◌, ◌+◌, ◌*◌, ◌≤◌, min, length};
ghost use Rattle.plan.specs.Moments.{moments};
ghost use Rattle.plan.specs.Layout.{plan_of};
ghost use Rattle.rounds_making.specs.Outcomes.{broken, outcome_of};
ghost use Rattle.listing_lines.specs.Listed.{listing_lines};
ghost use Rattle.listing.specs.ListOutcomes.{answer_of, length_of};
ghost use Rattle.listing.specs.AfterList.{AfterList};
ghost use Rattle.listing.specs.Answering.{BrokenTables, BrokenLent, BrokenWith, ListingLeft, Answered};

use crate::Listed;
use listing_write::{count_lines, write_listing};
use plan::{Refusal, cells};
use plan_refusal::refusal;
use rounds::{Answer, check};

const MOST: usize = 4096;

// Each round before the last has a line, so that many rounds have too many lines.
const MOST_ROUNDS: u64 = 4096;

// The listing of m lines, which the output has room for.
fn write_out(
    plan: &[u8],
    first: &mut [u32],
    second: &mut [u32],
    index: &mut [u16],
    out: &mut [u8],
    m: usize,
    r: u64,
)
    requires { BrokenLent plan.now first.old second.old index.old r × (m ≡ length (listing_lines (plan_of plan.now) r)) × (m ≤ 4096) × (2 + 14 * m ≤ length out.old) }
    ensures first_value { first.new ≡ first.old }
    ensures second_value { second.new ≡ second.old }
    ensures listing_left { ListingLeft plan.now r index.old out.old index.new out.new }
{
    let end = cells(plan);
    let bytes = 2 + 14 * m;
    write_listing(
        plan,
        &mut first[..end],
        &mut second[..end],
        &mut index[..end],
        &mut out[..bytes],
        m,
        r,
    );
}

// The lines of the listing, counted as far as 4,097; the tables are as they were.
fn lines_of(plan: &[u8], first: &mut [u32], second: &mut [u32], r: u64) -> usize
    requires { BrokenTables plan.now first.old second.old r }
    ensures value { result ≡ min 4097 (length (listing_lines (plan_of plan.now) r)) }
    ensures first_value { first.new ≡ first.old }
    ensures second_value { second.new ≡ second.old }
{
    let end = cells(plan);
    usize::from(count_lines(plan, &mut first[..end], &mut second[..end], r))
}

// Where the plan broke in round r. Refusal 7 is decided before anything is written.
fn list_broken(
    plan: &[u8],
    first: &mut [u32],
    second: &mut [u32],
    index: &mut [u16],
    out: &mut [u8],
    r: u64,
) -> Result<Listed, Refusal>
    requires { BrokenLent plan.now first.old second.old index.old r }
    ensures first_value { first.new ≡ first.old }
    ensures second_value { second.new ≡ second.old }
    ensures answered { Answered plan.now (broken r) (answer_of result) (length_of result) index.old out.old index.new out.new }
{
    if MOST_ROUNDS < r {
        return Err(Refusal::ShortOutput);
    }
    let m = lines_of(plan, first, second, r);
    if MOST < m || out.len() < 2 + 14 * m {
        return Err(Refusal::ShortOutput);
    }
    write_out(plan, first, second, index, out, m, r);
    Ok(Listed::Broken(r, 2 + 14 * m))
}

// By the check's answer.
fn list_checked(
    plan: &[u8],
    first: &mut [u32],
    second: &mut [u32],
    index: &mut [u16],
    out: &mut [u8],
    answer: Answer,
) -> Result<Listed, Refusal>
    requires { BrokenWith plan.now first.old second.old index.old (outcome_of answer) }
    ensures first_value { first.new ≡ first.old }
    ensures second_value { second.new ≡ second.old }
    ensures answered { Answered plan.now (outcome_of answer) (answer_of result) (length_of result) index.old out.old index.new out.new }
{
    match answer {
        Answer::Kept(r) => Ok(Listed::Kept(r)),
        Answer::Broken(r) => list_broken(plan, first, second, index, out, r),
        Answer::Spent(n) => Ok(Listed::Spent(n)),
    }
}

// As the check answers, and where the plan is broken its listing with the length in bytes; refusal 6 for the 16-bit table too, and 7 where the listing has
// over 4,096 lines or the output is shorter. The listing handed over is a derivation that makes the first alarm wait for itself.
pub fn list(
    plan: &[u8],
    first: &mut [u32],
    second: &mut [u32],
    limit: u64,
    index: &mut [u16],
    out: &mut [u8],
) -> Result<Listed, Refusal>
    ensures { AfterList plan.now limit (moments first) (moments second) (moments index) (moments out) (answer_of result) (length_of result) }
{
    refusal(plan)?;
    if index.len() < cells(plan) {
        return Err(Refusal::ShortTable);
    }
    let answer = check(plan, first, second, limit)?;
    list_checked(plan, first, second, index, out, answer)
}
