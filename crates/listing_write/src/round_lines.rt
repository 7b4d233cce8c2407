// The rounds again from zeros, with their lines.
ghost use Rattle.std.specs.Prelude.{◌≡◌, [], ◌+◌, ◌-◌, ◌≤◌, length};
ghost use Rattle.plan.specs.Moments.{SameLength};
ghost use Rattle.plan.specs.Layout.{plan_of};
ghost use Rattle.replay.specs.Listings.{line_count};
ghost use Rattle.listing_lines.specs.Listed.{table, lowest_raised, listing_lines, index_table};
ghost use Rattle.listing_lines.specs.Handed.{Listing};
ghost use Rattle.listing_write.specs.BrokenPlans.{ListingLent};
ghost use Rattle.listing_write.specs.Progress.{round_lines, Appends, Numbers};
ghost use Rattle.listing_write.specs.RoundLines.{lowest_line, last_line_of, RoundRoom, LastReady, LowestReady, StartLent, ListingStarted, ListsRound, ListsRounds};

use crate::bytes::put_word;
use crate::entries::{list_cells, list_raised};
use crate::index::{number_cells, start_index};
use plan::{cells, horizon as horizon_of, plain_marks, points, width as width_of};
use rounds_tables::{clear_cells, round};
use rules_fill::copy_cells;

// The lowest of the first cells that the round raised.
fn lowest(first: &[u32], second: &[u32], width: usize) -> usize
    requires { (width ≤ length first.now) × (width ≤ length second.now) }
    ensures { result ≡ lowest_raised first.now second.now 0 width }
{
    for c in 0..width {
        if first[c] < second[c] {
            return c;
        }
    }
    width
}

// One round with its lines, from line `at` on; the number of the next line.
// Its lines have parents of the round before, so its cells are numbered after they are written.
fn list_round(
    plan: &[u8],
    marks: &[u8; 256],
    horizon: u64,
    first: &mut [u32],
    second: &mut [u32],
    index: &mut [u16],
    out: &mut [u8],
    m: usize,
    at: usize,
) -> usize
    requires { RoundRoom plan.now marks.now horizon first.old second.old index.old out.old m at }
    ensures value { result ≡ at + length (round_lines (plan_of plan.now) first.old) }
    ensures lists_round { ListsRound plan (round_lines (plan_of plan.now) first.old) at first second index out }
{
    round(plan, marks, horizon, first, second);
    let following = list_cells(plan, marks, horizon, first, second, index, out, m, at);
    number_cells(plan, first, second, index, at);
    let end = cells(plan);
    copy_cells(second, first, end);
    following
}

// The rounds before the last.
fn list_rounds(
    plan: &[u8],
    marks: &[u8; 256],
    horizon: u64,
    first: &mut [u32],
    second: &mut [u32],
    index: &mut [u16],
    out: &mut [u8],
    m: usize,
    rounds: u64,
)
    requires { ListingStarted plan.now marks.now horizon first.old second.old index.old out.old m rounds }
    ensures { ListsRounds plan rounds first second index out }
{
    let mut at = 0;
    for made in 0..rounds {
        at = list_round(plan, marks, horizon, first, second, index, out, m, at);
    }
}

// The last line, that of the lowest Z cell that the round raised.
fn list_lowest(
    plan: &[u8],
    marks: &[u8; 256],
    horizon: u64,
    first: &[u32],
    second: &[u32],
    index: &mut [u16],
    out: &mut [u8],
    m: usize,
)
    requires { LowestReady plan.now marks.now horizon first.now second.now index.old out.old m }
    ensures numbers { Numbers plan (m - 1) (lowest_line (plan_of plan.now) first.now second.now) index }
    ensures appends { Appends plan (m - 1) (lowest_line (plan_of plan.now) first.now second.now) out }
    ensures same_length { SameLength index }
{
    let width = width_of(plan);
    let c = lowest(first, second, width);
    let last = m - 1;
    list_raised(plan, marks, horizon, first, second, index, out, m, last, c);
    let n = points(plan);
    index[c] = (n + last) as u16;
}

// The round in which the plan breaks.
fn list_last(
    plan: &[u8],
    marks: &[u8; 256],
    horizon: u64,
    first: &mut [u32],
    second: &mut [u32],
    index: &mut [u16],
    out: &mut [u8],
    m: usize,
)
    requires { LastReady plan.now marks.now horizon first.old second.old index.old out.old m }
    ensures { ListsRound plan (last_line_of (plan_of plan.now) first.old) (m - 1) first second index out }
{
    round(plan, marks, horizon, first, second);
    list_lowest(plan, marks, horizon, first, second, index, out, m);
    let end = cells(plan);
    copy_cells(second, first, end);
}

// Table(0), the numbers of the starting lines, and the number of lines.
fn start_listing(plan: &[u8], first: &mut [u32], index: &mut [u16], out: &mut [u8], m: usize)
    requires { StartLent plan.now first.old index.old out.old m }
    ensures first_value { first.new ≡ table (plan_of plan.now) 0 }
    ensures index_value { index.new ≡ index_table (plan_of plan.now) [] }
    ensures out_value { line_count out.new ≡ m }
    ensures same_length { SameLength first }
    ensures same_length_2 { SameLength index }
    ensures same_length_3 { SameLength out }
{
    let end = cells(plan);
    clear_cells(first, end);
    start_index(plan, index);
    put_word(out, 0, m);
}

// The listing of m lines of a plan that breaks in round r, into tables of just its cells and an output of just its length.
pub fn write_listing(
    plan: &[u8],
    first: &mut [u32],
    second: &mut [u32],
    index: &mut [u16],
    out: &mut [u8],
    m: usize,
    r: u64,
)
    requires { ListingLent plan.now first.old second.old index.old out.old m r }
    ensures first_value { first.new ≡ table (plan_of plan.now) r }
    ensures second_value { second.new ≡ table (plan_of plan.now) r }
    ensures index_value { index.new ≡ index_table (plan_of plan.now) (listing_lines (plan_of plan.now) r) }
    ensures listing { Listing plan.now out.new r }
    ensures same_length { SameLength first }
    ensures same_length_2 { SameLength second }
    ensures same_length_3 { SameLength index }
    ensures same_length_4 { SameLength out }
{
    let marks = plain_marks();
    let horizon = horizon_of(plan);
    start_listing(plan, first, index, out, m);
    list_rounds(plan, &marks, horizon, first, second, index, out, m, r - 1);
    list_last(plan, &marks, horizon, first, second, index, out, m);
}
