// What a page answers, and its output.
ghost use Rattle.std.specs.Prelude.{◌≡◌, ◌≤◌, length};
ghost use Rattle.plan.specs.Counting.{count};
ghost use Rattle.plan.specs.Moments.{moments};
ghost use Rattle.plan.specs.Refusal.{every};
ghost use Rattle.page.specs.Page.{above, wait_fits, outcome_of};
ghost use Rattle.page.specs.AfterPage.{AfterPage};

use crate::lines::put_page;
use plan::{Refusal, cells};
use plan_refusal::refusal;
use text::TextBuffer;

// The columns of a line, and its newline.
const LINE: usize = 22;

// The largest wait that fits its columns.
const MOST_PRINTED: u32 = 999999;

fn waits_fit(table: &[u32], end: usize) -> bool
    requires { end ≤ length table.now }
    ensures { result ≡ every (wait_fits table.now) end }
{
    table[..end].iter().all(|&wait| wait <= MOST_PRINTED)
}

// The cells above 0: one line each.
fn count_lines(table: &[u32], end: usize) -> usize
    requires { end ≤ length table.now }
    ensures { result ≡ count (above table.now) end }
{
    let mut lines = 0;
    // No `filter` and `count`: they were not compiled to vector instructions, and took a fifth of the time of pages of few lines.
    for &cell in &table[..end] {
        if cell != 0 {
            lines += 1;
        }
    }
    lines
}

// The page's length; refused, the output is untouched.
pub fn page(plan: &[u8], table: &[u32], out: &mut [u8]) -> Result<usize, Refusal>
    ensures { AfterPage plan.now table.now (moments out) (outcome_of result) }
{
    refusal(plan)?;
    let end = cells(plan);
    if table.len() < end {
        return Err(Refusal::ShortTable);
    }
    // Both are known before either is told, so that the two tests alone say which comes first.
    let fits = waits_fit(table, end);
    let length = LINE * count_lines(table, end);
    if !fits {
        return Err(Refusal::LongWait);
    }
    if out.len() < length {
        return Err(Refusal::ShortPage);
    }
    let mut text = TextBuffer::new(out);
    put_page(&mut text, plan, table);
    Ok(text.length())
}
