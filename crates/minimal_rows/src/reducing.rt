// The rows tried in their order, and the call.
ghost use Rattle.std.specs.Prelude.{◌≡◌, ◌+◌, ◌≤◌, ◌<◌, length, take};
ghost use Rattle.plan.specs.Moments.{SameLength, moments};
ghost use Rattle.plan.specs.Layout.{plan_of};
ghost use Rattle.plan.specs.Refusal.{Accepted};
ghost use Rattle.minimal_rows.specs.Trials.{all_rows, tried_to, breaking_marks};
ghost use Rattle.minimal_rows.specs.BreakingRows.{outcome_of};
ghost use Rattle.minimal_rows.specs.AfterBreakingRows.{AfterBreakingRows};
ghost use Rattle.minimal_rows.specs.Lent.{MarksLent, Within};
ghost use Rattle.minimal_rows.specs.Reducing.{plan_in, MarksAre, RowsLeft, set_run, reached};

use crate::trials::{Trials, is_broken};
use plan::{Refusal, cells, edges, horizon as horizon_of};
use plan_refusal::refusal;
use rounds::{enough_rounds, run_from_zeros};

// How far the rows have been tried: the next row, the row after the last one that was needed, and how many to try at once.
#[derive(Clone, Copy)]
pub struct Progress {
    pub next: usize,
    pub start: usize,
    pub count: usize,
    ghost within: { Within next start count },
}

impl Progress {
    // Of n rows none has been tried, and half of them are tried first.
    fn new(n: usize) -> Progress
        requires { n ≤ 128 }
        ensures { result.next ≡ 0 }
    {
        Progress {
            next: 0,
            start: 0,
            count: n / 2 + 1,
        }
    }

    // Once n rows have been tried together: where they stay, half as many are tried, and a single one that stays is needed.
    // After a row that is needed one more is tried at once than were left out before it.
    fn advance(self, n: usize, out: bool) -> Progress
        requires { (0 < n) × (n ≤ self.count) × (self.next + n ≤ 128) }
        ensures { (result.next ≡ reached self.next n out) × (result.next ≡ self.next → result.count < self.count) }
    {
        let next = self.next;
        let start = self.start;
        if out {
            return Progress {
                next: next + n,
                start,
                count: self.count,
            };
        }
        if n != 1 {
            return Progress {
                next,
                start,
                count: n / 2,
            };
        }
        Progress {
            next: next + 1,
            start: next + 1,
            count: next - start + 1,
        }
    }
}

// The marks of n rows from row i on.
fn mark_rows(marks: &mut [u8], i: usize, n: usize, mark: u8)
    requires { i + n ≤ length marks.old }
    ensures marks_value { marks.new ≡ set_run mark i n marks.old }
    ensures same_length { SameLength marks }
{
    marks[i..i + n].fill(mark);
}

impl<'a> Trials<'a> {
    // The next n rows, from row i on, are left out together if the rest is still broken: then each of them would be, one by one. Whether they are.
    fn try_some(
        &self,
        first: &mut [u32],
        second: &mut [u32],
        marks: &mut [u8],
        i: usize,
        n: usize,
    ) -> bool
        requires marks_lent { MarksLent (plan_in self.now) first.old second.old marks.old × (i + n ≤ (plan_in self.now).edges) }
        requires marks_value { take (plan_in self.now).edges marks.old ≡ tried_to (plan_in self.now) i }
        ensures { MarksAre (plan_in self.now) (tried_to (plan_in self.now) (reached i n result)) (moments first) (moments second) (moments marks) }
    {
        mark_rows(marks, i, n, 0);
        let tried = self.trial(marks, first, second);
        if tried.broken {
            return true;
        }
        mark_rows(marks, i, n, 1);
        false
    }

    // All rows, in their order.
    fn try_rows(&self, first: &mut [u32], second: &mut [u32], marks: &mut [u8])
        requires marks_lent { MarksLent (plan_in self.now) first.old second.old marks.old }
        requires marks_value { take (plan_in self.now).edges marks.old ≡ all_rows (plan_in self.now) }
        ensures { MarksAre (plan_in self.now) (breaking_marks (plan_in self.now)) (moments first) (moments second) (moments marks) }
    {
        let n = edges(self.plan);
        let mut at = Progress::new(n);
        // No `for`: where rows stay together the next row stays the same, and fewer are tried.
        while at.next < n {
            let some = at.count.min(n - at.next);
            let out = self.try_some(first, second, marks, at.next, some);
            at = at.advance(some, out);
        }
    }

    // The rows that break a plan that is broken.
    fn reduce(&self, first: &mut [u32], second: &mut [u32], marks: &mut [u8]) -> usize
        requires { MarksLent (plan_in self.now) first.old second.old marks.old }
        ensures { RowsLeft (plan_in self.now) (moments first) (moments second) (moments marks) result }
    {
        mark_rows(marks, 0, edges(self.plan), 1);
        self.try_rows(first, second, marks);
        let last = self.trial(marks, first, second);
        last.rows
    }
}

// The call on an accepted plan with memory that is long enough: refused where the plan is kept.
fn reduce_broken(
    plan: &[u8],
    first: &mut [u32],
    second: &mut [u32],
    marks: &mut [u8],
) -> Result<usize, Refusal>
    requires { Accepted plan.now × MarksLent (plan_of plan.now) first.old second.old marks.old }
    ensures { AfterBreakingRows plan.now (moments first) (moments second) (moments marks) (outcome_of result) }
{
    let trials = Trials {
        plan,
        horizon: horizon_of(plan),
        limit: enough_rounds(plan),
    };
    let whole = run_from_zeros(plan, trials.horizon, first, second, trials.limit);
    if !is_broken(whole) {
        return Err(Refusal::Kept);
    }
    Ok(trials.reduce(first, second, marks))
}

// How many rows remain, with the marks and the tables; where the plan is kept the marks are not touched, and under any other refusal nothing is.
pub fn breaking_rows(
    plan: &[u8],
    first: &mut [u32],
    second: &mut [u32],
    marks: &mut [u8],
) -> Result<usize, Refusal>
    ensures { AfterBreakingRows plan.now (moments first) (moments second) (moments marks) (outcome_of result) }
{
    refusal(plan)?;
    let end = cells(plan);
    if first.len() < end || second.len() < end || marks.len() < edges(plan) {
        return Err(Refusal::ShortTable);
    }
    reduce_broken(plan, first, second, marks)
}
