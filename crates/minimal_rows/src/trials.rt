// A trial of the rows with mark 1.
ghost use Rattle.std.specs.Prelude.{◌≡◌, ◌≤◌, length};
ghost use Rattle.plan.specs.Moments.{moments};
ghost use Rattle.plan_rows.specs.RowBytes.{RowsIn};
ghost use Rattle.rounds_making.specs.Outcomes.{outcome_of};
ghost use Rattle.minimal_rows.specs.Trials.{is_broken};
ghost use Rattle.minimal_rows.specs.Lent.{Trying, TablesLent, MarksLent};

use plan::edges;
use plan_rows::{marked_rows, write_rows};
use rounds::{Answer, run_from_zeros};

// A trial: whether it is broken, and how many rows it had.
#[derive(Clone, Copy)]
pub struct Trial {
    // No Option: the rows are counted either way.
    pub broken: bool,
    pub rows: usize,
}

// What the trials of a plan's rows have in common: the plan, its horizon, and the number of rounds that is enough for it.
#[derive(Clone, Copy)]
pub struct Trials<'a> {
    pub plan: &'a [u8],
    pub horizon: u64,
    pub limit: u64,
    ghost trying: { Trying plan.now horizon limit },
}

pub fn is_broken(answer: Answer) -> bool
    ensures { result ≡ is_broken (outcome_of answer) }
{
    matches!(answer, Answer::Broken(_))
}

impl<'a> Trials<'a> {
    ghost use Rattle.minimal_rows.specs.Reducing.{plan_in, RowsTried, Tried};

    // The rounds from zeros of the plan with these rows, whose bytes go into a buffer.
    fn run_rows(
        &self,
        rows: &[usize],
        first: &mut [u32],
        second: &mut [u32],
        bytes: &mut [u8],
    ) -> bool
        requires tables_lent { TablesLent (plan_in self.now) first.old second.old × RowsIn (plan_in self.now) rows.now }
        requires in_bounds { 800 ≤ length bytes.old }
        ensures { RowsTried (plan_in self.now) rows.now (moments first) (moments second) result }
    {
        let end = write_rows(self.plan, rows, bytes);
        is_broken(run_from_zeros(&bytes[..end], self.horizon, first, second, self.limit))
    }

    // A trial of the rows with mark 1.
    pub fn trial(&self, marks: &[u8], first: &mut [u32], second: &mut [u32]) -> Trial
        requires { MarksLent (plan_in self.now) first.old second.old marks.now }
        ensures { Tried (plan_in self.now) marks.now (moments first) (moments second) result }
    {
        let mut numbers = [0usize; 128];
        let count = marked_rows(marks, edges(self.plan), &mut numbers);
        let mut bytes = [0u8; 800];
        Trial {
            broken: self.run_rows(&numbers[..count], first, second, &mut bytes),
            rows: count,
        }
    }
}
