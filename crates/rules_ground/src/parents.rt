// A rule's parents among the cells of a table.
ghost use Rattle.std.specs.Prelude.{◌≡◌, true, false, ◌+◌, ◌*◌, ◌<◌};
ghost use Rattle.plan.specs.Plan.{cells};
ghost use Rattle.rules_apply.specs.Applicable.{InLabels};
ghost use Rattle.rules.specs.Rules.{uses_second};
ghost use Rattle.rules_ground.specs.Searching.{the_plan, CellSearched, PairSearched, RowSearched, PlaceSearched, SecondSearched, SecondMasked, gives_with, Finds, ByRule, ByFirst, ByPair, BySecond};

use crate::lines::{holds_line, line_at};
use crate::places::next_within;
use crate::{Row, Search};
use plan::cell_at;
use rules::{Ground, Line, Rule};
use rules_apply::gives_line;

impl Search<'_> {
    // Whether the rule gives the line that is looked for from one line and the line of cell d.
    fn gives_with(&self, by: Rule, first: Line, d: usize) -> bool
        requires { CellSearched self.now by d × InLabels (the_plan self.now) first }
        ensures { result ≡ gives_with (the_plan self.now) self.now.table.now self.now.line by first d }
    {
        if !holds_line(self.table, self.width, d) {
            return false;
        }
        let second = line_at(self.table, self.frame, d);
        gives_line(
            self.plan,
            self.marks,
            self.horizon,
            by,
            first,
            second,
            self.line,
        )
    }

    // A ground whose parents are the lines of cells c and d.
    fn find_pair(&self, by: Rule, c: usize, d: usize) -> Option<Ground>
        requires { PairSearched self.now by c d }
        ensures { Finds self.now (ByPair by c d) result }
    {
        if !holds_line(self.table, self.width, c) {
            return None;
        }
        let first = line_at(self.table, self.frame, c);
        if !self.gives_with(by, first, d) {
            return None;
        }
        Some(Ground {
            by,
            first: c,
            second: d,
        })
    }

    // The same by a rule that takes a second parent and adds down to its wait: it gives the lesser of the two waits.
    fn find_waiting(&self, by: Rule, down: u64, c: usize, d: usize) -> Option<Ground>
        requires { SecondSearched self.now by down c × (d < cells (the_plan self.now)) }
        ensures { Finds self.now (ByPair by c d) result }
    {
        let wait = cell_at(self.table, c).min(cell_at(self.table, d) + down);
        if wait != self.line.wait {
            return None;
        }
        self.find_pair(by, c, d)
    }

    // A second parent for the line of cell c, among the cells from lo on whose numbers from there have no bit outside the mask.
    fn find_second(&self, by: Rule, down: u64, c: usize, lo: usize, mask: usize) -> Option<Ground>
        requires { SecondSearched self.now by down c × SecondMasked self.now lo mask }
        ensures { Finds self.now (BySecond by c lo mask) result }
    {
        // No iterator: its struct, its `next` and the laws of its runs would be longer than the two loops that walk so.
        let mut v = 0;
        while v < self.width {
            if let Some(ground) = self.find_waiting(by, down, c, lo + v) {
                return Some(ground);
            }
            v = next_within(v, mask, self.width);
        }
        None
    }

    // A ground whose first parent is the line at place t, by a rule that takes a second. The second's place has the line's other bits.
    fn find_with_two(&self, by: Rule, row: Row, t: usize) -> Option<Ground>
        requires { PlaceSearched self.now by row t × (uses_second by ≡ true) }
        ensures { Finds self.now (ByFirst by (row.first * self.now.width + t)) result }
    {
        let c = row.first * self.width + t;
        if cell_at(self.table, c) < self.line.wait {
            return None;
        }
        let own = t & row.removed;
        if own == 0 {
            return None;
        }
        let mask = self.place & (t - own);
        let lo = row.second * self.width + (self.place - mask);
        self.find_second(by, row.down, c, lo, mask)
    }

    // The same by a rule of one parent. It ignores the second, so cell 0 serves.
    fn find_with_one(&self, by: Rule, row: Row, t: usize) -> Option<Ground>
        requires { PlaceSearched self.now by row t × (uses_second by ≡ false) }
        ensures { Finds self.now (ByFirst by (row.first * self.now.width + t)) result }
    {
        let c = row.first * self.width + t;
        let wait = cell_at(self.table, c) + row.down;
        if wait < row.up {
            return None;
        }
        if wait - row.up != self.line.wait {
            return None;
        }
        self.find_pair(by, c, 0)
    }

    fn find_with_first(&self, by: Rule, row: Row, t: usize) -> Option<Ground>
        requires { PlaceSearched self.now by row t }
        ensures { Finds self.now (ByFirst by (row.first * self.now.width + t)) result }
    {
        if by.uses_second() {
            return self.find_with_two(by, row, t);
        }
        self.find_with_one(by, row, t)
    }

    // A ground by one rule with its row. The first parent's place has no bit besides the line's and those that the rule removes.
    pub(crate) fn find_by(&self, by: Rule, row: Row) -> Option<Ground>
        requires { RowSearched self.now by row }
        ensures { Finds self.now (ByRule by) result }
    {
        let mask = self.place | row.removed;
        // No iterator: its struct, its `next` and the laws of its runs would be longer than the two loops that walk so.
        let mut t = 0;
        while t < self.width {
            if let Some(ground) = self.find_with_first(by, row, t) {
                return Some(ground);
            }
            t = next_within(t, mask, self.width);
        }
        None
    }
}
