// Filling one point's part, which holds the point's cells, from the cells that the last round raised, row by row.
ghost use Rattle.std.specs.Prelude.{◌≡◌, ◌+◌, ◌*◌, ◌<◌, eqb};
ghost use Rattle.plan.specs.Moments.{SameLength};
ghost use Rattle.plan.specs.Layout.{plan_of};
ghost use Rattle.rules.specs.declared.Edge.TheVariants as edge;
ghost use Rattle.rules_fill.specs.Steps as steps;
ghost use Rattle.rules_fill.specs.Shapes as shapes;
ghost use Rattle.rules_fill.specs.Parts.{next_part};
ghost use Rattle.rules_listed.specs.Notes.{Noted};
ghost use Rattle.rules_listed.specs.Parts.{SamePart};
ghost use Rattle.rules_refill.specs.Lent.{RefillLent, RefillOver};
ghost use Rattle.rules_refill.specs.Removals as removals;

use plan::{links, points, propositions};
use rules_dense::remove_row;
use rules_fill::{Propagator, Remover, digit_mask};
use rules_listed::{Part, Table};
use rules_rows::Rows;

// What a round is made from: a plan and its number of points, the marks, a horizon no shorter than the plan's own, the plan's rows, the bits of a label,
// and the table.
#[derive(Clone, Copy)]
pub struct Refill<'a> {
    pub plan: &'a [u8],
    pub points: usize,
    pub marks: &'a [u8; 256],
    pub horizon: u64,
    pub rows: &'a Rows<'a>,
    pub mask: usize,
    pub table: Table<'a>,
    ghost lent: { RefillOver plan.now points marks.now horizon rows.now mask table },
}

impl<'a> Refill<'a> {
    ghost use Rattle.rules_refill.specs.Refills.{whole, waits, PartIn, PartLent, RowIn, OverIn, MadeRefill};

    pub fn new(
        plan: &'a [u8],
        marks: &'a [u8; 256],
        horizon: u64,
        first: &'a [u32],
        lists: &'a [u16],
        counts: &'a [usize],
        rows: &'a Rows<'a>,
        width: usize,
        mask: usize,
    ) -> Refill<'a>
        requires { RefillLent plan.now marks.now horizon first.now lists.now counts.now rows.now width mask 0 }
        ensures { MadeRefill plan.now horizon first.now lists.now counts.now width result }
    {
        let table = Table {
            first,
            lists,
            counts,
            width,
        };
        Refill {
            plan,
            points: points(plan),
            marks,
            horizon,
            rows,
            mask,
            table,
        }
    }

    // Rules 1 to 3 of a row of the part's point.
    fn propagate_row(&self, by: Propagator, part: &mut Part)
        requires part_of { PartIn self.now part.old }
        requires row_of { RowIn self.now part.old.point by }
        ensures cells_value { part.new.cells.now ≡ shapes.propagate_in self.now.table.width (waits self.now) self.now.mask by.from by.avoid by.add by.up by.down part.old.cells.now }
        ensures same_part { SamePart part.old part.new }
    {
        let n = self.table.counts[2 * by.from];
        self.table
            .propagate_raised(n, self.marks, self.mask, by, part);
    }

    // Rule 1 of plan edge i, which starts at the part's point.
    fn edge_in(&self, i: usize, part: &mut Part)
        requires part_of { PartIn self.now part.old }
        requires i_bound { (i < (whole self.now).edges) × ((whole self.now).from i ≡ part.old.point) }
        ensures cells_value { part.new.cells.now ≡ shapes.edge_in_step (whole self.now) (waits self.now) (edge.PlanEdge i) part.old.cells.now }
        ensures same_part { SamePart part.old part.new }
    {
        self.propagate_row(self.rows.edge_row(i), part);
    }

    // Rule 1 of the plan edges that start at the part's point, from each to the next of them.
    fn fill_edges(&self, part: &mut Part)
        requires part_of { PartIn self.now part.old }
        ensures cells_value { part.new.cells.now ≡ shapes.fill_edges (whole self.now) (waits self.now) part.old.point part.old.cells.now }
        ensures same_part { SamePart part.old part.new }
    {
        let mut at = self.rows.first_edge(part.point);
        while let Some(i) = at {
            self.edge_in(i, part);
            at = self.rows.next_edge(i);
        }
    }

    // Rule 1 of the horizon edge to y, at the first alarm.
    fn horizon_edge_in(&self, y: usize, part: &mut Part)
        requires part_of { PartIn self.now part.old }
        requires point_value { (part.old.point ≡ 0) × (0 < y) × (y < self.now.points) }
        ensures cells_value { part.new.cells.now ≡ shapes.edge_in_step (whole self.now) (waits self.now) (edge.HorizonEdge y) part.old.cells.now }
        ensures same_part { SamePart part.old part.new }
    {
        self.propagate_row(self.rows.horizon_row(self.horizon, y), part);
    }

    fn fill_horizon(&self, part: &mut Part)
        requires part_of { PartIn self.now part.old }
        requires point_value { part.old.point ≡ 0 }
        ensures cells_value { part.new.cells.now ≡ shapes.fill_horizon (whole self.now) (waits self.now) part.old.cells.now }
        ensures same_part { SamePart part.old part.new }
    {
        for y in 1..self.points {
            self.horizon_edge_in(y, part);
        }
    }

    // Rule 1 of the horizon edges, which start at the first alarm: they give nothing unless a raised cell is over the horizon.
    fn horizon_at(&self, over: bool, part: &mut Part)
        requires part_of { PartIn self.now part.old }
        requires none_over { OverIn self.now over }
        ensures cells_value { part.new.cells.now ≡ steps.when (eqb part.old.point 0) (shapes.fill_horizon (whole self.now) (waits self.now)) part.old.cells.now }
        ensures same_part { SamePart part.old part.new }
    {
        if part.point != 0 {
            return;
        }
        if over {
            self.fill_horizon(part);
        }
    }

    // Rule 2 of link i, whose activation is the part's point.
    fn lower_in(&self, i: usize, part: &mut Part)
        requires part_of { PartIn self.now part.old }
        requires i_bound { (i < (whole self.now).links) × ((whole self.now).activation i ≡ part.old.point) }
        ensures cells_value { part.new.cells.now ≡ shapes.lower_in (whole self.now) (waits self.now) i part.old.cells.now }
        ensures same_part { SamePart part.old part.new }
    {
        self.propagate_row(self.rows.lower_row(i), part);
    }

    // Rule 1 of its upper bound.
    fn upper_bound_in(&self, i: usize, part: &mut Part)
        requires part_of { PartIn self.now part.old }
        requires i_bound { (i < (whole self.now).links) × ((whole self.now).activation i ≡ part.old.point) }
        ensures cells_value { part.new.cells.now ≡ shapes.edge_in_step (whole self.now) (waits self.now) (edge.UpperBound i) part.old.cells.now }
        ensures same_part { SamePart part.old part.new }
    {
        self.propagate_row(self.rows.upper_bound_row(i), part);
    }

    // Rule 3 of link i, whose end is the part's point.
    fn upper_in(&self, i: usize, part: &mut Part)
        requires part_of { PartIn self.now part.old }
        requires i_bound { (i < (whole self.now).links) × ((whole self.now).finish i ≡ part.old.point) }
        ensures cells_value { part.new.cells.now ≡ shapes.upper_in (whole self.now) (waits self.now) i part.old.cells.now }
        ensures same_part { SamePart part.old part.new }
    {
        self.propagate_row(self.rows.upper_row(i), part);
    }

    // Rule 1 of its lower bound.
    fn lower_bound_in(&self, i: usize, part: &mut Part)
        requires part_of { PartIn self.now part.old }
        requires i_bound { (i < (whole self.now).links) × ((whole self.now).finish i ≡ part.old.point) }
        ensures cells_value { part.new.cells.now ≡ shapes.edge_in_step (whole self.now) (waits self.now) (edge.LowerBound i) part.old.cells.now }
        ensures same_part { SamePart part.old part.new }
    {
        self.propagate_row(self.rows.lower_bound_row(i), part);
    }

    // Rule 2 of link i and rule 1 of its upper bound, if its activation is the part's point.
    fn activation_in(&self, i: usize, part: &mut Part)
        requires part_of { PartIn self.now part.old }
        requires i_bound { i < (whole self.now).links }
        ensures cells_value { part.new.cells.now ≡ shapes.fill_activation (whole self.now) (waits self.now) part.old.point i part.old.cells.now }
        ensures same_part { SamePart part.old part.new }
    {
        if self.rows.activation(i) != part.point {
            return;
        }
        self.lower_in(i, part);
        self.upper_bound_in(i, part);
    }

    // Rule 3 of link i and rule 1 of its lower bound, if its end is the part's point.
    fn finish_in(&self, i: usize, part: &mut Part)
        requires part_of { PartIn self.now part.old }
        requires i_bound { i < (whole self.now).links }
        ensures cells_value { part.new.cells.now ≡ shapes.fill_finish (whole self.now) (waits self.now) part.old.point i part.old.cells.now }
        ensures same_part { SamePart part.old part.new }
    {
        if self.rows.finish(i) != part.point {
            return;
        }
        self.upper_in(i, part);
        self.lower_bound_in(i, part);
    }

    // Rules 2 and 3 of link i, and rule 1 of its two edges.
    fn link_in(&self, i: usize, part: &mut Part)
        requires part_of { PartIn self.now part.old }
        requires i_bound { i < (whole self.now).links }
        ensures cells_value { part.new.cells.now ≡ removals.link_in (whole self.now) (waits self.now) part.old.point i part.old.cells.now }
        ensures same_part { SamePart part.old part.new }
    {
        self.activation_in(i, part);
        self.finish_in(i, part);
    }

    // Rule 5 of proposition j, if its observing point is the part's.
    fn own_literal_in(&self, j: usize, part: &mut Part)
        requires part_of { PartIn self.now part.old }
        requires j_bound { j < (whole self.now).propositions }
        ensures cells_value { part.new.cells.now ≡ shapes.fill_own_literal (whole self.now) (waits self.now) part.old.point j part.old.cells.now }
        ensures same_part { SamePart part.old part.new }
    {
        if self.rows.observer(j) != part.point {
            return;
        }
        let n = self.table.counts[2 * part.point];
        self.table.clear_raised(n, digit_mask(j), part);
    }

    // The rules of one parent of a link r, or of a proposition r less the links: numbered so, both have one row of rule 4 or 6.
    fn single_in(&self, r: usize, part: &mut Part)
        requires part_of { PartIn self.now part.old }
        requires r_bound { r < (whole self.now).links + (whole self.now).propositions }
        ensures cells_value { part.new.cells.now ≡ removals.single_in (whole self.now) (waits self.now) part.old.point r part.old.cells.now }
        ensures same_part { SamePart part.old part.new }
    {
        let k = links(self.plan);
        if r < k {
            self.link_in(r, part);
        } else {
            self.own_literal_in(r - k, part);
        }
    }

    // Removal r at the part's point. Where its starting line is its only line, none has a bit to remove.
    fn removal_in(&self, r: usize, part: &mut Part)
        requires part_of { PartIn self.now part.old }
        requires r_bound { r < (whole self.now).links + (whole self.now).propositions }
        ensures cells_value { part.new.cells.now ≡ removals.removal_in (whole self.now) (waits self.now) part.old.point r part.old.cells.now }
        ensures same_part { SamePart part.old part.new }
    {
        if self.table.lines(part.point).len() < 2 {
            return;
        }
        let by = removal_row(self.plan, self.rows, r);
        remove_row(&self.table, by, part);
    }

    // Rules 2 to 6 of the links, then of the propositions.
    fn fill_removals(&self, part: &mut Part)
        requires part_of { PartIn self.now part.old }
        ensures cells_value { part.new.cells.now ≡ removals.fill_removals (whole self.now) (waits self.now) part.old.point part.old.cells.now }
        ensures same_part { SamePart part.old part.new }
    {
        for r in 0..links(self.plan) + propositions(self.plan) {
            self.single_in(r, part);
            self.removal_in(r, part);
        }
    }

    // The part of the next table that belongs to point x, from the raised cells; it has the point's cells before. What lies past it is untouched.
    // Gives the number of its cells that are above the table's; their places are noted.
    pub fn refill_point(&self, x: usize, over: bool, part: &mut [u32], notes: &mut [u16]) -> usize
        requires part_lent { PartLent self.now x part.old notes.old }
        requires none_over { OverIn self.now over }
        ensures part_value { part.new ≡ next_part (whole self.now) x (waits self.now) part.old }
        ensures noted { Noted self.now.table.width (waits self.now) (x * self.now.table.width) part.new notes.new result }
        ensures same_length { SameLength part × SameLength notes }
    {
        let mut filled = Part::new(&self.table, x, part, notes);
        self.fill_edges(&mut filled);
        self.horizon_at(over, &mut filled);
        self.fill_removals(&mut filled);
        filled.count
    }
}

// The row of rule 4 of link r, or of rule 6 of proposition r less the links.
fn removal_row(plan: &[u8], rows: &Rows, r: usize) -> Remover
    requires rows_are { rows.now.plan.now ≡ plan.now }
    requires r_bound { r < (plan_of plan.now).links + (plan_of plan.now).propositions }
    ensures { removals.RemovalRow (plan_of plan.now) r result }
{
    let k = links(plan);
    if r < k {
        return rows.letter_row(r);
    }
    rows.literal_row(r - k)
}
