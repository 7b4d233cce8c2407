// Filling one point's part of the second table, row by row.
ghost use Rattle.std.specs.Prelude.{◌≡◌, ◌<◌, eqb};
ghost use Rattle.plan.specs.Moments.{SameLength};
ghost use Rattle.plan.specs.Layout.{plan_of};
ghost use Rattle.plan.specs.Horizons.{plan_with};
ghost use Rattle.rules.specs.Derivations.{InPlan};
ghost use Rattle.rules.specs.declared.Rule.TheVariants as rule;
ghost use Rattle.rules_fill.specs.Steps as steps;
ghost use Rattle.rules_fill.specs.Shapes as shapes;
ghost use Rattle.rules_fill.specs.Parts.{next_part};
ghost use Rattle.rules_fill.specs.Lent.{FillLent};
ghost use Rattle.rules_fill.specs.Filling.{RowsLent, RemovalLent};

use crate::cells::{clear_in, copy_cells, propagate_in, remove_in};
use crate::rows::{
    digit_mask, edge_row, label_mask, letter_row, literal_row, lower_row, upper_row,
};
use plan::{
    EdgeRows, edges, link_activation, link_finish, links, observer, points, propositions,
    width as point_width,
};
use rules::Edge;

// Rule 1 of an edge that starts at the part's point.
fn edge_in(
    plan: &[u8],
    marks: &[u8; 256],
    horizon: u64,
    first: &[u32],
    part: &mut [u32],
    width: usize,
    mask: usize,
    e: Edge,
)
    requires rows_lent { RowsLent plan.now marks.now first.now part.old width mask }
    requires in_plan { InPlan (plan_of plan.now) (rule.Propagation e) }
    ensures part_value { part.new ≡ shapes.edge_in_step (plan_with plan.now horizon) first.now e part.old }
    ensures same_length { SameLength part }
{
    let by = edge_row(plan, horizon, e);
    propagate_in(marks, first, part, width, mask, by);
}

// Rule 1 of plan edge i, if it starts at x.
fn plan_edge_in(
    plan: &[u8],
    marks: &[u8; 256],
    horizon: u64,
    first: &[u32],
    part: &mut [u32],
    width: usize,
    mask: usize,
    x: usize,
    rows: &EdgeRows,
    i: usize,
)
    requires rows_lent { RowsLent plan.now marks.now first.now part.old width mask }
    requires rows_of { rows.now.plan.now ≡ plan.now }
    requires i_bound { i < (plan_of plan.now).edges }
    ensures part_value { part.new ≡ shapes.fill_edge (plan_with plan.now horizon) first.now x i part.old }
    ensures same_length { SameLength part }
{
    if rows.from(i) != x {
        return;
    }
    let e = Edge::PlanEdge(i);
    edge_in(plan, marks, horizon, first, part, width, mask, e);
}

fn fill_edges(
    plan: &[u8],
    marks: &[u8; 256],
    horizon: u64,
    first: &[u32],
    part: &mut [u32],
    width: usize,
    mask: usize,
    x: usize,
)
    requires { RowsLent plan.now marks.now first.now part.old width mask }
    ensures part_value { part.new ≡ shapes.fill_edges (plan_with plan.now horizon) first.now x part.old }
    ensures same_length { SameLength part }
{
    let n = edges(plan);
    let rows = EdgeRows::new(plan);
    for i in 0..n {
        plan_edge_in(plan, marks, horizon, first, part, width, mask, x, &rows, i);
    }
}

// Rule 1 of every horizon edge: they start at point 0.
fn fill_horizon(
    plan: &[u8],
    marks: &[u8; 256],
    horizon: u64,
    first: &[u32],
    part: &mut [u32],
    width: usize,
    mask: usize,
)
    requires { RowsLent plan.now marks.now first.now part.old width mask }
    ensures part_value { part.new ≡ shapes.fill_horizon (plan_with plan.now horizon) first.now part.old }
    ensures same_length { SameLength part }
{
    let n = points(plan);
    for y in 1..n {
        let e = Edge::HorizonEdge(y);
        edge_in(plan, marks, horizon, first, part, width, mask, e);
    }
}

fn horizon_at(
    plan: &[u8],
    marks: &[u8; 256],
    horizon: u64,
    first: &[u32],
    part: &mut [u32],
    width: usize,
    mask: usize,
    x: usize,
)
    requires { RowsLent plan.now marks.now first.now part.old width mask }
    ensures part_value { part.new ≡ steps.when (eqb x 0) (shapes.fill_horizon (plan_with plan.now horizon) first.now) part.old }
    ensures same_length { SameLength part }
{
    if x != 0 {
        return;
    }
    fill_horizon(plan, marks, horizon, first, part, width, mask);
}

// Rule 2 of link i, whose activation is the part's point.
fn lower_in(
    plan: &[u8],
    marks: &[u8; 256],
    first: &[u32],
    part: &mut [u32],
    width: usize,
    mask: usize,
    i: usize,
)
    requires { RowsLent plan.now marks.now first.now part.old width mask × (i < (plan_of plan.now).links) }
    ensures part_value { part.new ≡ shapes.lower_in (plan_of plan.now) first.now i part.old }
    ensures same_length { SameLength part }
{
    let by = lower_row(plan, i);
    propagate_in(marks, first, part, width, mask, by);
}

// Rule 3 of link i, whose end is the part's point.
fn upper_in(
    plan: &[u8],
    marks: &[u8; 256],
    first: &[u32],
    part: &mut [u32],
    width: usize,
    mask: usize,
    i: usize,
)
    requires { RowsLent plan.now marks.now first.now part.old width mask × (i < (plan_of plan.now).links) }
    ensures part_value { part.new ≡ shapes.upper_in (plan_of plan.now) first.now i part.old }
    ensures same_length { SameLength part }
{
    let by = upper_row(plan, i);
    propagate_in(marks, first, part, width, mask, by);
}

// Rule 2 of link i and rule 1 of its upper bound, if its activation is x.
fn activation_in(
    plan: &[u8],
    marks: &[u8; 256],
    horizon: u64,
    first: &[u32],
    part: &mut [u32],
    width: usize,
    mask: usize,
    x: usize,
    i: usize,
)
    requires rows_lent { RowsLent plan.now marks.now first.now part.old width mask }
    requires i_bound { i < (plan_of plan.now).links }
    ensures part_value { part.new ≡ shapes.fill_activation (plan_with plan.now horizon) first.now x i part.old }
    ensures same_length { SameLength part }
{
    if link_activation(plan, i) != x {
        return;
    }
    lower_in(plan, marks, first, part, width, mask, i);
    let upper_bound = Edge::UpperBound(i);
    edge_in(plan, marks, horizon, first, part, width, mask, upper_bound);
}

// Rule 3 of link i and rule 1 of its lower bound, if its end is x.
fn finish_in(
    plan: &[u8],
    marks: &[u8; 256],
    horizon: u64,
    first: &[u32],
    part: &mut [u32],
    width: usize,
    mask: usize,
    x: usize,
    i: usize,
)
    requires rows_lent { RowsLent plan.now marks.now first.now part.old width mask }
    requires i_bound { i < (plan_of plan.now).links }
    ensures part_value { part.new ≡ shapes.fill_finish (plan_with plan.now horizon) first.now x i part.old }
    ensures same_length { SameLength part }
{
    if link_finish(plan, i) != x {
        return;
    }
    upper_in(plan, marks, first, part, width, mask, i);
    let lower_bound = Edge::LowerBound(i);
    edge_in(plan, marks, horizon, first, part, width, mask, lower_bound);
}

// Rule 4 of link i.
fn letter_in(plan: &[u8], first: &[u32], part: &mut [u32], width: usize, x: usize, i: usize)
    requires { RemovalLent plan.now first.now part.old width x × (i < (plan_of plan.now).links) }
    ensures part_value { part.new ≡ shapes.letter_in (plan_of plan.now) first.now x i part.old }
    ensures same_length { SameLength part }
{
    let by = letter_row(plan, i);
    remove_in(first, part, width, by, x);
}

// Rules 2 to 4 of link i, and rule 1 of its two edges.
fn fill_link(
    plan: &[u8],
    marks: &[u8; 256],
    horizon: u64,
    first: &[u32],
    part: &mut [u32],
    width: usize,
    mask: usize,
    x: usize,
    i: usize,
)
    requires rows_lent { RowsLent plan.now marks.now first.now part.old width mask }
    requires i_bound { (i < (plan_of plan.now).links) × (x < (plan_of plan.now).points) }
    ensures part_value { part.new ≡ shapes.fill_link (plan_with plan.now horizon) first.now x i part.old }
    ensures same_length { SameLength part }
{
    activation_in(plan, marks, horizon, first, part, width, mask, x, i);
    finish_in(plan, marks, horizon, first, part, width, mask, x, i);
    letter_in(plan, first, part, width, x, i);
}

fn fill_links(
    plan: &[u8],
    marks: &[u8; 256],
    horizon: u64,
    first: &[u32],
    part: &mut [u32],
    width: usize,
    mask: usize,
    x: usize,
)
    requires rows_lent { RowsLent plan.now marks.now first.now part.old width mask }
    requires x_bound { x < (plan_of plan.now).points }
    ensures part_value { part.new ≡ shapes.fill_links (plan_with plan.now horizon) first.now x part.old }
    ensures same_length { SameLength part }
{
    let n = links(plan);
    for i in 0..n {
        fill_link(plan, marks, horizon, first, part, width, mask, x, i);
    }
}

// Rule 5 of proposition j, if its observing point is x.
fn own_literal_in(plan: &[u8], first: &[u32], part: &mut [u32], width: usize, x: usize, j: usize)
    requires { RemovalLent plan.now first.now part.old width x × (j < (plan_of plan.now).propositions) }
    ensures part_value { part.new ≡ shapes.fill_own_literal (plan_of plan.now) first.now x j part.old }
    ensures same_length { SameLength part }
{
    if observer(plan, j) != x {
        return;
    }
    clear_in(first, part, width, digit_mask(j), x);
}

// Rule 6 of proposition j.
fn literal_in(plan: &[u8], first: &[u32], part: &mut [u32], width: usize, x: usize, j: usize)
    requires { RemovalLent plan.now first.now part.old width x × (j < (plan_of plan.now).propositions) }
    ensures part_value { part.new ≡ shapes.literal_in (plan_of plan.now) first.now x j part.old }
    ensures same_length { SameLength part }
{
    let by = literal_row(plan, j);
    remove_in(first, part, width, by, x);
}

// Rules 5 and 6 of proposition j.
fn fill_proposition(plan: &[u8], first: &[u32], part: &mut [u32], width: usize, x: usize, j: usize)
    requires { RemovalLent plan.now first.now part.old width x × (j < (plan_of plan.now).propositions) }
    ensures part_value { part.new ≡ shapes.fill_proposition (plan_of plan.now) first.now x j part.old }
    ensures same_length { SameLength part }
{
    own_literal_in(plan, first, part, width, x, j);
    literal_in(plan, first, part, width, x, j);
}

fn fill_propositions(plan: &[u8], first: &[u32], part: &mut [u32], width: usize, x: usize)
    requires { RemovalLent plan.now first.now part.old width x }
    ensures part_value { part.new ≡ shapes.fill_propositions (plan_of plan.now) first.now x part.old }
    ensures same_length { SameLength part }
{
    let n = propositions(plan);
    for j in 0..n {
        fill_proposition(plan, first, part, width, x, j);
    }
}

// The part of the next table that belongs to point x, and which starts at part's first cell; what lies past it is untouched.
pub fn fill_point(
    plan: &[u8],
    marks: &[u8; 256],
    horizon: u64,
    first: &[u32],
    part: &mut [u32],
    x: usize,
)
    requires { FillLent plan.now marks.now horizon first.now part.old x }
    ensures part_value { part.new ≡ next_part (plan_with plan.now horizon) x first.now part.old }
    ensures same_length { SameLength part }
{
    let width = point_width(plan);
    let mask = label_mask(plan);
    let start = x * width;
    copy_cells(&first[start..], part, width);
    fill_edges(plan, marks, horizon, first, part, width, mask, x);
    horizon_at(plan, marks, horizon, first, part, width, mask, x);
    fill_links(plan, marks, horizon, first, part, width, mask, x);
    fill_propositions(plan, first, part, width, x);
}
