// A rule's row: the points of its parents, the bits that it removes and its weight.
ghost use Rattle.std.specs.Prelude.{◌≡◌, ◌<◌};
ghost use Rattle.plan.specs.Layout.{plan_of};
ghost use Rattle.plan.specs.Refusal.{Accepted};
ghost use Rattle.rules.specs.Derivations.{InPlan};
ghost use Rattle.rules.specs.declared.Rule.TheVariants as rule;
ghost use Rattle.rules_ground.specs.Rows.{RowOf};

use crate::Row;
use plan::{link_activation, link_finish, link_least, link_most, observer};
use rules::{Edge, constraint_of};
use rules_fill::{digit_mask, link_bit};

pub fn edge_row(plan: &[u8], horizon: u64, e: Edge) -> Row
    requires { Accepted plan.now × InPlan (plan_of plan.now) (rule.Propagation e) × (horizon ≡ (plan_of plan.now).horizon) }
    ensures { RowOf (plan_of plan.now) (rule.Propagation e) result }
{
    let edge = constraint_of(plan, horizon, e);
    Row {
        first: edge.to,
        second: 0,
        removed: 0,
        up: edge.up,
        down: edge.down,
    }
}

pub fn lower_row(plan: &[u8], i: usize) -> Row
    requires { i < 256 }
    ensures { RowOf (plan_of plan.now) (rule.LowerCase i) result }
{
    Row {
        first: link_finish(plan, i),
        second: 0,
        removed: 0,
        up: link_least(plan, i),
        down: 0,
    }
}

pub fn upper_row(plan: &[u8], i: usize) -> Row
    requires { i < 256 }
    ensures { RowOf (plan_of plan.now) (rule.UpperCase i) result }
{
    Row {
        first: link_activation(plan, i),
        second: 0,
        removed: 0,
        up: 0,
        down: link_most(plan, i),
    }
}

// Rules 4 to 6 give a line of their first parent's point x.
pub fn letter_row(plan: &[u8], i: usize, x: usize) -> Row
    requires { Accepted plan.now × (i < (plan_of plan.now).links) }
    ensures { RowOf (plan_of plan.now) (rule.LetterRemoval i) result × (result.first ≡ x) }
{
    Row {
        first: x,
        second: link_activation(plan, i),
        removed: link_bit(plan, i),
        up: 0,
        down: link_least(plan, i),
    }
}

pub fn own_row(plan: &[u8], j: usize, x: usize) -> Row
    requires { j < 4 }
    ensures { RowOf (plan_of plan.now) (rule.OwnLiteral j) result × (result.first ≡ x) }
{
    Row {
        first: x,
        second: 0,
        removed: digit_mask(j),
        up: 0,
        down: 0,
    }
}

pub fn literal_row(plan: &[u8], j: usize, x: usize) -> Row
    requires { j < 4 }
    ensures { RowOf (plan_of plan.now) (rule.LiteralRemoval j) result × (result.first ≡ x) }
{
    Row {
        first: x,
        second: observer(plan, j),
        removed: digit_mask(j),
        up: 0,
        down: 0,
    }
}
