// The shapes of a plan's rows: what a row avoids, adds and removes, as bits of a place.
ghost use Rattle.std.specs.Prelude.{◌≡◌, ◌^◌, ◌<◌};
ghost use Rattle.plan.specs.Layout.{plan_of};
ghost use Rattle.plan.specs.Horizons.{plan_with};
ghost use Rattle.plan.specs.Refusal.{Accepted};
ghost use Rattle.rules.specs.Derivations.{InPlan};
ghost use Rattle.rules.specs.declared.Rule.TheVariants as rule;
ghost use Rattle.rules_fill.specs.Shapes as shapes;
ghost use Rattle.rules_fill.specs.Rows.{EdgeRow, LowerRow, UpperRow, LetterRow, LiteralRow};

use crate::shapes::{Propagator, Remover};
use plan::{labels, link_activation, link_finish, link_least, link_most, observer, propositions};
use rules::{Edge, constraint_of};

// The bits of a label.
pub fn label_mask(plan: &[u8]) -> usize
    requires { Accepted plan.now }
    ensures { (result ≡ shapes.label_mask (plan_of plan.now).propositions) × (result < 256) }
{
    labels(plan) - 1
}

pub fn link_bit(plan: &[u8], i: usize) -> usize
    requires { Accepted plan.now × (i < (plan_of plan.now).links) }
    ensures { result ≡ shapes.link_bit (plan_of plan.now).propositions i }
{
    1 << (2 * propositions(plan) + i)
}

pub fn digit_mask(j: usize) -> usize
    requires { j < 4 }
    ensures { result ≡ shapes.digit_mask j }
{
    3 << (2 * j)
}

// The lower of a digit's two bits.
pub fn digit_bit(j: usize) -> usize
    requires { j < 4 }
    ensures { result ≡ 4 ^ j }
{
    1 << (2 * j)
}

// Rule 1 of an edge.
pub fn edge_row(plan: &[u8], horizon: u64, e: Edge) -> Propagator
    requires { Accepted plan.now × InPlan (plan_of plan.now) (rule.Propagation e) }
    ensures { EdgeRow (plan_with plan.now horizon) e result }
{
    let edge = constraint_of(plan, horizon, e);
    Propagator {
        from: edge.to,
        avoid: 0,
        add: edge.label,
        up: edge.up,
        down: edge.down,
    }
}

// Rule 2 of link i.
pub fn lower_row(plan: &[u8], i: usize) -> Propagator
    requires { Accepted plan.now × (i < (plan_of plan.now).links) }
    ensures { LowerRow (plan_of plan.now) i result }
{
    let bit = link_bit(plan, i);
    Propagator {
        from: link_finish(plan, i),
        avoid: bit,
        add: 0,
        up: link_least(plan, i),
        down: 0,
    }
}

// Rule 3 of link i.
pub fn upper_row(plan: &[u8], i: usize) -> Propagator
    requires { Accepted plan.now × (i < (plan_of plan.now).links) }
    ensures { UpperRow (plan_of plan.now) i result }
{
    let bit = link_bit(plan, i);
    Propagator {
        from: link_activation(plan, i),
        avoid: 0, // the link may be in the set already
        add: bit,
        up: 0,
        down: link_most(plan, i),
    }
}

// Rule 4 of link i.
pub fn letter_row(plan: &[u8], i: usize) -> Remover
    requires { Accepted plan.now × (i < (plan_of plan.now).links) }
    ensures { LetterRow (plan_of plan.now) i result }
{
    let bit = link_bit(plan, i);
    let least = link_least(plan, i);
    Remover {
        other: link_activation(plan, i),
        mask: bit,
        low: bit,
        add: least,
    }
}

// Rule 6 of proposition j. Nothing is added, so a starting line of the observing point gives wait 0, which is nothing.
pub fn literal_row(plan: &[u8], j: usize) -> Remover
    requires { Accepted plan.now × (j < (plan_of plan.now).propositions) }
    ensures { LiteralRow (plan_of plan.now) j result }
{
    Remover {
        other: observer(plan, j),
        mask: digit_mask(j),
        low: digit_bit(j),
        add: 0,
    }
}
