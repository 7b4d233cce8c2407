// Rules 1 to 3, each applied to a line.
ghost use Rattle.std.specs.Prelude.{◌≡◌, ◌<◌};
ghost use Rattle.plan.specs.Label.{Marks};
ghost use Rattle.plan.specs.Layout.{plan_of};
ghost use Rattle.rules.specs.declared.Rule.TheVariants as rule;
ghost use Rattle.rules_apply.specs.Applying.{applied};
ghost use Rattle.rules_apply.specs.Applicable.{Along, InByte, Applicable};

use crate::sets::{contains, insert};
use plan::{is_plain, join, link_activation, link_finish, link_least, link_most};
use rules::{Constraint, Edge, Line, constraint_of};

// Rule 1 along an edge that says this.
fn along(marks: &[u8; 256], edge: Constraint, l: Line) -> Option<Line>
    requires { Marks marks.now × (edge.label < 256) × (l.label < 256) × (l.wait < 4611686018427387904) × (edge.down < 65536) }
    ensures { Along edge l result }
{
    let label = join(edge.label, l.label);
    let wait = (l.wait + edge.down).saturating_sub(edge.up);
    let fires = l.point == edge.to
        && is_plain(marks, l.label)
        && is_plain(marks, label)
        && wait > 0;
    fires.then_some(Line {
        point: edge.from,
        label,
        wait,
        ..l
    })
}

pub fn apply_edge(plan: &[u8], marks: &[u8; 256], horizon: u64, e: Edge, l: Line) -> Option<Line>
    requires { Applicable plan.now marks.now horizon (rule.Propagation e) l l }
    ensures { result ≡ applied (plan_of plan.now) (rule.Propagation e) l l }
{
    along(marks, constraint_of(plan, horizon, e), l)
}

pub fn apply_lower(plan: &[u8], marks: &[u8; 256], i: usize, finish: Line) -> Option<Line>
    requires { Marks marks.now × (i < 4) × InByte (plan_of plan.now) finish }
    ensures { result ≡ applied (plan_of plan.now) (rule.LowerCase i) finish finish }
{
    let wait = finish.wait.saturating_sub(link_least(plan, i));
    let fires = finish.point == link_finish(plan, i)
        && !contains(finish.set, i)
        && is_plain(marks, finish.label)
        && wait > 0;
    fires.then_some(Line {
        point: link_activation(plan, i),
        wait,
        ..finish
    })
}

pub fn apply_upper(plan: &[u8], marks: &[u8; 256], i: usize, activation: Line) -> Option<Line>
    requires { Marks marks.now × (i < 4) × InByte (plan_of plan.now) activation }
    ensures { result ≡ applied (plan_of plan.now) (rule.UpperCase i) activation activation }
{
    let fires = activation.point == link_activation(plan, i) && is_plain(marks, activation.label);
    fires.then_some(Line {
        point: link_finish(plan, i),
        set: insert(activation.set, i),
        wait: activation.wait + link_most(plan, i),
        ..activation
    })
}
