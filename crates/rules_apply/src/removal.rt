// Rules 4 to 6, each applied to lines: a link or a proposition is removed.
ghost use Rattle.std.specs.Prelude.{◌≡◌, ◌<◌};
ghost use Rattle.plan.specs.Layout.{plan_of};
ghost use Rattle.rules.specs.declared.Rule.TheVariants as rule;
ghost use Rattle.rules_apply.specs.Applying.{applied};
ghost use Rattle.rules_apply.specs.Applicable.{InLabels, InByte};

use crate::sets::{contains, remove, union};
use plan::{clear_digit, digit, join, link_activation, link_least, observer};
use rules::Line;

pub fn apply_letter(plan: &[u8], i: usize, l: Line, activation: Line) -> Option<Line>
    requires { (i < 4) × InLabels (plan_of plan.now) l × InLabels (plan_of plan.now) activation }
    ensures { result ≡ applied (plan_of plan.now) (rule.LetterRemoval i) l activation }
{
    let fires = contains(l.set, i)
        && activation.point == link_activation(plan, i)
        && !contains(activation.set, i);
    fires.then_some(Line {
        point: l.point,
        set: union(remove(l.set, i), activation.set),
        label: join(l.label, activation.label),
        wait: l.wait.min(activation.wait + link_least(plan, i)),
    })
}

pub fn apply_own_literal(plan: &[u8], j: usize, own: Line) -> Option<Line>
    requires { (j < 4) × InByte (plan_of plan.now) own }
    ensures { result ≡ applied (plan_of plan.now) (rule.OwnLiteral j) own own }
{
    let fires = own.point == observer(plan, j) && digit(own.label, j) != 0 && own.wait > 0;
    fires.then_some(Line {
        label: clear_digit(own.label, j),
        ..own
    })
}

pub fn apply_literal(plan: &[u8], j: usize, l: Line, observing: Line) -> Option<Line>
    requires { (j < 4) × InByte (plan_of plan.now) l × InLabels (plan_of plan.now) observing }
    ensures { result ≡ applied (plan_of plan.now) (rule.LiteralRemoval j) l observing }
{
    let fires = digit(l.label, j) != 0
        && observing.point == observer(plan, j)
        && digit(observing.label, j) == 0
        && observing.wait > 0;
    fires.then_some(Line {
        point: l.point,
        set: union(l.set, observing.set),
        label: join(clear_digit(l.label, j), observing.label),
        wait: l.wait.min(observing.wait),
    })
}
