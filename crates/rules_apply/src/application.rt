// Any rule applied to lines.
ghost use Rattle.std.specs.Prelude.{◌≡◌};
ghost use Rattle.plan.specs.Layout.{plan_of};
ghost use Rattle.rules_apply.specs.Applying.{applied, gives_line_of};
ghost use Rattle.rules_apply.specs.Applicable.{Applicable};

use crate::propagation::{apply_edge, apply_lower, apply_upper};
use crate::removal::{apply_letter, apply_literal, apply_own_literal};
use rules::{Line, Rule};

// The line that a rule with its row gives from two lines, or nothing. A rule of one parent ignores the second.
pub fn apply(
    plan: &[u8],
    marks: &[u8; 256],
    horizon: u64,
    by: Rule,
    first: Line,
    second: Line,
) -> Option<Line>
    requires { Applicable plan.now marks.now horizon by first second }
    ensures { result ≡ applied (plan_of plan.now) by first second }
{
    match by {
        Rule::Propagation(e) => apply_edge(plan, marks, horizon, e, first),
        Rule::LowerCase(i) => apply_lower(plan, marks, i, first),
        Rule::UpperCase(i) => apply_upper(plan, marks, i, first),
        Rule::LetterRemoval(i) => apply_letter(plan, i, first, second),
        Rule::OwnLiteral(j) => apply_own_literal(plan, j, first),
        Rule::LiteralRemoval(j) => apply_literal(plan, j, first, second),
    }
}

// Whether the rule gives just this line from two.
pub fn gives_line(
    plan: &[u8],
    marks: &[u8; 256],
    horizon: u64,
    by: Rule,
    first: Line,
    second: Line,
    line: Line,
) -> bool
    requires { Applicable plan.now marks.now horizon by first second }
    ensures { result ≡ gives_line_of (plan_of plan.now) by first second line }
{
    apply(plan, marks, horizon, by, first, second) == Some(line)
}
