// The two conversions, with their refusals.
ghost use Rattle.std.specs.Prelude.{◌≡◌};
ghost use Rattle.plan.specs.Moments.{moments};
ghost use Rattle.plan.specs.Layout.{plan_of};
ghost use Rattle.plan.specs.Numbers.{refusal_number};
ghost use Rattle.conversion.specs.Conversion.{start_refusal, unlabelled, outcome_of};
ghost use Rattle.conversion.specs.AfterConversion.{AfterWithLabels, AfterWithoutLabels};

use crate::writing::write_relabelled;
use plan::{Refusal, length_for, point_label, points};
use plan_refusal::refusal;

// The refusal of a plan, which has to have the length of the form that the conversion starts from.
fn start_refusal(plan: &[u8], end: usize) -> Result<(), Refusal>
    ensures { refusal_number result ≡ start_refusal plan.now end }
{
    let judged = refusal(plan);
    if judged != Err(Refusal::Sizes) && plan.len() != end {
        return Err(Refusal::Length);
    }
    judged
}

// Whether every label of a point is 0.
fn is_unlabelled(plan: &[u8]) -> bool
    ensures { result ≡ unlabelled (plan_of plan.now) }
{
    (0..points(plan)).all(|x| point_label(plan, x) == 0)
}

// The length of the plan with a label 0 for each point, as written; refused, nothing is touched.
pub fn with_labels(plan: &[u8], out: &mut [u8]) -> Result<usize, Refusal>
    ensures { AfterWithLabels plan.now (moments out) (outcome_of result) }
{
    start_refusal(plan, length_for(plan))?;
    let labels = points(plan);
    if out.len() < length_for(plan) + labels {
        return Err(Refusal::ShortOutput);
    }
    Ok(write_relabelled(plan, labels, out))
}

// The length of the plan without its labels, which are all 0, as written; refused, nothing is touched.
pub fn without_labels(plan: &[u8], out: &mut [u8]) -> Result<usize, Refusal>
    ensures { AfterWithoutLabels plan.now (moments out) (outcome_of result) }
{
    start_refusal(plan, length_for(plan) + points(plan))?;
    if !is_unlabelled(plan) {
        return Err(Refusal::Labelled);
    }
    if out.len() < length_for(plan) {
        return Err(Refusal::ShortOutput);
    }
    Ok(write_relabelled(plan, 0, out))
}
