// The check by classes.
ghost use Rattle.plan.specs.Moments.{moments};
ghost use Rattle.rounds_making.specs.Outcomes.{outcome_of_check};
ghost use Rattle.classes.specs.Classes.{house};
ghost use Rattle.classes.specs.AfterCheckClasses.{AfterCheckClasses};

use crate::judging::class_refusal;
use plan::Refusal;
use rounds::{Answer, check};

// As the check, once 14 and 15 are out of the question; they come before 6, so the tables are looked at last.
pub fn check_classes(
    plan: &[u8],
    classes: &[u8],
    first: &mut [u32],
    second: &mut [u32],
    limit: u64,
) -> Result<Answer, Refusal>
    ensures { AfterCheckClasses house plan.now classes.now limit (moments first) (moments second) (outcome_of_check result) }
{
    class_refusal(plan, classes)?;
    check(plan, first, second, limit)
}
