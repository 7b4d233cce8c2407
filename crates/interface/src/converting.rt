// The C calls of the conversions.
ghost use Rattle.plan.specs.Moments.{moments};
ghost use Rattle.interface.specs.Calls.{AfterWithLabelsCall, AfterWithoutLabelsCall};

use crate::answers::{put_result, result_code};
use conversion::{with_labels, without_labels};

// The plan with a label 0 for each point: the answer's code, and in numbers[0] the length in bytes.
#[unsafe(no_mangle)]
pub extern "C" fn sulgrach_with_labels(plan: &[u8], out: &mut [u8], numbers: &mut [u64]) -> u32
    ensures { AfterWithLabelsCall plan.now (moments out) (moments numbers) result }
{
    let converted = with_labels(plan, out);
    put_result(numbers, converted);
    result_code(converted)
}

// The plan without labels, where all are 0: the answer's code, and in numbers[0] the length in bytes.
#[unsafe(no_mangle)]
pub extern "C" fn sulgrach_without_labels(plan: &[u8], out: &mut [u8], numbers: &mut [u64]) -> u32
    ensures { AfterWithoutLabelsCall plan.now (moments out) (moments numbers) result }
{
    let converted = without_labels(plan, out);
    put_result(numbers, converted);
    result_code(converted)
}
