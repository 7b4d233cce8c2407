// The C call of the rows that break a plan.
ghost use Rattle.plan.specs.Moments.{moments};
ghost use Rattle.interface.specs.Calls.{AfterBreakingRowsCall};

use crate::answers::{put_result, result_code};
use minimal_rows::breaking_rows;

// The rows that break a plan: the answer's code, and in numbers[0] how many remain.
#[unsafe(no_mangle)]
pub extern "C" fn sulgrach_breaking_rows(
    plan: &[u8],
    first: &mut [u32],
    second: &mut [u32],
    rows: &mut [u8],
    numbers: &mut [u64],
) -> u32
    ensures { AfterBreakingRowsCall plan.now (moments first) (moments second) (moments rows) (moments numbers) result }
{
    let reduced = breaking_rows(plan, first, second, rows);
    put_result(numbers, reduced);
    result_code(reduced)
}
