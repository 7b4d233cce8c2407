// The C call of a page.
ghost use Rattle.plan.specs.Moments.{moments};
ghost use Rattle.interface.specs.Calls.{AfterPageCall};

use crate::answers::{put_result, result_code};
use page::page;

// The page: the answer's code, and in numbers[0] the page's length in bytes.
#[unsafe(no_mangle)]
pub extern "C" fn sulgrach_page(
    plan: &[u8],
    table: &[u32],
    out: &mut [u8],
    numbers: &mut [u64],
) -> u32
    ensures { AfterPageCall plan.now table.now (moments out) (moments numbers) result }
{
    let paged = page(plan, table, out);
    put_result(numbers, paged);
    result_code(paged)
}
