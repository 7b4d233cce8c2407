// The C call of the listing.
ghost use Rattle.std.specs.Prelude.{◌≡◌};
ghost use Rattle.plan.specs.Moments.{SameLength, moments};
ghost use Rattle.rounds_making.specs.Outcomes.{outcome_of_check};
ghost use Rattle.listing.specs.ListOutcomes.{answer_of, length_of};
ghost use Rattle.interface.specs.Codes.{length_into};
ghost use Rattle.interface.specs.Calls.{AfterListCall};

use crate::answers::{code, put_count, put_number};
use listing::{Listed, list};
use plan::Refusal;
use rounds::Answer;

// The listing answers as the check does.
fn answer(listed: Result<Listed, Refusal>) -> Result<Answer, Refusal>
    ensures { outcome_of_check result ≡ answer_of listed }
{
    match listed {
        Ok(Listed::Kept(r)) => Ok(Answer::Kept(r)),
        Ok(Listed::Broken(r, _)) => Ok(Answer::Broken(r)),
        Ok(Listed::Spent(r)) => Ok(Answer::Spent(r)),
        Err(refusal) => Err(refusal),
    }
}

fn put_length(numbers: &mut [u64], listed: Result<Listed, Refusal>)
    ensures numbers_value { numbers.new ≡ length_into (answer_of listed) (length_of listed) numbers.old }
    ensures same_length { SameLength numbers }
{
    match listed {
        Ok(Listed::Kept(_)) => {}
        Ok(Listed::Broken(_, bytes)) => put_number(numbers, 1, bytes as u64),
        Ok(Listed::Spent(_)) => {}
        Err(_) => {}
    }
}

// The listing: the answer's code, in numbers[0] the count, and in numbers[1] the listing's length in bytes.
#[unsafe(no_mangle)]
pub extern "C" fn sulgrach_list(
    plan: &[u8],
    first: &mut [u32],
    second: &mut [u32],
    limit: u64,
    index: &mut [u16],
    out: &mut [u8],
    numbers: &mut [u64],
) -> u32
    ensures { AfterListCall plan.now limit (moments first) (moments second) (moments index) (moments out) (moments numbers) result }
{
    let listed = list(plan, first, second, limit, index, out);
    let answered = answer(listed);
    put_count(numbers, answered);
    put_length(numbers, listed);
    code(answered)
}
