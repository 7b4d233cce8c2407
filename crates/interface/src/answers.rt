// An answer as a code, and its numbers in a lent slice.
ghost use Rattle.std.specs.Prelude.{◌≡◌, ◌+◌, set};
ghost use Rattle.plan.specs.Moments.{SameLength};
ghost use Rattle.plan.specs.Numbers.{number_of};
ghost use Rattle.rounds_making.specs.Outcomes.{outcome_of_check};
ghost use Rattle.interface.specs.Codes.{code_of, count_into, result_code, result_numbers};

use plan::Refusal;
use rounds::Answer;

fn refusal_code(refusal: Refusal) -> u32
    ensures { result ≡ 100 + number_of refusal }
{
    100 + u32::from(refusal)
}

pub fn code(answered: Result<Answer, Refusal>) -> u32
    ensures { result ≡ code_of (outcome_of_check answered) }
{
    match answered {
        Ok(Answer::Kept(_)) => 0,
        Ok(Answer::Broken(_)) => 1,
        Ok(Answer::Spent(_)) => 2,
        Err(refusal) => refusal_code(refusal),
    }
}

// The code of a call that answers a number or a refusal.
pub fn result_code(answered: Result<usize, Refusal>) -> u32
    ensures { result ≡ result_code answered }
{
    match answered {
        Ok(_) => 0,
        Err(refusal) => refusal_code(refusal),
    }
}

// A number that has no entry is left out.
pub fn put_number(numbers: &mut [u64], place: usize, value: u64)
    ensures numbers_value { numbers.new ≡ set numbers.old place value }
    ensures same_length { SameLength numbers }
{
    if place < numbers.len() {
        numbers[place] = value;
    }
}

pub fn put_count(numbers: &mut [u64], answered: Result<Answer, Refusal>)
    ensures numbers_value { numbers.new ≡ count_into (outcome_of_check answered) numbers.old }
    ensures same_length { SameLength numbers }
{
    match answered {
        Ok(Answer::Kept(r)) => put_number(numbers, 0, r),
        Ok(Answer::Broken(r)) => put_number(numbers, 0, r),
        Ok(Answer::Spent(r)) => put_number(numbers, 0, r),
        Err(_) => {}
    }
}

// The number that such a call answers.
pub fn put_result(numbers: &mut [u64], answered: Result<usize, Refusal>)
    ensures numbers_value { numbers.new ≡ result_numbers answered numbers.old }
    ensures same_length { SameLength numbers }
{
    if let Ok(n) = answered {
        put_number(numbers, 0, n as u64);
    }
}
