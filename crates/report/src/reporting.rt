// What the program prints for its input.
ghost use Rattle.plan.specs.Moments.{moments};
ghost use Rattle.plan.specs.Layout.{plan_of};
ghost use Rattle.rounds_making.specs.Outcomes.{outcome_of_check};
ghost use Rattle.text.specs.Buffer.{Puts};
ghost use Rattle.report.specs.Text.{text_of};
ghost use Rattle.report.specs.AfterReport.{AfterReport};
ghost use Rattle.report.specs.Printable.{Printable};

use crate::lines::{put_answer, put_points, put_refusal};
use plan::{MOST_BYTES, Refusal, points, width};
use rounds::{Answer, SERVING_LIMIT, check};
use text::TextBuffer;

// The text of what the check answers and leaves in the first table.
fn put_text(text: &mut TextBuffer, input: &[u8], table: &[u32], answered: Result<Answer, Refusal>)
    requires { Printable input.now (outcome_of_check answered) table.now text.old }
    ensures { Puts (text_of (outcome_of_check answered) (plan_of input.now) table.now) text.old text.new }
{
    match answered {
        Ok(answer) => {
            put_answer(text, answer);
            put_points(text, table, width(input), points(input));
        }
        Err(refusal) => put_refusal(text, refusal),
    }
}

// The text's length; it is longer than the output exactly where the output was too short for the text.
pub fn report(input: &[u8], first: &mut [u32], second: &mut [u32], out: &mut [u8]) -> usize
    ensures { AfterReport input.now (moments first) (moments second) (moments out) result }
{
    let mut text = TextBuffer::new(out);
    if MOST_BYTES < input.len() {
        put_refusal(&mut text, Refusal::Length);
        return text.length();
    }
    let answered = check(input, first, second, SERVING_LIMIT);
    put_text(&mut text, input, first, answered);
    text.length()
}
