// The lines of the text.
ghost use Rattle.std.specs.Prelude.{◌∷◌, ◌+◌, ◌*◌, ◌≤◌, length};
ghost use Rattle.plan.specs.Numbers.{number_of};
ghost use Rattle.rounds_making.specs.Outcomes.{outcome_of, refused};
ghost use Rattle.text.specs.Decimal.{decimal};
ghost use Rattle.text.specs.Joined.{joined};
ghost use Rattle.text.specs.Buffer.{HasRoom, Puts};
ghost use Rattle.report.specs.Text.{numbered_line, first_line, cell_text, point_line};

use plan::Refusal;
use rounds::Answer;
use text::TextBuffer;

// A word with the space after it, a number, and a newline.
fn put_numbered(text: &mut TextBuffer, word: &[u8], n: u64)
    requires { HasRoom (numbered_line word.now n) text.old }
    ensures { Puts (numbered_line word.now n) text.old text.new }
{
    text.put_bytes(word);
    text.put_decimal(n as usize);
    text.put_byte(b'\n');
}

#[tactic(auto, unfolding(crate::specs::Text::first_line))]
pub fn put_answer(text: &mut TextBuffer, answer: Answer)
    requires { HasRoom (first_line (outcome_of answer)) text.old }
    ensures { Puts (first_line (outcome_of answer)) text.old text.new }
{
    match answer {
        Answer::Kept(r) => put_numbered(text, b"kept ", r),
        Answer::Broken(r) => put_numbered(text, b"broken ", r),
        Answer::Spent(r) => put_numbered(text, b"spent ", r),
    }
}

#[tactic(auto, unfolding(crate::specs::Text::first_line))]
pub fn put_refusal(text: &mut TextBuffer, refusal: Refusal)
    requires { HasRoom (first_line (refused (number_of refusal))) text.old }
    ensures { Puts (first_line (refused (number_of refusal))) text.old text.new }
{
    put_numbered(text, b"refused ", u64::from(u32::from(refusal)));
}

// One space, and a cell.
fn put_cell(text: &mut TextBuffer, cell: u32)
    requires { HasRoom (32 ∷ decimal cell) text.old }
    ensures { Puts (32 ∷ decimal cell) text.old text.new }
{
    text.put_byte(b' ');
    text.put_decimal(cell as usize);
}

fn put_cells(text: &mut TextBuffer, cells: &[u32])
    requires { HasRoom (joined (cell_text cells.now 0) (length cells.now)) text.old }
    ensures { Puts (joined (cell_text cells.now 0) (length cells.now)) text.old text.new }
{
    for &cell in cells {
        put_cell(text, cell);
    }
}

// A point's number, its cells, and a newline.
fn put_point(text: &mut TextBuffer, table: &[u32], width: usize, x: usize)
    requires { (x * width + width ≤ length table.now) × HasRoom (point_line table.now width x) text.old }
    ensures { Puts (point_line table.now width x) text.old text.new }
{
    text.put_decimal(x);
    let start = x * width;
    put_cells(text, &table[start..start + width]);
    text.put_byte(b'\n');
}

pub fn put_points(text: &mut TextBuffer, table: &[u32], width: usize, points: usize)
    requires { (points * width ≤ length table.now) × HasRoom (joined (point_line table.now width) points) text.old }
    ensures { Puts (joined (point_line table.now width) points) text.old text.new }
{
    for x in 0..points {
        put_point(text, table, width, x);
    }
}
