// The lines of a page.
ghost use Rattle.std.specs.Prelude.{◌≤◌, ◌<◌, length, replicate};
ghost use Rattle.plan.specs.Plan.{cells as cells_of};
ghost use Rattle.plan.specs.Layout.{plan_of};
ghost use Rattle.text.specs.Decimal.{decimal};
ghost use Rattle.text.specs.Buffer.{HasRoom, Puts};
ghost use Rattle.page.specs.Columns.{right_aligned, columns as columns_of};
ghost use Rattle.page.specs.Page.{cell_text, page_of};
ghost use Rattle.page.specs.Lent.{LineFits, Printable};

use crate::columns::middle_columns;
use plan::cells;
use rules::Line;
use rules_ground::{frame_of, line_at};
use text::{TextBuffer, decimal_length};

fn put_blanks(text: &mut TextBuffer, count: usize)
    requires { HasRoom (replicate count 32) text.old }
    ensures { Puts (replicate count 32) text.old text.new }
{
    for _ in 0..count {
        text.put_byte(b' ');
    }
}

fn put_right_aligned(text: &mut TextBuffer, width: usize, n: usize)
    requires { (length (decimal n) ≤ width) × HasRoom (right_aligned width n) text.old }
    ensures { Puts (right_aligned width n) text.old text.new }
{
    put_blanks(text, width - decimal_length(n));
    text.put_decimal(n);
}

fn put_line(text: &mut TextBuffer, line: Line)
    requires { LineFits line × HasRoom (columns_of line) text.old }
    ensures { Puts (columns_of line) text.old text.new }
{
    put_right_aligned(text, 2, line.point);
    text.put_bytes(&middle_columns(line.set, line.label));
    put_right_aligned(text, 6, line.wait as usize);
    text.put_byte(b'\n');
}

// The line of a cell, if it is above 0.
fn put_cell(text: &mut TextBuffer, plan: &[u8], table: &[u32], c: usize)
    requires printable { Printable plan.now table.now × (c < cells_of (plan_of plan.now)) }
    requires text_fits { HasRoom (cell_text (plan_of plan.now) table.now c) text.old }
    ensures { Puts (cell_text (plan_of plan.now) table.now c) text.old text.new }
{
    if table[c] != 0 {
        put_line(text, line_at(table, frame_of(plan), c));
    }
}

pub fn put_page(text: &mut TextBuffer, plan: &[u8], table: &[u32])
    requires { Printable plan.now table.now × HasRoom (page_of (plan_of plan.now) table.now) text.old }
    ensures { Puts (page_of (plan_of plan.now) table.now) text.old text.new }
{
    for c in 0..cells(plan) {
        put_cell(text, plan, table, c);
    }
}
