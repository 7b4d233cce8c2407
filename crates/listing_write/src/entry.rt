// A line's head and ground at their places in a listing.
ghost use Rattle.std.specs.Prelude.{◌≡◌, ◌+◌, ◌≤◌, ◌<◌, length};
ghost use Rattle.std.proofs.lemmas.List.Edits.{sets};
ghost use Rattle.plan.specs.Moments.{SameLength};
ghost use Rattle.plan.specs.Layout.{plan_of};
ghost use Rattle.rules_ground.specs.Frames.{Fitting};
ghost use Rattle.listing_write.specs.Entry.{head_bytes, ground_bytes, LineReady, GroundReady, LinePut};

use crate::bytes::put_word;
use crate::numbers::{row_number, rule_number, second_number};
use rules::{Ground, Line};

fn put_head(out: &mut [u8], at: usize, line: Line, rule: usize)
    requires { (at + 8 ≤ length out.old) × Fitting line × (rule < 256) }
    ensures out_value { out.new ≡ sets out.old at (head_bytes line rule) }
    ensures same_length { SameLength out }
{
    out[at] = line.point as u8;
    out[at + 1] = line.set as u8;
    out[at + 2] = line.label as u8;
    out[at + 3] = rule as u8;
    put_word(out, at + 4, (line.wait / 65536) as usize);
    put_word(out, at + 6, (line.wait % 65536) as usize);
}

fn put_ground(out: &mut [u8], at: usize, row: usize, first: usize, second: usize)
    requires { (at + 6 ≤ length out.old) × (row < 65536) × (first < 65536) × (second < 65536) }
    ensures out_value { out.new ≡ sets out.old at (ground_bytes row first second) }
    ensures same_length { SameLength out }
{
    put_word(out, at, row);
    put_word(out, at + 2, first);
    put_word(out, at + 4, second);
}

// Line i of a listing of m lines, by a ground whose parents are line numbers.
pub fn put_line(plan: &[u8], out: &mut [u8], m: usize, i: usize, line: Line, ground: Ground)
    requires { LineReady plan.now out.old m i line × GroundReady (plan_of plan.now) ground }
    ensures { LinePut (plan_of plan.now) m i line ground out.old out.new }
{
    let by = ground.by;
    put_head(out, 2 + 8 * i, line, rule_number(by));
    put_ground(
        out,
        2 + 8 * m + 6 * i,
        row_number(plan, by),
        ground.first,
        second_number(by, ground.second),
    );
}
