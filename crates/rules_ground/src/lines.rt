// The lines that a table's cells hold.
ghost use Rattle.std.specs.Prelude.{◌≡◌, ◌<◌, length};
ghost use Rattle.plan.specs.Plan.{Plan, width as width_of};
ghost use Rattle.plan.specs.Layout.{plan_of};
ghost use Rattle.plan.specs.Refusal.{Accepted};
ghost use Rattle.rules_ground.specs.Grounds.{holds_line};
ghost use Rattle.rules_ground.specs.Frames.{Framed, LineMade, LineRead};

use crate::Frame;
use plan::{cell_at, labels, links, propositions};
use rules::Line;

// The width is a power of 2, so that a mask finds a point's starting cell.
pub fn holds_line(table: &[u32], width: usize, c: usize) -> bool
    requires { (c < length table.now) × (0 < width) }
    ensures { (P : Plan) → width ≡ width_of P → result ≡ holds_line P table.now c }
{
    table[c] > 0 || c & (width - 1) == 0
}

pub fn frame_of(plan: &[u8]) -> Frame
    requires { Accepted plan.now }
    ensures { Framed (plan_of plan.now) result }
{
    let k = links(plan);
    Frame {
        links: k,
        bits: 2 * propositions(plan),
        sets: (1 << k) - 1,
        labels: labels(plan) - 1,
    }
}

// The line of a cell that waits so long.
pub fn line_with(frame: Frame, c: usize, wait: u64) -> Line
    requires { (frame.bits < 64) × (frame.links < 64) }
    ensures { LineMade frame c wait result }
{
    let high = c >> frame.bits;
    Line {
        point: high >> frame.links,
        set: high & frame.sets,
        label: c & frame.labels,
        wait,
    }
}

pub fn line_at(table: &[u32], frame: Frame, c: usize) -> Line
    requires { (c < length table.now) × (frame.bits < 64) × (frame.links < 64) }
    ensures { LineRead table.now frame c result }
{
    line_with(frame, c, cell_at(table, c))
}
