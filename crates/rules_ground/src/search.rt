// A search for a ground of a line: what it is lent, and where the line's parents can lie.
ghost use Rattle.std.specs.Prelude.{◌≡◌, ◌<◌, length};
ghost use Rattle.plan.specs.Label.{Marks};
ghost use Rattle.plan.specs.Plan.{width as width_of, cells};
ghost use Rattle.plan.specs.Layout.{plan_of};
ghost use Rattle.plan.specs.Refusal.{Accepted};
ghost use Rattle.rules_ground.specs.Frames.{Framed};
ghost use Rattle.rules_ground.specs.Grounds.{Searchable};
ghost use Rattle.rules_ground.specs.Rows.{cut_place};

use crate::Frame;
use crate::lines::frame_of;
use plan::{labels, width};
use rules::Line;

// The line that is looked for in a table and its place among its point's cells, with the plan, its horizon, its frame and the cells of a point.
#[derive(Clone, Copy)]
pub(crate) struct Search<'a> {
    pub(crate) plan: &'a [u8],
    pub(crate) marks: &'a [u8; 256],
    pub(crate) table: &'a [u32],
    pub(crate) horizon: u64,
    pub(crate) frame: Frame,
    pub(crate) width: usize,
    pub(crate) place: usize,
    pub(crate) line: Line,
    ghost accepted: { Accepted plan.now },
    ghost marked: { Marks marks.now },
    ghost long: { length table.now ≡ cells (plan_of plan.now) },
    ghost horizon_is: { horizon ≡ (plan_of plan.now).horizon },
    ghost width_is: { width ≡ width_of (plan_of plan.now) },
    ghost framed: { Framed (plan_of plan.now) frame },
    ghost place_is: { place ≡ cut_place (plan_of plan.now) line },
    ghost point_in: { line.point < (plan_of plan.now).points },
}

impl<'a> Search<'a> {
    // A set or a label too large for the plan is cut to one of its own: no ground gives such a line.
    pub(crate) fn new(
        plan: &'a [u8],
        marks: &'a [u8; 256],
        horizon: u64,
        table: &'a [u32],
        line: Line,
    ) -> Search<'a>
        requires { Searchable plan.now marks.now horizon table.now × (line.point < (plan_of plan.now).points) }
        ensures { (result.plan.now ≡ plan.now) × (result.table.now ≡ table.now) × (result.line ≡ line) }
    {
        let frame = frame_of(plan);
        let set = line.set & frame.sets;
        let label = line.label & frame.labels;
        Search {
            plan,
            marks,
            table,
            horizon,
            frame,
            width: width(plan),
            place: set * labels(plan) + label,
            line,
        }
    }
}
