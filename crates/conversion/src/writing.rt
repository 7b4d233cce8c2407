// The bytes of a plan with other labels of points.
ghost use Rattle.std.specs.Prelude.{◌≡◌, ◌++◌, ◌+◌, ◌≤◌, ◌<◌, length, drop, replicate};
ghost use Rattle.plan.specs.Moments.{SameLength};
ghost use Rattle.plan.specs.Layout.{plan_of, length_for};
ghost use Rattle.plan.specs.Forms.{relabelled};
ghost use Rattle.plan.specs.Refusal.{Accepted};

use plan::{copy_elements, label_bytes, labels_at, length_for};

// The plan with so many labels 0 in place of those that it has, from the start of out on; how many bytes it has.
pub fn write_relabelled(plan: &[u8], labels: usize, out: &mut [u8]) -> usize
    requires accepted { Accepted plan.now × (labels < 256) }
    requires labels_in_bounds { length_for (plan_of plan.now) + labels ≤ length out.old }
    ensures value { result ≡ length_for (plan_of plan.now) + labels }
    ensures out_value { out.new ≡ relabelled plan.now (replicate labels 0) ++ drop result out.old }
    ensures same_length { SameLength out }
{
    let start = labels_at(plan);
    let rows = start + labels;
    let end = length_for(plan) + labels;
    copy_elements(&mut out[..start], &plan[..start]);
    out[start..rows].fill(0);
    copy_elements(&mut out[rows..end], &plan[start + label_bytes(plan)..]);
    end
}
