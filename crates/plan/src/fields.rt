// The fields of a plan, each read from its bytes when it is asked for. A row that the bytes do not reach reads as 0.
ghost use Rattle.std.specs.Prelude.{◌≡◌, ◌<◌, ◌≤◌, ◌^◌};
ghost use Rattle.plan.specs.Plan.{width as width_of, cells as cells_of};
ghost use Rattle.plan.specs.Layout.{plan_of, labels_at, label_bytes, ends_at, data_at, row_of_edge, length_for};

use crate::bytes::{byte_at, word_at};
use crate::edge_rows::EdgeRows;

pub fn points(plan: &[u8]) -> usize
    ensures { (result ≡ (plan_of plan.now).points) × (result < 256) }
{
    byte_at(plan, 0)
}

pub fn propositions(plan: &[u8]) -> usize
    ensures { (result ≡ (plan_of plan.now).propositions) × (result < 256) }
{
    byte_at(plan, 1)
}

pub fn links(plan: &[u8]) -> usize
    ensures { (result ≡ (plan_of plan.now).links) × (result < 256) }
{
    byte_at(plan, 2)
}

pub fn edges(plan: &[u8]) -> usize
    ensures { (result ≡ (plan_of plan.now).edges) × (result < 256) }
{
    byte_at(plan, 3)
}

// The number of labels, 4^p.
pub fn labels(plan: &[u8]) -> usize
    requires { (plan_of plan.now).propositions ≤ 4 }
    ensures { (result ≡ 4 ^ (plan_of plan.now).propositions) × (result ≤ 256) }
{
    1 << (2 * propositions(plan))
}

// The cells of one point.
pub fn width(plan: &[u8]) -> usize
    requires { ((plan_of plan.now).links ≤ 4) × ((plan_of plan.now).propositions ≤ 4) }
    ensures { (result ≡ width_of (plan_of plan.now)) × (result ≤ 4096) }
{
    1 << (links(plan) + 2 * propositions(plan))
}

pub fn cells(plan: &[u8]) -> usize
    requires { ((plan_of plan.now).links ≤ 4) × ((plan_of plan.now).propositions ≤ 4) }
    ensures { result ≡ cells_of (plan_of plan.now) }
{
    points(plan) * width(plan)
}

pub fn observer(plan: &[u8], j: usize) -> usize
    requires { j < 256 }
    ensures { (result ≡ (plan_of plan.now).observer j) × (result < 256) }
{
    byte_at(plan, 4 + j)
}

// The length that the sizes ask for without labels of points.
pub fn length_for(plan: &[u8]) -> usize
    ensures { (result ≡ length_for (plan_of plan.now)) × (result < 4096) }
{
    4 + byte_at(plan, 1) + 6 * (byte_at(plan, 2) + byte_at(plan, 3))
}

// How many bytes the labels of points take.
pub fn label_bytes(plan: &[u8]) -> usize
    ensures { (result ≡ label_bytes plan.now) × (result < 256) }
{
    if plan.len() < 4 {
        return 0;
    }
    let n = byte_at(plan, 0);
    if plan.len() == length_for(plan) + n {
        return n;
    }
    0
}

// Where the labels of points stand.
pub fn labels_at(plan: &[u8]) -> usize
    ensures { (result ≡ labels_at plan.now) × (result < 512) }
{
    4 + byte_at(plan, 1)
}

// The label of a point, 0 where the plan has none.
pub fn point_label(plan: &[u8], x: usize) -> usize
    requires { x < 256 }
    ensures { (result ≡ (plan_of plan.now).point_label x) × (result < 256) }
{
    if x < label_bytes(plan) {
        return byte_at(plan, labels_at(plan) + x);
    }
    0
}

// Where the two ends of a row stand.
pub fn ends_at(plan: &[u8], row: usize) -> usize
    requires { row < 512 }
    ensures { (result ≡ ends_at plan.now row) × (result < 2048) }
{
    labels_at(plan) + label_bytes(plan) + 2 * row
}

// Where the four bytes of a row stand.
pub fn data_at(plan: &[u8], row: usize) -> usize
    requires { row < 512 }
    ensures { (result ≡ data_at plan.now row) × (result < 4096) }
{
    ends_at(plan, byte_at(plan, 2) + byte_at(plan, 3)) + 4 * row
}

// The row of an edge: the links come first.
pub fn edge_row(plan: &[u8], i: usize) -> usize
    requires { i < 256 }
    ensures { (result ≡ row_of_edge plan.now i) × (result < 512) }
{
    byte_at(plan, 2) + i
}

pub fn link_activation(plan: &[u8], i: usize) -> usize
    requires { i < 256 }
    ensures { (result ≡ (plan_of plan.now).activation i) × (result < 256) }
{
    byte_at(plan, ends_at(plan, i))
}

pub fn link_finish(plan: &[u8], i: usize) -> usize
    requires { i < 256 }
    ensures { (result ≡ (plan_of plan.now).finish i) × (result < 256) }
{
    byte_at(plan, ends_at(plan, i) + 1)
}

pub fn link_least(plan: &[u8], i: usize) -> u64
    requires { i < 256 }
    ensures { (result ≡ (plan_of plan.now).least i) × (result < 65536) }
{
    word_at(plan, data_at(plan, i))
}

pub fn link_most(plan: &[u8], i: usize) -> u64
    requires { i < 256 }
    ensures { (result ≡ (plan_of plan.now).most i) × (result < 65536) }
{
    word_at(plan, data_at(plan, i) + 2)
}

// The fields of an edge that is asked for alone.
pub fn edge_from(plan: &[u8], i: usize) -> usize
    requires { i < 256 }
    ensures { (result ≡ (plan_of plan.now).from i) × (result < 256) }
{
    EdgeRows::new(plan).from(i)
}

pub fn edge_to(plan: &[u8], i: usize) -> usize
    requires { i < 256 }
    ensures { (result ≡ (plan_of plan.now).to i) × (result < 256) }
{
    EdgeRows::new(plan).to(i)
}

pub fn edge_up(plan: &[u8], i: usize) -> u64
    requires { i < 256 }
    ensures { (result ≡ (plan_of plan.now).up i) × (result < 65536) }
{
    EdgeRows::new(plan).up(i)
}

pub fn edge_down(plan: &[u8], i: usize) -> u64
    requires { i < 256 }
    ensures { (result ≡ (plan_of plan.now).down i) × (result < 65536) }
{
    EdgeRows::new(plan).down(i)
}

pub fn edge_label(plan: &[u8], i: usize) -> usize
    requires { i < 256 }
    ensures { (result ≡ (plan_of plan.now).label i) × (result < 256) }
{
    EdgeRows::new(plan).label(i)
}
