// What the rules give at one place, or two, in the three shapes that serve filling and finding.
ghost use Rattle.std.specs.Prelude.{◌≡◌, false, ◌<◌};
ghost use Rattle.std.specs.Int.Bits.{bit_or};
ghost use Rattle.plan.specs.Label.{Marks};
ghost use Rattle.rules_fill.specs.Shapes as shapes;

use plan::is_plain;

// Rules 1 to 3, by their row: every line of one point goes to another point, with bits added to its place, unless it has a bit to avoid.
// The weight of the row is up less down.
#[derive(Clone, Copy)]
pub struct Propagator {
    pub from: usize,
    pub avoid: usize,
    pub add: usize,
    pub up: u64,
    pub down: u64,
}

// Rules 4 and 6, by their row: the bits of the mask are removed with a line of the other point.
// The mask is a run of bits, and low the lowest of them.
#[derive(Clone, Copy)]
pub struct Remover {
    pub other: usize,
    pub mask: usize,
    pub low: usize,
    pub add: u64,
}

// Two places made one: a single `|` joins their labels and unites their sets.
pub fn joined(a: usize, b: usize) -> usize
    ensures { result ≡ bit_or a b }
{
    a | b
}

pub fn cleared(place: usize, mask: usize) -> usize
    ensures { result ≡ shapes.cleared place mask }
{
    place - (place & mask)
}

// The wait less the weight, or 0.
fn weighed(wait: u64, up: u64, down: u64) -> u64
    requires { (wait < 4611686018427387904) × (down < 4611686018427387904) }
    ensures { result ≡ shapes.weighed wait up down }
{
    if up < wait + down {
        wait + down - up
    } else {
        0
    }
}

fn is_line(place: usize, wait: u64) -> bool
    ensures { result ≡ shapes.is_line place wait }
{
    0 < wait || place == 0
}

// Whether the place has a bit of the mask.
pub fn touches(mask: usize, place: usize) -> bool
    ensures { result ≡ shapes.touches mask place }
{
    place & mask != 0
}

// Whether the label of the place is plain.
fn has_plain_label(marks: &[u8; 256], mask: usize, place: usize) -> bool
    requires { Marks marks.now × (mask < 256) }
    ensures { result ≡ shapes.is_plain mask place }
{
    is_plain(marks, place & mask)
}

pub fn propagated(marks: &[u8; 256], by: Propagator, mask: usize, place: usize, wait: u64) -> u64
    requires { Marks marks.now × (mask < 256) × (wait < 4611686018427387904) × (by.down < 4611686018427387904) }
    ensures { result ≡ shapes.propagated mask by.avoid by.add by.up by.down place wait }
{
    if !is_line(place, wait) {
        return 0;
    }
    if touches(by.avoid, place) {
        return 0;
    }
    if !has_plain_label(marks, mask, place) {
        return 0;
    }
    if !has_plain_label(marks, mask, joined(place, by.add)) {
        return 0;
    }
    weighed(wait, by.up, by.down)
}

// The other line's place has no bit of the mask: callers pass over places that have one.
pub fn removed(by: Remover, wait: u64, place: usize, other: u64) -> u64
    requires { (other < 4611686018427387904) × (by.add < 4611686018427387904) × (shapes.touches by.mask place ≡ false) }
    ensures { result ≡ shapes.removed by.mask by.add wait place other }
{
    if !is_line(place, other) {
        return 0;
    }
    wait.min(other + by.add)
}
