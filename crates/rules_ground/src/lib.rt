// Finding a ground for a line of the next table.
#![tactic(auto)]

mod finding;
mod lines;
mod parents;
mod places;
mod rows;
mod search;

pub use finding::find_ground;
pub use lines::{frame_of, line_at, line_with};
use search::Search;

// What takes a cell apart: the number of links, the bits of a label, and the masks of a set and of a label.
#[derive(Clone, Copy, PartialEq, Eq)]
pub struct Frame {
    pub links: usize,
    pub bits: usize,
    pub sets: usize,
    pub labels: usize,
}

// A rule's row: the points of its parents, the bits that it removes from its first parent's place, and the weight, up less down.
// Rules of one parent take the weight from its wait; rules 4 and 6 have no up and add down to their second parent's wait.
#[derive(Clone, Copy, PartialEq, Eq)]
pub struct Row {
    pub first: usize,
    pub second: usize,
    pub removed: usize,
    pub up: u64,
    pub down: u64,
}
