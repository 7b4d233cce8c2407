// Sets of points, a bit for each, and the points that a round concerns.
#![tactic(auto)]

mod concern;
mod sets;

pub use concern::{concerned, find_dependents, find_givers};
pub use sets::{PointSet, Points};
