// A plan from one of its two forms to the other: without labels of points, and with one for each.
#![tactic(auto)]

mod converting;
mod writing;

pub use converting::{with_labels, without_labels};
