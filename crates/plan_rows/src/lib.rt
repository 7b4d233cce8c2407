// A plan with some of its edge rows.
#![tactic(auto)]

mod writing;

pub use writing::{marked_rows, write_rows};
