// The rows of a plan, read from its bytes once, its edges linked by the point where they start.
#![tactic(auto)]

mod numbers;
mod reading;
mod rows;

pub use numbers::{EdgeNumbers, LinkNumbers};
pub use rows::Rows;
