// The edge rows that break a plan.
#![tactic(auto)]

mod reducing;
mod trials;

pub use reducing::{Progress, breaking_rows};
pub use trials::Trial;
