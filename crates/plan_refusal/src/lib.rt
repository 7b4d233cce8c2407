// Refusals 1 to 5, 17 and 18 of a plan.
#![tactic(auto)]

mod refusals;

pub use refusals::refusal;
