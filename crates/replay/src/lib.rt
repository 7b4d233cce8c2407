// Replay of a listing.
#![tactic(auto)]

mod fields;
mod judging;

pub use judging::replay;
