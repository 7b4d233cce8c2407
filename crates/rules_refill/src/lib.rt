// One point's part of the next table, from the cells that the last round raised.
#![tactic(auto)]

mod refill;

pub use refill::Refill;
