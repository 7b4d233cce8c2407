// The text that the program prints, put into a lent buffer.
#![tactic(auto)]

mod lines;
mod reporting;

pub use reporting::report;
