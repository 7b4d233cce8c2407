// The lines of a listing counted, and written with their grounds.
#![tactic(auto)]

mod bytes;
mod counting;
mod entries;
mod entry;
mod index;
mod numbers;
mod round_lines;

pub use counting::count_lines;
pub use round_lines::write_listing;
