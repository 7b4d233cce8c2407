// The greatest of all the waits that pairs give to joined places, made by halves.
#![tactic(auto)]

mod halves;

pub use halves::halve;
