// A rule applied to lines: what it gives.
#![tactic(auto)]

mod application;
mod propagation;
mod removal;
mod sets;

pub use application::{apply, gives_line};
pub use sets::contains;
