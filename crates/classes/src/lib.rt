// The check of a plan by the device classes of its links.
#![tactic(auto)]

mod checking;
mod judging;

pub use checking::check_classes;
