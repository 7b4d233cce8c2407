// Rules 4 and 6 of a row: from pairs of which one is raised, or from all cells by halves, where that takes fewer steps.
#![tactic(auto)]

mod dense;
mod gather;

pub use dense::remove_row;
