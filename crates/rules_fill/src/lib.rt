// One point's part of the next table, and the copy of a table's first cells; the shapes of the rules.
#![tactic(auto)]

mod cells;
mod fill;
mod rows;
mod shapes;

pub use cells::copy_cells;
pub use fill::fill_point;
pub use rows::{digit_bit, digit_mask, label_mask, link_bit};
pub use shapes::{Propagator, Remover, cleared, joined, propagated, removed, touches};
