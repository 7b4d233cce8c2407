// The rules in loops over listed places, which raise the cells of a part and note them.
#![tactic(auto)]

mod listed;
mod part;
mod table;

pub use part::Part;
pub use table::Table;
