// The page of a plan and a table: a line of fixed columns for each cell above 0.
#![tactic(auto)]

mod columns;
mod lines;
mod printing;

pub use printing::page;
