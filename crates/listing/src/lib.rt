// The listing of a broken plan.
#![tactic(auto)]

mod answering;

pub use answering::list;

// What the listing answers where it is not refused: as the check, and with broken also the listing's length in bytes; specs/ListOutcomes says what each stands for.
#[derive(Clone, Copy, Debug, PartialEq, Eq)]
pub enum Listed {
    Kept(u64),
    Broken(u64, usize),
    Spent(u64),
}
