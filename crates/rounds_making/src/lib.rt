// The making of rounds, and what they end with.
#![tactic(auto)]

mod making;

pub use making::rounds_to;

// What rounds end with; specs/Outcomes says what each stands for.
#[derive(Clone, Copy)]
pub enum Answer {
    // With the number of rounds made: the last changed nothing.
    Kept(u64),
    // With the number of rounds made: after the last the first alarm waits for itself.
    Broken(u64),
    // With the limit: neither in so many rounds.
    Spent(u64),
}
