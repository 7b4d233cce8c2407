// Lines and the six rules.
#![tactic(auto)]

mod edges;
mod parents;

pub use edges::constraint_of;

// A line: the point waits that many seconds after the first alarm, under a link set and a label.
// The wait is 64 bits wide, so that any wait of a listing is one.
#[derive(Clone, Copy, PartialEq, Eq)]
pub struct Line {
    pub point: usize,
    pub set: usize,
    pub label: usize,
    pub wait: u64,
}

// An edge of rule 1: a plan edge by its number, the horizon edge to a point, or one of a link's two, by the link's number.
#[derive(Clone, Copy, PartialEq, Eq)]
pub enum Edge {
    PlanEdge(usize),
    HorizonEdge(usize),
    UpperBound(usize),
    LowerBound(usize),
}

// What an edge says: from X to Y, under a label, Y - X is at most the weight. The weight is up less down.
#[derive(Clone, Copy, PartialEq, Eq)]
pub struct Constraint {
    pub from: usize,
    pub to: usize,
    pub label: usize,
    pub up: u64,
    pub down: u64,
}

// A rule with its row, by the source's names: 1 zLp/Nc/Uc, 2 zLc/Cc, 3 z!, 4 zLr, 5 zqR0, 6 zqR3*.
#[derive(Clone, Copy, PartialEq, Eq)]
pub enum Rule {
    Propagation(Edge),
    LowerCase(usize),
    UpperCase(usize),
    LetterRemoval(usize),
    OwnLiteral(usize),
    LiteralRemoval(usize),
}

// A rule with its row, and its parents: cells of a table, or line numbers of a listing. The second is 0 for a rule of one parent.
#[derive(Clone, Copy, PartialEq, Eq)]
pub struct Ground {
    pub by: Rule,
    pub first: usize,
    pub second: usize,
}
