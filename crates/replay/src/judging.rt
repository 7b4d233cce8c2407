// Replay: every line by the rule, row and parents that it names.
#![tactic(auto, unfolding(crate::specs::Replaying::laid_out, crate::specs::Replaying::in_range, crate::specs::Replaying::parents_known, crate::specs::Replaying::follows, crate::specs::Replaying::judge_line, crate::specs::Replaying::judge_last, crate::specs::Replaying::judge_listing))]

ghost use Rattle.std.specs.Prelude.{◌≡◌, ◌||◌, ◌+◌, ◌^◌, ◌<◌, ◌≤◌, Some, T as Is, eqb};
ghost use Rattle.plan.specs.Layout.{plan_of};
ghost use Rattle.plan.specs.Numbers.{refusal_number};
ghost use Rattle.plan.specs.Refusal.{Accepted};
ghost use Rattle.rules.specs.Rules.{uses_second};
ghost use Rattle.rules.specs.Derivations.{InPlan};
ghost use Rattle.replay.specs.Listings as listings;
ghost use Rattle.replay.specs.Replaying as replaying;
ghost use Rattle.replay.specs.AfterReplay.{AfterReplay};
ghost use Rattle.replay.specs.Judging.{Judging};

use crate::fields::{Listing, line_count};
use plan::{
    Refusal, edges, horizon as horizon_of, is_plain, labels, links, plain_marks, points,
    propositions,
};
use plan_refusal::refusal;
use rules::{Edge, Line, Rule};
use rules_apply::gives_line;

// The edges of links by their number: link i's are 2i, its upper bound, and 2i + 1, its lower bound.
fn bound_rule(plan: &[u8], number: usize) -> Option<Rule>
    requires { number < 65536 }
    ensures { result ≡ listings.bound_rule (plan_of plan.now) number }
{
    let i = number / 2;
    let bound = if number % 2 == 0 {
        Edge::UpperBound(i)
    } else {
        Edge::LowerBound(i)
    };
    (i < links(plan)).then_some(Rule::Propagation(bound))
}

// The edge of rule 1 that a row names.
fn edge_rule(plan: &[u8], row: usize) -> Option<Rule>
    requires { row < 65536 }
    ensures { result ≡ listings.rule_of (plan_of plan.now) 1 row }
{
    let e = edges(plan);
    if row < e {
        return Some(Rule::Propagation(Edge::PlanEdge(row)));
    }
    if row == e {
        return None;
    }
    let first_bound = e + points(plan);
    if row < first_bound {
        return Some(Rule::Propagation(Edge::HorizonEdge(row - e)));
    }
    bound_rule(plan, row - first_bound)
}

// The rule with its row, if both are in range.
fn rule_of(plan: &[u8], rule: usize, row: usize) -> Option<Rule>
    requires { row < 65536 }
    ensures { result ≡ listings.rule_of (plan_of plan.now) rule row }
{
    match rule {
        1 => edge_rule(plan, row),
        2 => (row < links(plan)).then_some(Rule::LowerCase(row)),
        3 => (row < links(plan)).then_some(Rule::UpperCase(row)),
        4 => (row < links(plan)).then_some(Rule::LetterRemoval(row)),
        5 => (row < propositions(plan)).then_some(Rule::OwnLiteral(row)),
        6 => (row < propositions(plan)).then_some(Rule::LiteralRemoval(row)),
        _ => None,
    }
}

fn in_range(plan: &[u8], l: Line) -> bool
    requires { Accepted plan.now }
    ensures { result ≡ replaying.in_range (plan_of plan.now) l }
{
    l.point < points(plan) && l.set < 1 << links(plan) && l.label < labels(plan)
}

// A listing that is judged against an accepted plan, with the plan's horizon and the marks.
#[derive(Clone, Copy)]
struct Judge<'a> {
    plan: &'a [u8],
    listing: Listing<'a>,
    marks: &'a [u8; 256],
    horizon: u64,
    ghost judging: { Judging plan.now marks.now horizon },
}

impl<'a> Judge<'a> {
    ghost use Rattle.replay.specs.Judged.{Judged, plan_in, listing_in};

    // A parent: below n the point's starting line, else a line of the listing.
    fn parent_line(&self, q: usize) -> Line
        requires { q < (plan_in self.now).points + 4096 }
        ensures value { result ≡ listings.parent_line (plan_in self.now) (listing_in self.now) q }
        ensures wait_bound { result.wait < 4294967296 }
    {
        let n = points(self.plan);
        if q < n {
            return Line {
                point: q,
                set: 0,
                label: 0,
                wait: 0,
            };
        }
        self.listing.head_line(q - n)
    }

    fn parents_known(&self, i: usize, by: Rule) -> bool
        requires { i < 4096 }
        ensures { result ≡ replaying.parents_known (plan_in self.now) (listing_in self.now) i by }
    {
        let known = points(self.plan) + i;
        self.listing.first_parent(i) < known
            && (!by.uses_second() || self.listing.second_parent(i) < known)
    }

    // Whether a second parent that the rule does not use is 0.
    fn second_fits(&self, i: usize, by: Rule) -> bool
        requires { i < 4096 }
        ensures { result ≡ uses_second by || eqb (listings.second_parent (listing_in self.now) i) 0 }
    {
        by.uses_second() || self.listing.second_parent(i) == 0
    }

    // Whether line i is what its rule gives; its parents are known, and the lines before it are in range.
    fn follows(&self, i: usize, by: Rule) -> bool
        requires { Judged self.now i × InPlan (plan_in self.now) by × Is (replaying.parents_known (plan_in self.now) (listing_in self.now) i by) }
        ensures { result ≡ replaying.follows (plan_in self.now) (listing_in self.now) i by }
    {
        if !self.second_fits(i, by) {
            return false;
        }
        let first = self.parent_line(self.listing.first_parent(i));
        let second = self.parent_line(self.listing.second_parent(i));
        gives_line(
            self.plan,
            self.marks,
            self.horizon,
            by,
            first,
            second,
            self.listing.head_line(i),
        )
    }

    fn judge_rule(&self, i: usize, by: Rule) -> Result<(), Refusal>
        requires { Judged self.now i × InPlan (plan_in self.now) by }
        ensures { refusal_number result ≡ replaying.judge_rule (plan_in self.now) (listing_in self.now) i (Some by) }
    {
        if !self.parents_known(i, by) {
            return Err(Refusal::OutOfRange); // a parent
        }
        if !self.follows(i, by) {
            return Err(Refusal::NotByRule);
        }
        Ok(())
    }

    // Whether line i follows.
    fn judge_line(&self, i: usize) -> Result<(), Refusal>
        requires { Judged self.now i }
        ensures { refusal_number result ≡ replaying.judge_line (plan_in self.now) (listing_in self.now) i }
    {
        if !in_range(self.plan, self.listing.head_line(i)) {
            return Err(Refusal::OutOfRange);
        }
        let Some(by) = rule_of(self.plan, self.listing.head_rule(i), self.listing.row_of(i)) else {
            return Err(Refusal::OutOfRange);
        };
        self.judge_rule(i, by)
    }

    // The first refusal of the lines.
    fn judge_lines(&self, m: usize) -> Result<(), Refusal>
        requires { m ≤ 4096 }
        ensures { refusal_number result ≡ replaying.judge_lines (plan_in self.now) (listing_in self.now) m }
    {
        for i in 0..m {
            self.judge_line(i)?;
        }
        Ok(())
    }

    // Whether the line makes the first alarm wait for itself.
    fn judge_last(&self, l: Line) -> Result<(), Refusal>
        requires { l.label < 4 ^ (plan_in self.now).propositions }
        ensures { refusal_number result ≡ replaying.judge_last (plan_in self.now) l }
    {
        if l.point == 0 && is_plain(self.marks, l.label) {
            return Ok(());
        }
        Err(Refusal::LastLine)
    }
}

fn judge_listing(plan: &[u8], listing: Listing<'_>) -> Result<(), Refusal>
    requires { Accepted plan.now × (1 ≤ listings.line_count listing.bytes.now) }
    ensures { refusal_number result ≡ replaying.judge_listing (plan_of plan.now) listing.entry.bytes.now }
{
    let marks = plain_marks();
    let judge = Judge {
        plan,
        listing,
        marks: &marks,
        horizon: horizon_of(plan),
    };
    let m = line_count(listing.bytes);
    judge.judge_lines(m)?;
    judge.judge_last(listing.head_line(m - 1))
}

fn laid_out(listing: &[u8]) -> bool
    ensures { result ≡ replaying.laid_out listing.now }
{
    let m = line_count(listing);
    listing.len() >= 2 && m >= 1 && m <= 4096 && listing.len() == 2 + 14 * m
}

// Whether the listing is a derivation to "the first alarm waits for itself".
pub fn replay(plan: &[u8], listing: &[u8]) -> Result<(), Refusal>
    ensures { AfterReplay plan.now listing.now (refusal_number result) }
{
    refusal(plan)?;
    if !laid_out(listing) {
        return Err(Refusal::Layout);
    }
    judge_listing(plan, Listing { bytes: listing })
}
