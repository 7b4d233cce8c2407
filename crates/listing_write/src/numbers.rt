// The numbers by which a listing names rules, rows and parents.
ghost use Rattle.std.specs.Prelude.{◌≡◌, ◌<◌};
ghost use Rattle.plan.specs.Layout.{plan_of};
ghost use Rattle.plan.specs.Refusal.{Accepted};
ghost use Rattle.rules.specs.Derivations.{InPlan};
ghost use Rattle.rules.specs.declared.Rule.TheVariants as rule;
ghost use Rattle.listing_write.specs.Entry.{rule_number, edge_number, row_number, second_number};

use plan::{edges, points};
use rules::{Edge, Rule};

pub fn rule_number(by: Rule) -> usize
    ensures { (result ≡ rule_number by) × (result < 256) }
{
    match by {
        Rule::Propagation(_) => 1,
        Rule::LowerCase(_) => 2,
        Rule::UpperCase(_) => 3,
        Rule::LetterRemoval(_) => 4,
        Rule::OwnLiteral(_) => 5,
        Rule::LiteralRemoval(_) => 6,
    }
}

fn edge_number(plan: &[u8], e: Edge) -> usize
    requires { Accepted plan.now × InPlan (plan_of plan.now) (rule.Propagation e) }
    ensures { (result ≡ edge_number (plan_of plan.now) e) × (result < 65536) }
{
    match e {
        Edge::PlanEdge(i) => i,
        Edge::HorizonEdge(x) => edges(plan) + x,
        Edge::UpperBound(i) => edges(plan) + points(plan) + 2 * i,
        Edge::LowerBound(i) => edges(plan) + points(plan) + 2 * i + 1,
    }
}

pub fn row_number(plan: &[u8], by: Rule) -> usize
    requires { Accepted plan.now × InPlan (plan_of plan.now) by }
    ensures { (result ≡ row_number (plan_of plan.now) by) × (result < 65536) }
{
    match by {
        Rule::Propagation(e) => edge_number(plan, e),
        Rule::LowerCase(i) | Rule::UpperCase(i) | Rule::LetterRemoval(i) => i,
        Rule::OwnLiteral(j) | Rule::LiteralRemoval(j) => j,
    }
}

// The second parent where the rule uses one, else 0.
pub fn second_number(by: Rule, second: usize) -> usize
    requires { second < 65536 }
    ensures { (result ≡ second_number by second) × (result < 65536) }
{
    if by.uses_second() { second } else { 0 }
}
