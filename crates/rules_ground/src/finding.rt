// The search for a ground, over the rules with their rows.
ghost use Rattle.std.specs.Prelude.{◌≡◌, ◌<◌};
ghost use Rattle.plan.specs.Layout.{plan_of};
ghost use Rattle.rules.specs.declared.Edge.TheVariants as edge;
ghost use Rattle.rules.specs.declared.Rule.TheVariants as rule;
ghost use Rattle.rules_ground.specs.Grounds.{Searchable, Tells};
ghost use Rattle.rules_ground.specs.Searching.{the_plan, EdgeSearched, Finds, ByRule, ByActivation, ByFinish, ByLink, ByProposition, ByEdges, ByHorizonEdges, ByLinks, ByPropositions};

use crate::Search;
use crate::rows::{edge_row, letter_row, literal_row, lower_row, own_row, upper_row};
use plan::{EdgeRows, edges, link_activation, link_finish, links, observer, points, propositions};
use rules::{Edge, Ground, Line, Rule};

impl Search<'_> {
    // A ground by an edge that starts at the line's point.
    fn find_along(&self, e: Edge) -> Option<Ground>
        requires { EdgeSearched self.now e }
        ensures { Finds self.now (ByRule (rule.Propagation e)) result }
    {
        self.find_by(Rule::Propagation(e), edge_row(self.plan, self.horizon, e))
    }

    fn find_by_edge(&self, rows: &EdgeRows, i: usize) -> Option<Ground>
        requires edge_in { i < (the_plan self.now).edges }
        requires rows_of { rows.now.plan.now ≡ self.now.plan.now }
        ensures { Finds self.now (ByRule (rule.Propagation (edge.PlanEdge i))) result }
    {
        if rows.from(i) != self.line.point {
            return None;
        }
        self.find_along(Edge::PlanEdge(i))
    }

    fn find_in_edges(&self) -> Option<Ground>
        ensures { Finds self.now ByEdges result }
    {
        let n = edges(self.plan);
        let rows = EdgeRows::new(self.plan);
        (0..n).find_map(|i| self.find_by_edge(&rows, i))
    }

    // Horizon edges start at point 0.
    fn find_in_horizon_edges(&self) -> Option<Ground>
        ensures { Finds self.now ByHorizonEdges result }
    {
        if self.line.point != 0 {
            return None;
        }
        let n = points(self.plan);
        (1..n).find_map(|x| self.find_along(Edge::HorizonEdge(x)))
    }

    // A ground by the upper bound of link i or by rule 2: they give lines of its activation.
    fn find_at_activation(&self, i: usize) -> Option<Ground>
        requires { i < (the_plan self.now).links }
        ensures { Finds self.now (ByActivation i) result }
    {
        if link_activation(self.plan, i) != self.line.point {
            return None;
        }
        if let Some(ground) = self.find_along(Edge::UpperBound(i)) {
            return Some(ground);
        }
        self.find_by(Rule::LowerCase(i), lower_row(self.plan, i))
    }

    // A ground by the lower bound of link i or by rule 3: they give lines of its end.
    fn find_at_finish(&self, i: usize) -> Option<Ground>
        requires { i < (the_plan self.now).links }
        ensures { Finds self.now (ByFinish i) result }
    {
        if link_finish(self.plan, i) != self.line.point {
            return None;
        }
        if let Some(ground) = self.find_along(Edge::LowerBound(i)) {
            return Some(ground);
        }
        self.find_by(Rule::UpperCase(i), upper_row(self.plan, i))
    }

    // A ground by one link: at its activation, at its end, or by rule 4.
    fn find_by_link(&self, i: usize) -> Option<Ground>
        requires { i < (the_plan self.now).links }
        ensures { Finds self.now (ByLink i) result }
    {
        if let Some(ground) = self.find_at_activation(i) {
            return Some(ground);
        }
        if let Some(ground) = self.find_at_finish(i) {
            return Some(ground);
        }
        self.find_by(
            Rule::LetterRemoval(i),
            letter_row(self.plan, i, self.line.point),
        )
    }

    fn find_in_links(&self) -> Option<Ground>
        ensures { Finds self.now ByLinks result }
    {
        let n = links(self.plan);
        (0..n).find_map(|i| self.find_by_link(i))
    }

    // A ground by rule 5, which gives lines of the observing point.
    fn find_own(&self, j: usize) -> Option<Ground>
        requires { j < (the_plan self.now).propositions }
        ensures { Finds self.now (ByRule (rule.OwnLiteral j)) result }
    {
        if observer(self.plan, j) != self.line.point {
            return None;
        }
        self.find_by(Rule::OwnLiteral(j), own_row(self.plan, j, self.line.point))
    }

    // A ground by one proposition.
    fn find_by_proposition(&self, j: usize) -> Option<Ground>
        requires { j < (the_plan self.now).propositions }
        ensures { Finds self.now (ByProposition j) result }
    {
        if let Some(ground) = self.find_own(j) {
            return Some(ground);
        }
        self.find_by(
            Rule::LiteralRemoval(j),
            literal_row(self.plan, j, self.line.point),
        )
    }

    fn find_in_propositions(&self) -> Option<Ground>
        ensures { Finds self.now ByPropositions result }
    {
        let n = propositions(self.plan);
        (0..n).find_map(|j| self.find_by_proposition(j))
    }

    // A ground by any rule, for a line of one of the plan's points.
    fn find_any(&self) -> Option<Ground>
        ensures { Tells (the_plan self.now) self.now.table.now self.now.line result }
    {
        if let Some(ground) = self.find_in_edges() {
            return Some(ground);
        }
        if let Some(ground) = self.find_in_horizon_edges() {
            return Some(ground);
        }
        if let Some(ground) = self.find_in_links() {
            return Some(ground);
        }
        self.find_in_propositions()
    }
}

// A rule with its row, and cells of the table whose lines the rule gives just this line from, or nothing where there are none.
pub fn find_ground(
    plan: &[u8],
    marks: &[u8; 256],
    horizon: u64,
    table: &[u32],
    line: Line,
) -> Option<Ground>
    requires { Searchable plan.now marks.now horizon table.now }
    ensures { Tells (plan_of plan.now) table.now line result }
{
    if points(plan) <= line.point {
        return None;
    }
    Search::new(plan, marks, horizon, table, line).find_any()
}
