// The edges of rule 1, each as the constraint that it stands for.
ghost use Rattle.std.specs.Prelude.{◌≡◌, ◌<◌};
ghost use Rattle.plan.specs.Layout.{plan_of};
ghost use Rattle.plan.specs.Horizons.{plan_with};
ghost use Rattle.plan.specs.Refusal.{Accepted};
ghost use Rattle.rules.specs.Rules.{constraint_of};
ghost use Rattle.rules.specs.Derivations.{InPlan};
ghost use Rattle.rules.specs.declared.Rule.TheVariants as rule;

use crate::{Constraint, Edge};
use plan::{
    edge_down, edge_from, edge_label, edge_to, edge_up, link_activation, link_finish, link_least,
    link_most,
};

// The horizon is handed in: to find it anew would read every row, and a plan with rows left out has the whole plan's.
pub fn constraint_of(plan: &[u8], horizon: u64, e: Edge) -> Constraint
    requires { Accepted plan.now × InPlan (plan_of plan.now) (rule.Propagation e) }
    ensures value { result ≡ constraint_of (plan_with plan.now horizon) e }
    ensures label_bound { (result.label < 256) × (result.down < 65536) }
{
    match e {
        Edge::PlanEdge(i) => Constraint {
            from: edge_from(plan, i),
            to: edge_to(plan, i),
            label: edge_label(plan, i),
            up: edge_up(plan, i),
            down: edge_down(plan, i),
        },
        Edge::HorizonEdge(x) => Constraint {
            from: 0,
            to: x,
            label: 0,
            up: horizon,
            down: 0,
        },
        Edge::UpperBound(i) => Constraint {
            from: link_activation(plan, i),
            to: link_finish(plan, i),
            label: 0,
            up: link_most(plan, i),
            down: 0,
        },
        Edge::LowerBound(i) => Constraint {
            from: link_finish(plan, i),
            to: link_activation(plan, i),
            label: 0,
            up: 0,
            down: link_least(plan, i),
        },
    }
}
