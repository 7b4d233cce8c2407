// Which points a round concerns: those of which a rule may give a line from a cell that the last round raised.
ghost use Rattle.std.specs.Prelude.{◌≡◌, ℕ, ◌^◌, ◌<◌, length, get_or, set};
ghost use Rattle.std.specs.Int.Bits.{bit_or};
ghost use Rattle.plan.specs.Moments.{SameLength};
ghost use Rattle.plan.specs.Layout.{plan_of};
ghost use Rattle.plan.specs.Refusal.{Accepted};
ghost use Rattle.rounds_points.specs.PointSets.{In, Sets, EdgesIn, LinksIn, Dependents, Givers, LinedOf, Concerned};

use crate::sets::PointSet;
use plan::{EdgeRows, edges, link_activation, link_finish, links, observer, propositions};

// Adds point x to the set of point y.
fn add(sets: &mut [PointSet], y: usize, x: usize)
    requires { (y < length sets.old) × (x < 32) }
    ensures sets_value { sets.new ≡ set sets.old y (bit_or (get_or sets.old y 0) (2 ^ x)) }
    ensures same_length { SameLength sets }
{
    sets[y].insert(x);
}

fn depend_by_edges(plan: &[u8], sets: &mut [PointSet])
    requires { Accepted plan.now × Sets (plan_of plan.now).points sets.old }
    ensures edges_in { EdgesIn (plan_of plan.now) sets.old sets.new }
    ensures same_length { SameLength sets }
{
    let rows = EdgeRows::new(plan);
    let n = edges(plan);
    for i in 0..n {
        add(sets, rows.to(i), rows.from(i));
    }
}

fn depend_by_links(plan: &[u8], sets: &mut [PointSet])
    requires { Accepted plan.now × Sets (plan_of plan.now).points sets.old }
    ensures links_in { LinksIn (plan_of plan.now) sets.old sets.new }
    ensures same_length { SameLength sets }
{
    let n = links(plan);
    for i in 0..n {
        let a = link_activation(plan, i);
        let c = link_finish(plan, i);
        add(sets, a, c);
        add(sets, c, a);
    }
}

// For each point, those of which rules 1 to 3 give a line from one of its lines; horizon edges are left out.
pub fn find_dependents(plan: &[u8], sets: &mut [PointSet])
    requires { Accepted plan.now × Sets (plan_of plan.now).points sets.old }
    ensures dependents { Dependents (plan_of plan.now) sets.new }
    ensures same_length { SameLength sets }
{
    depend_by_edges(plan, sets);
    depend_by_links(plan, sets);
}

fn activations(plan: &[u8]) -> PointSet
    requires { Accepted plan.now }
    ensures { (i : ℕ) → i < (plan_of plan.now).links → In result ((plan_of plan.now).activation i) }
{
    (0..links(plan)).fold(PointSet::new(), |set, i| set.with(link_activation(plan, i)))
}

fn observers(plan: &[u8]) -> PointSet
    requires { Accepted plan.now }
    ensures { (j : ℕ) → j < (plan_of plan.now).propositions → In result ((plan_of plan.now).observer j) }
{
    (0..propositions(plan)).fold(PointSet::new(), |set, j| set.with(observer(plan, j)))
}

// The activations and the observing points: the second parents of rules 4 and 6 are theirs.
pub fn find_givers(plan: &[u8]) -> PointSet
    requires { Accepted plan.now }
    ensures { Givers (plan_of plan.now) result }
{
    activations(plan).union(observers(plan))
}

// The points that depend on one of a set of points below n.
fn dependents_of(sets: &[PointSet], n: usize, changed: PointSet) -> PointSet
    requires { Sets n sets.now × (changed < 2 ^ n) }
    ensures { (result < 2 ^ n) × ((y x : ℕ) → y < n → In changed y → In (get_or sets.now y 0) x → In result x) }
{
    changed
        .iter()
        .fold(PointSet::new(), |found, y| found.union(sets[y]))
}

// The points with a line beside the starting line of which rules 4 to 6 may give a line.
fn lined_of(n: usize, changed: PointSet, lined: PointSet, givers: PointSet) -> PointSet
    requires { lined < 2 ^ n }
    ensures { LinedOf n changed lined givers result }
{
    if changed.intersection(givers).is_empty() {
        return lined.intersection(changed);
    }
    lined
}

// The points below n that a round concerns after one that changed some of them; those with a line beside the starting line are in `lined`.
pub fn concerned(
    sets: &[PointSet],
    n: usize,
    changed: PointSet,
    lined: PointSet,
    givers: PointSet,
) -> PointSet
    requires { Sets n sets.now × (changed < 2 ^ n) × (lined < 2 ^ n) }
    ensures { Concerned n sets.now changed lined givers result }
{
    dependents_of(sets, n, changed).union(lined_of(n, changed, lined, givers))
}
