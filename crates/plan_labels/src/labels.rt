// Labels of points: each by itself, and whether the network is well-defined with them.
ghost use Rattle.std.specs.Prelude.{◌≡◌, ◌<◌, ◌≤◌};
ghost use Rattle.plan.specs.Label.{Marks};
ghost use Rattle.plan.specs.Layout.{plan_of};
ghost use Rattle.plan.specs.Refusal.{every, some, label_fits, point_label_fits, contains_digit, contains_label, contains_observer, contains_observers, puts_after, comes_after_answer, comes_after, point_well_defined, edge_well_defined, link_well_defined, well_defined};

use plan::{
    digit, edge_down, edge_from, edge_label, edge_to, edges, is_plain, label_bytes, labels,
    link_activation, link_finish, links, observer, plain_marks, point_label, points, propositions,
};

// A label with no digit at p or above is below 4^p.
pub fn label_fits(plan: &[u8], marks: &[u8; 256], label: usize) -> bool
    requires { (label < 256) × ((plan_of plan.now).propositions ≤ 4) × Marks marks.now }
    ensures { result ≡ label_fits (plan_of plan.now) label }
{
    label < labels(plan) && is_plain(marks, label)
}

fn point_label_fits(plan: &[u8], marks: &[u8; 256], x: usize) -> bool
    requires { (x < 256) × ((plan_of plan.now).propositions ≤ 4) × Marks marks.now }
    ensures { result ≡ point_label_fits (plan_of plan.now) x }
{
    let label = point_label(plan, x);
    label_fits(plan, marks, label) && (0 < x || label == 0)
}

// A plan without labels of points passes.
pub fn point_labels_fit(plan: &[u8]) -> bool
    requires { (plan_of plan.now).propositions ≤ 4 }
    ensures { result ≡ every (point_label_fits (plan_of plan.now)) (plan_of plan.now).points }
{
    if label_bytes(plan) == 0 {
        return true;
    }
    let marks = plain_marks();
    (0..points(plan)).all(|x| point_label_fits(plan, &marks, x))
}

// Whether digit j of b, if it is not 0, is a's digit.
fn contains_digit(a: usize, b: usize, j: usize) -> bool
    requires { j < 4 }
    ensures { result ≡ contains_digit a b j }
{
    let d = digit(b, j);
    d == 0 || d == digit(a, j)
}

fn contains_label(plan: &[u8], a: usize, b: usize) -> bool
    requires { (plan_of plan.now).propositions ≤ 4 }
    ensures { result ≡ contains_label (plan_of plan.now) a b }
{
    (0..propositions(plan)).all(|j| contains_digit(a, b, j))
}

// Whether the label, if it names proposition j, contains the label of its observing point.
fn contains_observer(plan: &[u8], label: usize, j: usize) -> bool
    requires { ((plan_of plan.now).propositions ≤ 4) × (j < 4) }
    ensures { result ≡ contains_observer (plan_of plan.now) label j }
{
    digit(label, j) == 0 || contains_label(plan, label, point_label(plan, observer(plan, j)))
}

fn contains_observers(plan: &[u8], label: usize) -> bool
    requires { (plan_of plan.now).propositions ≤ 4 }
    ensures { result ≡ contains_observers (plan_of plan.now) label }
{
    (0..propositions(plan)).all(|j| contains_observer(plan, label, j))
}

// Whether edge i runs from point x to the observing point of j, with a negative weight and exactly the point's label.
fn puts_after(plan: &[u8], x: usize, j: usize, i: usize) -> bool
    requires { (x < 256) × (j < 256) × (i < 256) }
    ensures { result ≡ puts_after (plan_of plan.now) x j i }
{
    let start = edge_from(plan, i);
    let end = edge_to(plan, i);
    if start != x {
        return false;
    }
    if end != observer(plan, j) {
        return false;
    }
    if edge_down(plan, i) == 0 {
        return false;
    }
    edge_label(plan, i) == point_label(plan, x)
}

fn some_puts_after(plan: &[u8], x: usize, j: usize) -> bool
    requires { (x < 256) × (j < 256) }
    ensures { result ≡ some (puts_after (plan_of plan.now) x j) (plan_of plan.now).edges }
{
    (0..edges(plan)).any(|i| puts_after(plan, x, j, i))
}

// Whether the point, if its label names proposition j, comes after its observing point.
fn comes_after_answer(plan: &[u8], x: usize, j: usize) -> bool
    requires { (x < 256) × (j < 4) }
    ensures { result ≡ comes_after_answer (plan_of plan.now) x j }
{
    digit(point_label(plan, x), j) == 0 || some_puts_after(plan, x, j)
}

fn comes_after(plan: &[u8], x: usize) -> bool
    requires { (x < 256) × ((plan_of plan.now).propositions ≤ 4) }
    ensures { result ≡ comes_after (plan_of plan.now) x }
{
    (0..propositions(plan)).all(|j| comes_after_answer(plan, x, j))
}

fn point_well_defined(plan: &[u8], x: usize) -> bool
    requires { (x < 256) × ((plan_of plan.now).propositions ≤ 4) }
    ensures { result ≡ point_well_defined (plan_of plan.now) x }
{
    contains_observers(plan, point_label(plan, x)) && comes_after(plan, x)
}

fn edge_well_defined(plan: &[u8], i: usize) -> bool
    requires { (i < 256) × ((plan_of plan.now).propositions ≤ 4) }
    ensures { result ≡ edge_well_defined (plan_of plan.now) i }
{
    let label = edge_label(plan, i);
    if !contains_label(plan, label, point_label(plan, edge_from(plan, i))) {
        return false;
    }
    if !contains_label(plan, label, point_label(plan, edge_to(plan, i))) {
        return false;
    }
    contains_observers(plan, label)
}

fn link_well_defined(plan: &[u8], i: usize) -> bool
    requires { i < 256 }
    ensures { result ≡ link_well_defined (plan_of plan.now) i }
{
    let a = link_activation(plan, i);
    let c = link_finish(plan, i);
    point_label(plan, a) == point_label(plan, c)
}

fn edges_well_defined(plan: &[u8]) -> bool
    requires { (plan_of plan.now).propositions ≤ 4 }
    ensures { result ≡ every (edge_well_defined (plan_of plan.now)) (plan_of plan.now).edges }
{
    // With no proposition no label has a digit that another could lack.
    if propositions(plan) == 0 {
        return true;
    }
    (0..edges(plan)).all(|i| edge_well_defined(plan, i))
}

fn points_well_defined(plan: &[u8]) -> bool
    requires { (plan_of plan.now).propositions ≤ 4 }
    ensures { result ≡ every (point_well_defined (plan_of plan.now)) (plan_of plan.now).points }
{
    (0..points(plan)).all(|x| point_well_defined(plan, x))
}

fn links_well_defined(plan: &[u8]) -> bool
    ensures { result ≡ every (link_well_defined (plan_of plan.now)) (plan_of plan.now).links }
{
    (0..links(plan)).all(|i| link_well_defined(plan, i))
}

// A plan without labels of points is.
pub fn well_defined(plan: &[u8]) -> bool
    requires { (plan_of plan.now).propositions ≤ 4 }
    ensures { result ≡ well_defined (plan_of plan.now) }
{
    if label_bytes(plan) == 0 {
        return true;
    }
    edges_well_defined(plan) && points_well_defined(plan) && links_well_defined(plan)
}
