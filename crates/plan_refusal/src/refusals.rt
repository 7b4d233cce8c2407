// Refusals 1 to 5, 17 and 18, in their order.
ghost use Rattle.std.specs.Prelude.{◌≡◌, ◌<◌, ◌≤◌};
ghost use Rattle.plan.specs.Label.{Marks};
ghost use Rattle.plan.specs.Layout.{plan_of};
ghost use Rattle.plan.specs.Numbers.{refusal_number};
ghost use Rattle.plan.specs.Refusal.{every, differs, sizes_fit, length_fits, observer_fits, link_ends_fit, duration_fits, is_link_fit, edge_ends_fit, edge_fits, refusal as refusal_of};

use plan::{
    EdgeRows, MOST_SECONDS, Refusal, cells, edges, length_for, link_activation, link_finish,
    link_least, link_most, links, observer, plain_marks, points, propositions,
};
use plan_labels::{label_fits, point_labels_fit, well_defined};

// The first refusal that applies; none for an accepted plan.
pub fn refusal(plan: &[u8]) -> Result<(), Refusal>
    ensures { refusal_number result ≡ refusal_of plan.now }
{
    if plan.len() < 4 {
        return Err(Refusal::Length);
    }
    if !sizes_fit(plan) {
        return Err(Refusal::Sizes);
    }
    if !length_fits(plan) {
        return Err(Refusal::Length);
    }
    if !observers_fit(plan) {
        return Err(Refusal::Observer);
    }
    if !point_labels_fit(plan) {
        return Err(Refusal::PointLabel);
    }
    if !links_fit(plan) {
        return Err(Refusal::Link);
    }
    if !edges_fit(plan) {
        return Err(Refusal::Edge);
    }
    if !well_defined(plan) {
        return Err(Refusal::IllDefined);
    }
    Ok(())
}

fn length_fits(plan: &[u8]) -> bool
    ensures { result ≡ length_fits plan.now (plan_of plan.now) }
{
    let end = length_for(plan);
    if plan.len() == end {
        return true;
    }
    plan.len() == end + points(plan)
}

fn sizes_fit(plan: &[u8]) -> bool
    ensures { result ≡ sizes_fit (plan_of plan.now) }
{
    let n = points(plan);
    if n < 2 {
        return false;
    }
    if 32 < n {
        return false;
    }
    if 4 < propositions(plan) {
        return false;
    }
    if 4 < links(plan) {
        return false;
    }
    if 128 < edges(plan) {
        return false;
    }
    cells(plan) <= 16384
}

fn observers_fit(plan: &[u8]) -> bool
    ensures { result ≡ every (observer_fits (plan_of plan.now)) (plan_of plan.now).propositions }
{
    (0..propositions(plan)).all(|j| observer_fits(plan, j))
}

fn observer_fits(plan: &[u8], j: usize) -> bool
    requires { j < 256 }
    ensures { result ≡ observer_fits (plan_of plan.now) j }
{
    let x = observer(plan, j);
    if x == 0 {
        return false;
    }
    if points(plan) <= x {
        return false;
    }
    not_observing(plan, x, j)
}

// Whether no proposition below n is observed at x.
fn not_observing(plan: &[u8], x: usize, n: usize) -> bool
    requires { n ≤ 256 }
    ensures { result ≡ differs (plan_of plan.now).observer x n }
{
    (0..n).all(|j| observer(plan, j) != x)
}

fn links_fit(plan: &[u8]) -> bool
    ensures { result ≡ every (is_link_fit (plan_of plan.now)) (plan_of plan.now).links }
{
    (0..links(plan)).all(|i| link_fits(plan, i))
}

fn link_fits(plan: &[u8], i: usize) -> bool
    requires { i < 256 }
    ensures { result ≡ is_link_fit (plan_of plan.now) i }
{
    if !link_ends_fit(plan, i) {
        return false;
    }
    duration_fits(plan, i)
}

fn link_ends_fit(plan: &[u8], i: usize) -> bool
    requires { i < 256 }
    ensures { result ≡ link_ends_fit (plan_of plan.now) i }
{
    let n = points(plan);
    let a = link_activation(plan, i);
    let c = link_finish(plan, i);
    if n <= a {
        return false;
    }
    if n <= c {
        return false;
    }
    if a == c {
        return false;
    }
    if c == 0 {
        return false;
    }
    if !not_observing(plan, c, propositions(plan)) {
        return false;
    }
    not_finishing(plan, c, i)
}

// Whether no link below n ends at c.
fn not_finishing(plan: &[u8], c: usize, n: usize) -> bool
    requires { n ≤ 256 }
    ensures { result ≡ differs (plan_of plan.now).finish c n }
{
    (0..n).all(|i| link_finish(plan, i) != c)
}

fn duration_fits(plan: &[u8], i: usize) -> bool
    requires { i < 256 }
    ensures { result ≡ duration_fits (plan_of plan.now) i }
{
    let s = link_least(plan, i);
    let y = link_most(plan, i);
    if s == 0 {
        return false;
    }
    if y <= s {
        return false;
    }
    y <= MOST_SECONDS
}

fn edges_fit(plan: &[u8]) -> bool
    requires { (plan_of plan.now).propositions ≤ 4 }
    ensures { result ≡ every (edge_fits plan.now (plan_of plan.now)) (plan_of plan.now).edges }
{
    let marks = plain_marks();
    let rows = EdgeRows::new(plan);
    (0..edges(plan)).all(|i| edge_fits(&rows, &marks, i))
}

fn edge_fits(rows: &EdgeRows, marks: &[u8; 256], i: usize) -> bool
    requires { (i < 256) × ((plan_of rows.now.plan.now).propositions ≤ 4) × Marks marks.now }
    ensures { result ≡ edge_fits rows.now.plan.now (plan_of rows.now.plan.now) i }
{
    if !edge_ends_fit(rows, i) {
        return false;
    }
    if !label_fits(rows.plan, marks, rows.label(i)) {
        return false;
    }
    rows.spare(i) == 0
}

fn edge_ends_fit(rows: &EdgeRows, i: usize) -> bool
    requires { i < 256 }
    ensures { result ≡ edge_ends_fit (plan_of rows.now.plan.now) i }
{
    let n = points(rows.plan);
    let x = rows.from(i);
    let y = rows.to(i);
    if n <= x {
        return false;
    }
    if n <= y {
        return false;
    }
    if x == y {
        return false;
    }
    if MOST_SECONDS < rows.up(i) {
        return false;
    }
    rows.down(i) <= MOST_SECONDS
}
