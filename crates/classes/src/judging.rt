// The classes of a plan's links: refusals 14 and 15, after those of the plan.
ghost use Rattle.std.specs.Prelude.{◌≡◌, ◌<◌, length};
ghost use Rattle.plan.specs.Layout.{plan_of};
ghost use Rattle.plan.specs.Numbers.{refusal_number};
ghost use Rattle.plan.specs.Refusal.{every};
ghost use Rattle.classes.specs.Classes.{house, class_known, classes_fit, wide_enough, class_refusal};

use plan::{Refusal, byte_at, link_least, link_most, links};
use plan_refusal::refusal;

// The house table: the least and the most seconds of class 1, of class 2, and so on.
const HOUSE: [(u64, u64); 6] = [(10, 90), (5, 60), (2, 25), (15, 120), (60, 300), (8, 45)];

fn classes_known(classes: &[u8]) -> bool
    ensures { result ≡ every (class_known house classes.now) (length classes.now) }
{
    classes
        .iter()
        .all(|&class| usize::from(class) <= HOUSE.len())
}

fn classes_fit(plan: &[u8], classes: &[u8]) -> bool
    ensures { result ≡ classes_fit house (plan_of plan.now) classes.now }
{
    classes.len() == links(plan) && classes_known(classes)
}

// A class past the table's end, which 14 turns down before, has no seconds.
fn wide_enough(plan: &[u8], classes: &[u8], i: usize) -> bool
    requires { i < 256 }
    ensures { result ≡ wide_enough house (plan_of plan.now) classes.now i }
{
    let class = byte_at(classes, i);
    if class == 0 {
        return true;
    }
    let (least, most) = HOUSE.get(class - 1).copied().unwrap_or_default();
    link_least(plan, i) <= least && most <= link_most(plan, i)
}

fn links_wide_enough(plan: &[u8], classes: &[u8]) -> bool
    ensures { result ≡ every (wide_enough house (plan_of plan.now) classes.now) (plan_of plan.now).links }
{
    (0..links(plan)).all(|i| wide_enough(plan, classes, i))
}

// The first refusal that applies: of the plan, 14 or 15; none for a plan that passes.
pub fn class_refusal(plan: &[u8], classes: &[u8]) -> Result<(), Refusal>
    ensures { refusal_number result ≡ class_refusal house plan.now classes.now }
{
    refusal(plan)?;
    if !classes_fit(plan, classes) {
        return Err(Refusal::ClassList);
    }
    if !links_wide_enough(plan, classes) {
        return Err(Refusal::NarrowLink);
    }
    Ok(())
}
