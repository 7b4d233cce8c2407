// The C calls of the check, plain and by classes, and of replay.
ghost use Rattle.plan.specs.Moments.{moments};
ghost use Rattle.classes.specs.Classes.{house};
ghost use Rattle.replay.specs.AfterReplay.{AfterReplay};
ghost use Rattle.interface.specs.Calls.{AfterCheckCall, AfterCheckClassesCall};

use crate::answers::{code, put_count};
use classes::check_classes;
use replay::replay;
use rounds::check;

// The check: the answer's code, and in rounds[0] the count.
#[unsafe(no_mangle)]
pub extern "C" fn sulgrach_check(
    plan: &[u8],
    first: &mut [u32],
    second: &mut [u32],
    limit: u64,
    rounds: &mut [u64],
) -> u32
    ensures { AfterCheckCall plan.now limit (moments first) (moments second) (moments rounds) result }
{
    let answered = check(plan, first, second, limit);
    put_count(rounds, answered);
    code(answered)
}

// The check by classes: the answer's code, and in rounds[0] the count.
#[unsafe(no_mangle)]
pub extern "C" fn sulgrach_check_classes(
    plan: &[u8],
    classes: &[u8],
    first: &mut [u32],
    second: &mut [u32],
    limit: u64,
    rounds: &mut [u64],
) -> u32
    ensures { AfterCheckClassesCall house plan.now classes.now limit (moments first) (moments second) (moments rounds) result }
{
    let answered = check_classes(plan, classes, first, second, limit);
    put_count(rounds, answered);
    code(answered)
}

// Replay: 0 where the listing is a derivation to "the first alarm waits for itself", else the number of the refusal.
#[unsafe(no_mangle)]
pub extern "C" fn sulgrach_replay(plan: &[u8], listing: &[u8]) -> u32
    ensures { AfterReplay plan.now listing.now result }
{
    match replay(plan, listing) {
        Ok(()) => 0,
        Err(refusal) => u32::from(refusal),
    }
}
