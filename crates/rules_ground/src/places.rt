// The places that have no bit outside a mask, in increasing order.
ghost use Rattle.rules_ground.specs.Places.{Walked, Next};

// The next place after t that has no bit outside the mask, or the end where there is none.
pub fn next_within(t: usize, mask: usize, end: usize) -> usize
    requires { Walked t mask end }
    ensures { Next t mask end result }
{
    let next = (t + (end - mask)) & mask;
    if next <= t {
        return end;
    }
    next
}
