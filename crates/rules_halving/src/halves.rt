// Of two runs of n waits, n a power of 2, each pair (a, b) gives the lesser of its waits to place a | b of a third run, whose cells it raises.
ghost use Rattle.std.specs.Prelude.{◌≡◌, ℕ, ◌<◌, min, max, length, take, fold};
ghost use Rattle.std.specs.Int.Bits.{bit_or};
ghost use Rattle.plan.specs.Moments.{SameLength};
ghost use Rattle.rules_fill.specs.Steps.{steps};
ghost use Rattle.rules_halving.specs.Products.{HalveLent, Product, JoinLent, Joined, PairsLent, NothingNew, step_of_pair};

// The greatest of some waits.
fn greatest(cells: &[u32]) -> u32
    ensures { result ≡ fold max 0 cells.now }
{
    // Tried as a fold of the slice: `halve` took 3 in 100 more time, and the check may not get slower.
    let mut most = 0;
    for &wait in cells {
        most = wait.max(most);
    }
    most
}

// The least of some waits.
fn least(cells: &[u32]) -> u32
    ensures { result ≡ fold min 4294967295 cells.now }
{
    let mut least = u32::MAX; // no fold, as in `greatest`
    for &wait in cells {
        least = wait.min(least);
    }
    least
}

// Whether no pair gives more than the third run holds.
fn nothing_new(f: &[u32], g: &[u32], h: &[u32]) -> bool
    requires { PairsLent (length f.now) f.now g.now 0 h.now }
    ensures { NothingNew (length f.now) f.now g.now 0 h.now result }
{
    greatest(f).min(greatest(g)) <= least(h)
}

// What wait f at place a gives with each of the second run.
fn pairs_of(f: u32, a: usize, g: &[u32], h: &mut [u32])
    requires { (b : ℕ) → b < length g.now → bit_or a b < length h.old }
    ensures h_value { h.new ≡ steps (step_of_pair f g.now 0 a) (length g.now) h.old }
    ensures same_length { SameLength h }
{
    for (b, &wait) in g.iter().enumerate() {
        let c = a | b;
        h[c] = h[c].max(f.min(wait));
    }
}

// All pairs, one by one.
fn pairs(f: &[u32], g: &[u32], h: &mut [u32])
    requires { PairsLent (length f.now) f.now g.now 0 h.old × (length g.now ≡ length f.now) }
    ensures product { Product (length f.now) f.now g.now 0 h.old h.new }
    ensures same_length { SameLength h }
{
    for (a, &wait) in f.iter().enumerate() {
        pairs_of(wait, a, g, h);
    }
}

// The greater of each two waits in two runs of n, laid down at `top`.
fn join_runs(g: &mut [u32], from: usize, n: usize, top: usize)
    requires { JoinLent g.old from n top }
    ensures joined { Joined g.old from n top g.new }
    ensures same_length { SameLength g }
{
    // all three runs lie in one slice, which an index serves and iterators would have to split three ways
    for i in 0..n {
        g[top + i] = g[from + i].max(g[from + n + i]);
    }
}

// All pairs by halves: pairs of two lower halves give to the lower half of the third run, all others to its upper half; there the upper half of the first
// run meets both halves of the second at once. So it takes three halves in place of four. A run that can raise nothing is passed over.
pub fn halve(f: &[u32], g: &mut [u32], from: usize, h: &mut [u32], n: usize, top: usize)
    requires { HalveLent n f.now g.old from h.old top }
    ensures product { Product n f.now g.old from h.old h.new }
    ensures g_value { take top g.new ≡ take top g.old }
    ensures same_length { SameLength g × SameLength h }
{
    let run = &g[from..from + n];
    if n <= 4 {
        pairs(f, run, h);
        return;
    }
    if nothing_new(f, run, h) {
        return;
    }
    let z = n / 2;
    let mid = from + z;
    halve(&f[..z], g, from, &mut h[..z], z, top);
    halve(&f[..z], g, mid, &mut h[z..], z, top);
    join_runs(g, from, z, top);
    halve(&f[z..], g, top, &mut h[z..], z, top + z);
}
