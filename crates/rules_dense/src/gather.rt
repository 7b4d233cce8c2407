// The cells of a point's places without a row's bits, side by side, and back. The z-th of these places is z with the row's bits, all 0, put in.
ghost use Rattle.std.specs.Prelude.{◌≡◌, ◌+◌, ◌-◌, ◌*◌, ◌≤◌, ◌<◌, length};
ghost use Rattle.plan.specs.Moments.{SameLength};
ghost use Rattle.rules_fill.specs.Steps.{steps};
ghost use Rattle.rules_fill.specs.Parts.{AtMost};
ghost use Rattle.rules_listed.specs.Parts.{SamePart};
ghost use Rattle.rules_dense.specs.Gathered as gathered;
ghost use Rattle.rules_dense.specs.Gathered.{FreeRun, PlacesIn, Filled};

use rules_listed::Part;

// The places without the row's bits: how many there are, the lowest of the row's bits, and by how much a place above these bits lies further up.
#[derive(Clone, Copy)]
pub struct Free {
    pub count: usize,
    pub low: usize,
    pub times: usize,
    ghost run: { ∥ FreeRun low times count ∥₁ },
}

impl Free {
    // The z-th place without the row's bits.
    fn place(self, z: usize) -> usize
        requires { z < self.count }
        ensures { (result ≡ gathered.free_place self.low self.times z) × (result < self.times * self.count) }
    {
        let r = z & (self.low - 1);
        (z - r) * self.times + r
    }
}

// The waits of point x's places that have the row's bits at value m, where they are greater.
fn gather_value(first: &[u32], base: usize, own: &mut [u32], free: Free, m: usize)
    requires m_in { m < free.times }
    requires places_in { PlacesIn first.now base free.times free.count × (free.count ≤ length own.old) }
    ensures own_value { own.new ≡ steps (gathered.own_step first.now base free.low free.times m) free.count own.old }
    ensures same_length { SameLength own }
{
    let start = base + m * free.low;
    for (z, wait) in own[..free.count].iter_mut().enumerate() {
        *wait = (*wait).max(first[start + free.place(z)]);
    }
}

// For each place without the row's bits the greatest wait of point x's places that have one of these bits and else are the same; the run is 0 before.
pub fn gather_own(first: &[u32], base: usize, own: &mut [u32], free: Free)
    requires places_in { PlacesIn first.now base free.times free.count × (free.count ≤ length own.old) }
    ensures own_value { own.new ≡ steps (gathered.own_value first.now base free.low free.times free.count) (free.times - 1) own.old }
    ensures same_length { SameLength own }
{
    for m in 1..free.times {
        gather_value(first, base, own, free, m);
    }
}

// A wait with the row's addition, if there is one.
fn added(wait: u32, add: u32) -> u32
    requires { wait + add < 4294967296 }
    ensures { result ≡ gathered.added add wait }
{
    if 0 < wait {
        return wait + add;
    }
    0
}

// The waits of the other point, with the row's addition where there is a line, as at place 0.
pub fn gather_others(first: &[u32], base: usize, others: &mut [u32], free: Free, add: u32)
    requires small { AtMost 4000000000 first.now × (add < 65536) }
    requires places_in { PlacesIn first.now base free.times free.count × (free.count ≤ length others.old) }
    ensures filled { Filled (gathered.other_wait first.now base free.low free.times add) free.count others.new }
    ensures same_length { SameLength others }
{
    for (z, wait) in others[..free.count].iter_mut().enumerate() {
        *wait = added(first[base + free.place(z)], add);
    }
    others[0] = first[base] + add;
}

// The waits of the part.
pub fn gather_part(part: &Part, given: &mut [u32], free: Free)
    requires { PlacesIn part.now.cells.now 0 free.times free.count × (free.count ≤ length given.old) }
    ensures filled { Filled (gathered.part_wait part.now.cells.now free.low free.times) free.count given.new }
    ensures same_length { SameLength given }
{
    for (z, wait) in given[..free.count].iter_mut().enumerate() {
        *wait = part.cells[free.place(z)];
    }
}

// The part raised to the waits given.
pub fn spread_part(given: &[u32], free: Free, part: &mut Part)
    requires room { (free.times * free.count ≡ length part.old.own.now) × (free.count ≤ length given.now) }
    ensures cells_value { part.new.cells.now ≡ steps (gathered.spread_step given.now free.low free.times) free.count part.old.cells.now }
    ensures same_part { SamePart part.old part.new }
{
    for (z, &wait) in given[..free.count].iter().enumerate() {
        part.raise(free.place(z), u64::from(wait));
    }
}
