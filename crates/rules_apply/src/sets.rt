// Link sets: bit i for link i.
ghost use Rattle.std.specs.Prelude.{◌≡◌, ◌<◌};
ghost use Rattle.plan.specs.LinkSet as sets;

pub fn contains(set: usize, i: usize) -> bool
    requires { i < 64 }
    ensures { result ≡ sets.contains set i }
{
    set >> i & 1 == 1
}

pub fn union(a: usize, b: usize) -> usize
    ensures { result ≡ sets.union a b }
{
    a | b
}

pub fn insert(set: usize, i: usize) -> usize
    requires { i < 64 }
    ensures { result ≡ sets.insert set i }
{
    union(set, 1 << i)
}

pub fn remove(set: usize, i: usize) -> usize
    requires { i < 64 }
    ensures { result ≡ sets.remove set i }
{
    set & !(1 << i)
}
