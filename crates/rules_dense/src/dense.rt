// Rules 4 and 6 of a row, in the way that takes fewer steps.
ghost use Rattle.std.specs.Prelude.{◌≡◌, ◌+◌, ◌≤◌, ◌<◌};
ghost use Rattle.plan.specs.Moments.{SameLength};
ghost use Rattle.rules_fill.specs.Cells.{Run};
ghost use Rattle.rules_listed.specs.Rows.{PointRows};
ghost use Rattle.rules_listed.specs.Parts.{SamePart};
ghost use Rattle.rules_listed.specs.Listed.{PairsRest, remove_by};
ghost use Rattle.rules_halving.specs.Products.{Product};
ghost use Rattle.rules_dense.specs.Gathered.{Room, NoWaits};
ghost use Rattle.rules_dense.specs.Frees.{FreeOf};
ghost use Rattle.rules_dense.specs.Lent.{HalvesLent};

use crate::gather::{Free, gather_others, gather_own, gather_part, spread_part};
use rules_fill::Remover;
use rules_halving::halve;
use rules_listed::{Part, Table};

// All pairs of the first n waits of two runs, given to a third.
fn give_pairs(own: &[u32], others: &mut [u32], given: &mut [u32], n: usize)
    requires { Room n own.now others.old given.old }
    ensures product { Product n own.now others.old 0 given.old given.new }
    ensures same_length { SameLength others × SameLength given }
{
    halve(&own[..n], others, 0, &mut given[..n], n, n);
}

// From all cells of both points, with room for their waits and for those of the part.
fn remove_in_room(
    table: &Table,
    by: Remover,
    free: Free,
    own: &mut [u32],
    others: &mut [u32],
    given: &mut [u32],
    part: &mut Part,
)
    requires remove_lent { HalvesLent table.now by part.old }
    requires free_of { FreeOf by.mask table.now.width free × Room free.count own.old others.old given.old × NoWaits free.count own.old }
    ensures cells_value { part.new.cells.now ≡ remove_by table.now by part.old.point part.old.cells.now }
    ensures same_part { SamePart part.old part.new }
{
    gather_own(table.first, part.point * table.width, own, free);
    gather_others(
        table.first,
        by.other * table.width,
        others,
        free,
        by.add as u32,
    );
    gather_part(part, given, free);
    give_pairs(own, others, given, free.count);
    spread_part(given, free, part);
}

// In rooms for N places and for M, twice as many, so that few places pay nothing for many.
fn remove_in_rooms<const N: usize, const M: usize>(
    table: &Table,
    by: Remover,
    free: Free,
    part: &mut Part,
)
    requires remove_lent { HalvesLent table.now by part.old }
    requires free_of { FreeOf by.mask table.now.width free }
    requires rooms { (free.count ≤ N) × (N + N ≤ M) × (M ≤ 4096) }
    ensures cells_value { part.new.cells.now ≡ remove_by table.now by part.old.point part.old.cells.now }
    ensures same_part { SamePart part.old part.new }
{
    let mut own = [0u32; N];
    let mut others = [0u32; M];
    let mut given = [0u32; N];
    remove_in_room(table, by, free, &mut own, &mut others, &mut given, part);
}

// From all cells of both points, of which at most 2,048 places have none of the row's bits.
fn remove_by_halves(table: &Table, by: Remover, free: Free, part: &mut Part)
    requires remove_lent { HalvesLent table.now by part.old }
    requires free_of { FreeOf by.mask table.now.width free × (free.count ≤ 2048) }
    ensures cells_value { part.new.cells.now ≡ remove_by table.now by part.old.point part.old.cells.now }
    ensures same_part { SamePart part.old part.new }
{
    if free.count <= 64 {
        remove_in_rooms::<64, 128>(table, by, free, part);
    } else {
        remove_in_rooms::<2048, 4096>(table, by, free, part);
    }
}

// The steps of a row by halves, about: for b bits some 3^b; none is taken where there is no room.
fn steps_by_halves(n: usize) -> usize
    ensures { result < 1000000000 → n ≤ 2048 }
{
    match n {
        0..=16 => 162,
        17..=32 => 486,
        33..=64 => 1458,
        65..=128 => 4374,
        129..=256 => 13122,
        257..=512 => 39366,
        513..=1024 => 118098,
        1025..=2048 => 354294,
        _ => 1000000000,
    }
}

// The pairs of a and b, about: of each no more than 4,096, so that the product fits.
fn few_pairs(a: usize, b: usize) -> usize
    ensures { result ≤ 16777216 }
{
    a.min(4096) * b.min(4096)
}

// The pairs of which one is raised, about.
fn raised_pairs(table: &Table, x: usize, other: usize) -> usize
    requires { PointRows table.now x × PointRows table.now other }
    ensures { result ≤ 33554432 }
{
    few_pairs(table.raised(x).len(), table.lines(other).len())
        + few_pairs(table.raised(other).len(), table.lines(x).len())
}

fn free_places(width: usize, by: Remover) -> Free
    requires { Run by.low by.mask width × (width ≤ 65536) }
    ensures { FreeOf by.mask width result }
{
    let times = by.mask / by.low + 1;
    Free {
        count: width / times,
        low: by.low,
        times,
    }
}

// Rules 4 and 6 of a row of the part's point. Few pairs are tried one by one.
pub fn remove_row(table: &Table, by: Remover, part: &mut Part)
    requires remove_lent { HalvesLent table.now by part.old }
    requires run { Run by.low by.mask table.now.width }
    requires remove_rest { PairsRest table.now by part.old }
    ensures cells_value { part.new.cells.now ≡ remove_by table.now by part.old.point part.old.cells.now }
    ensures same_part { SamePart part.old part.new }
{
    let pairs = raised_pairs(table, part.point, by.other);
    if 2 * table.width < pairs {
        let free = free_places(table.width, by);
        if steps_by_halves(free.count) < pairs {
            remove_by_halves(table, by, free, part);
            return;
        }
    }
    table.remove_pairs(by, part);
}
