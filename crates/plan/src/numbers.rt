// The numbers that a table holds.
ghost use Rattle.std.specs.Prelude.{◌≡◌, ◌<◌, length, get_or};

// The number that a table holds in a cell.
pub fn cell_at(table: &[u32], c: usize) -> u64
    requires { c < length table.now }
    ensures { (result ≡ get_or table.now c 0) × (result < 4294967296) }
{
    u64::from(table[c])
}
