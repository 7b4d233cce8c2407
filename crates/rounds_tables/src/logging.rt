// The log of a round: an entry for each cell that it raised, by cell, and a 0 at the end. From it a listing could be written without making the rounds again; nothing keeps one yet.
ghost use Rattle.std.specs.Prelude.{List, [], ◌∷◌, ◌++◌, ℕ, ◌+◌, ◌*◌, ◌≤◌, length};
ghost use Rattle.plan.specs.Moments.{SameLength};
ghost use Rattle.rounds_tables.specs.Log.{raised_entries, round_entries, Logged, LogGrew, CellLogLent, PointLogLent, LogLent};

// One more entry, if the log has room; gives the number of entries.
fn push(log: &mut [u64], at: usize, entry: u64) -> usize
    requires { at ≤ length log.old }
    ensures by_index { (es : List ℕ) → Logged es log.old at → Logged (es ++ (entry ∷ [])) log.new result }
    ensures upper_bound { result ≤ length log.new }
    ensures same_length { SameLength log }
{
    if at < log.len() {
        log[at] = entry;
        return at + 1;
    }
    at
}

// The entry of cell c, if the round raised it.
fn log_cell(first: &[u32], second: &[u32], log: &mut [u64], at: usize, c: usize) -> usize
    requires { CellLogLent first.now second.now log.old at c }
    ensures log_grew { LogGrew (raised_entries first.now second.now c) (raised_entries first.now second.now (c + 1)) log.old at log.new result }
    ensures same_length { SameLength log }
{
    if first[c] < second[c] {
        return push(log, at, u64::from(second[c]) * 65536 + c as u64);
    }
    at
}

// The entries of point x.
fn log_point(
    first: &[u32],
    second: &[u32],
    log: &mut [u64],
    at: usize,
    width: usize,
    x: usize,
) -> usize
    requires { PointLogLent width first.now second.now log.old at (x * width) }
    ensures log_grew { LogGrew (raised_entries first.now second.now (x * width)) (raised_entries first.now second.now (x * width + width)) log.old at log.new result }
    ensures same_length { SameLength log }
{
    let start = x * width;
    let mut end = at;
    for t in 0..width {
        end = log_cell(first, second, log, end, start + t);
    }
    end
}

// The entries of a round from the first table to the second. A point without notes has none. An empty log stays empty.
pub fn log_round(
    first: &[u32],
    second: &[u32],
    noted: &[usize],
    log: &mut [u64],
    at: usize,
    points: usize,
    width: usize,
) -> usize
    requires { LogLent points width first.now second.now noted.now log.old at }
    ensures by_index { (es : List ℕ) → Logged es log.old at → Logged (es ++ round_entries first.now second.now (points * width)) log.new result }
    ensures upper_bound { result ≤ length log.new }
    ensures same_length { SameLength log }
{
    if log.is_empty() {
        return at;
    }
    let mut end = at;
    for (x, &raised) in noted[..points].iter().enumerate() {
        if raised != 0 {
            end = log_point(first, second, log, end, width, x);
        }
    }
    push(log, end, 0)
}
