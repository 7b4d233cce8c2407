// Labels in code: a label of at most four digits is a number below 256, and joining two is `|`.
ghost use Rattle.std.specs.Prelude.{◌≡◌, ℕ, ◌<◌, ◌^◌};
ghost use Rattle.plan.specs.Label.{digit as digit_of, join as join_of, plain, clear_digit, Marks};

// Whether a label byte is plain, by the table of marks, lent so that loops do not rebuild it.
pub fn is_plain(marks: &[u8; 256], label: usize) -> bool
    requires { Marks marks.now × (label < 256) }
    ensures { result ≡ plain 4 label }
{
    marks[label] == 1
}

pub fn join(a: usize, b: usize) -> usize
    ensures { (p : ℕ) → a < 4 ^ p → b < 4 ^ p → result ≡ join_of p a b }
{
    a | b
}

pub fn digit(label: usize, j: usize) -> usize
    requires { j < 4 }
    ensures { result ≡ digit_of label j }
{
    label >> (2 * j) & 3
}

pub fn clear_digit(label: usize, j: usize) -> usize
    requires { (j < 4) × (label < 256) }
    ensures { result ≡ clear_digit label j }
{
    label - (digit(label, j) << (2 * j))
}
