// How long a number is as text.
ghost use Rattle.std.specs.Prelude.{◌≡◌, ◌+◌, ◌≤◌, length};
ghost use Rattle.text.specs.Decimal.{decimal};

// How many digits a number has.
pub fn decimal_length(n: usize) -> usize
    ensures { (result ≡ length (decimal n)) × (result ≤ n + 1) }
{
    match n.checked_ilog10() {
        Some(tens) => tens as usize + 1,
        None => 1,
    }
}
