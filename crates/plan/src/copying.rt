// Copying between slices.
ghost use Rattle.std.specs.Prelude.{◌≡◌, length};

// A slice made what another of its length is. By a loop, since `copy_from_slice` calls the C library's `memmove`, and a caller in C is to need its `memset` alone.
pub fn copy_elements<T: Copy>(target: &mut [T], source: &[T])
    requires { length target.old ≡ length source.now }
    ensures { target.new ≡ source.now }
{
    for i in 0..source.len() {
        target[i] = source[i];
    }
}
