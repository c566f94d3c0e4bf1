// Entries of one table copied into another.
ghost use Rattle.std.specs.Prelude.{◌≡◌, length};

// As `copy_from_slice`, by a loop: the library's method compiles to a call of `memmove`, and the archive for C asks for `memcpy` and `memset` alone.
pub fn copy<T: Copy>(from: &[T], into: &mut [T])
    requires { length from.now ≡ length into.old }
    ensures { into.new ≡ from.now }
{
    for (i, entry) in from.iter().enumerate() {
        into[i] = *entry;
    }
}
