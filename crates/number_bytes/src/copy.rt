// Bytes as they are.
ghost use Rattle.std.specs.Prelude.{◌≡◌, ◌+◌, ◌≤◌, length, take, drop};
ghost use Rattle.std.proofs.lemmas.List.Edits.{sets};

// The n bytes of `from` that start there become those of `to` from `at` on. A loop: the library's copy of a length that is not known
// calls memmove, which the caller's C library would have to bring, and which takes longer for the few bytes of a field.
pub fn copy_bytes(from: &[u8], start: usize, n: usize, to: &mut [u8], at: usize)
    requires n_in_bounds { start + n ≤ length from.now }
    requires n_in_bounds_2 { at + n ≤ length to.old }
    ensures { to.new ≡ sets to.old at (take n (drop start from.now)) }
{
    for i in 0..n {
        to[at + i] = from[start + i];
    }
}
