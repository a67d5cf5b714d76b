// Octets that are stored at a place, as many at once as a type says.
ghost use Rattle.std.specs.Prelude.{◌≡◌, ℕ, ◌+◌, ◌≤◌, ◌++◌, ◌∷◌, [], length, take};
ghost use Rattle.link_text.specs.Laid.{Lays};

// Stores the octets from `at` on. However many of them count, they stand behind the text in front of them.
#[inline(always)]
pub(crate) fn store<const N: usize>(octets: &mut [u8], at: usize, piece: [u8; N])
    requires { at + N ≤ length octets.old }
    ensures { (count : ℕ) → count ≤ N
        → take (at + count) octets.new ≡ take at octets.old ++ take count piece.entry }
{
    octets[at..at + N].copy_from_slice(&piece);
}

// Lays one octet out.
#[inline(always)]
pub(crate) fn put_octet(octets: &mut [u8], at: usize, octet: u8) -> usize
    requires { at + 1 ≤ length octets.old }
    ensures { Lays (octet ∷ []) octets.old at octets.new result }
{
    octets[at] = octet;
    at + 1
}
