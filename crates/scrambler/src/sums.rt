//! Sums of bits, as the generator makes them: each is zero or one.
ghost use Rattle.std.specs.Prelude.{◌≡◌, ◌%◌, bit_and, count_ones};
ghost use Rattle.std.specs.Int.{from_bool};

// The sum of the bits of a word that a row picks.
pub(crate) fn picked_sum(word: u32, row: u32) -> bool
    ensures { from_bool result ≡ count_ones (bit_and word row) % 2 }
{
    (word & row).count_ones() % 2 == 1
}
