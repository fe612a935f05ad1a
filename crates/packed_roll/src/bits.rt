ghost use Rattle.std.specs.Prelude.{◌≡◌, ◌<◌};
ghost use Rattle.packed_roll.specs.Words.{LowestFrom, bit};

// Whether bit j of the word is set.
pub(crate) fn has_bit(word: u64, j: u32) -> bool
    requires { j < 64 }
    ensures { result ≡ bit word j }
{
    (word >> j) % 2 == 1
}

// The lowest bit of the word, at or after bit j, that is set, or none.
pub(crate) fn lowest_bit(word: u64, j: u32) -> Option<u32>
    requires { j < 64 }
    ensures { LowestFrom word j result }
{
    let rest = word >> j;
    if rest == 0 {
        None
    } else {
        Some(j + rest.trailing_zeros())
    }
}
