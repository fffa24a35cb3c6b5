// Numbers by the bits of their format, binary64. `number_of` and `bits_of` are short names for the library's long ones.
ghost use Rattle.std.specs.Prelude.{◌≡◌};
ghost use Rattle.std.specs.Float.{binary64};
ghost use Rattle.std.specs.Float.Ieee.{of_bits, to_bits};
ghost use Rattle.little_endian.specs.Bits.{with_numbers};

use std::num::{f64_from_bits_with_nan, f64_to_bits_with_nan};

// The number of a bit pattern; the patterns of what is not a number give one such.
pub fn number_of(bits: u64) -> f64
    ensures { result ≡ of_bits binary64 bits }
{
    f64_from_bits_with_nan(bits)
}

// The bits of a number; all that are not numbers have one pattern.
pub fn bits_of(x: f64) -> u64
    ensures { result ≡ to_bits binary64 x }
{
    f64_to_bits_with_nan(x)
}

// The numbers of bit patterns; where `out` is of another length it stays: no public function has a condition on its values (docs/DECISIONS.md).
#[tactic(auto, unfolding(crate::specs::Bits::with_numbers, crate::specs::Bits::numbers_of))]
pub fn numbers_of(bits: &[u64], out: &mut [f64])
    ensures { out.new ≡ with_numbers bits.now out.old }
{
    if out.len() != bits.len() {
        return;
    }
    // `bits` by index: after a `zip` with `iter_mut` nothing is known of what was written.
    for (i, x) in out.iter_mut().enumerate() {
        *x = number_of(bits[i]);
    }
}
