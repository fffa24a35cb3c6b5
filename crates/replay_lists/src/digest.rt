// The digest of a run of numbers: two polynomials over the halves of their bits, so that one changed bit always changes it.
//
// For each number first the upper half of its 64 bits, then the lower: a = (a * A + half) mod M, b = (b * B + half) mod M, both from 0 on.
// The digest is a * 2^32 + b. What is not a number has the bits 7FF8000000000000.

use little_endian::bits::bits_of;

// A prime: no power of 2 is a multiple of it.
const M: u64 = 0x7fff_ffff;

const A: u64 = 1_103_515_245;

const B: u64 = 1_566_083_941;

// Both polynomials so far.
#[derive(Clone, Copy)]
struct Sums {
    a: u32,
    b: u32,
}

impl Sums {
    // With the lower half of 64 bits.
    fn add_half(self, half: u64) -> Sums {
        let h = half % 0x1_0000_0000;
        Sums {
            a: ((u64::from(self.a) * A + h) % M) as u32,
            b: ((u64::from(self.b) * B + h) % M) as u32,
        }
    }

    fn add_number(self, x: f64) -> Sums {
        let bits = bits_of(x);
        self.add_half(bits >> 32).add_half(bits)
    }
}

pub(crate) fn digest(numbers: &[f64]) -> u64 {
    let zero = Sums { a: 0, b: 0 };
    let sums = numbers.iter().fold(zero, |sums, x| sums.add_number(*x));
    u64::from(sums.a) << 32 | u64::from(sums.b)
}
