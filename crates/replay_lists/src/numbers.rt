// A file, and the numbers in it, by their bits.
use little_endian::bits::number_of;
use little_endian::bytes::u64s_at;
use sheet_file::read_file;
use std::array;
use std::io::AsBytes;
use std::rt::Files;

// The bytes of a file of N bytes; none where it has another length or cannot be read. An array and no `Vec`: so a file of any length is refused
// without a heap.
pub(crate) fn read_array<R: Files, const N: usize>(
    rt: &R,
    path: impl AsBytes + Drop,
) -> Option<[u8; N]> {
    let mut bytes = [0; N];
    match read_file(rt, path.as_byte_slice(), &mut bytes) {
        Ok(n) if n == N => Some(bytes),
        _ => None,
    }
}

// The bit patterns from a place on: a run and a place, since a record has several runs of numbers.
pub(crate) fn bits_at<const N: usize>(s: &[u8], at: usize) -> [u64; N] {
    let mut bits = [0; N];
    u64s_at(s, at, &mut bits);
    bits
}

// The numbers from a place on.
pub(crate) fn numbers_at<const N: usize>(s: &[u8], at: usize) -> [f64; N] {
    let bits: [u64; N] = bits_at(s, at);
    array::from_fn(|i| number_of(bits[i]))
}
