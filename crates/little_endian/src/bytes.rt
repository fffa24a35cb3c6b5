// Whole numbers in bytes, lowest byte first. Bytes past the end read as 0; a write that does not fit changes nothing. So each function answers for every
// place: no public function has a condition on its values (docs/DECISIONS.md). No `None`: whoever reads a file tests its length before, as the layout
// of a sheet asks. A run and a place in it are two parameters, since callers read tables by places.
ghost use Rattle.std.specs.Prelude.{◌≡◌, ℕ, ◌+◌, ◌<◌, length};
ghost use Rattle.little_endian.specs.Bytes.{byte_at, u32_at, u64_at, u64s_at, with_u32};

// The u32 in the four bytes from a place on.
pub fn u32_at(s: &[u8], at: usize) -> u32
    ensures { result ≡ u32_at s.now at }
{
    u32::from_le_bytes(bytes_at(s, at))
}

// The u64 in the eight bytes from a place on. One line for each width: a trait over both would be longer than these.
pub fn u64_at(s: &[u8], at: usize) -> u64
    ensures { result ≡ u64_at s.now at }
{
    u64::from_le_bytes(bytes_at(s, at))
}

// The u64s from a place on, as many as `out` has places. The bytes by the index: after a `zip` with `iter_mut` nothing is known of what was written.
pub fn u64s_at(s: &[u8], at: usize, out: &mut [u64])
    ensures { out.new ≡ u64s_at (length out.old) s.now at }
{
    let rest = s.get(at..).unwrap_or(&[]);
    for (i, x) in out.iter_mut().enumerate() {
        *x = u64_at(rest, 8 * i);
    }
}

// A u32 into the four bytes from a place on.
pub fn put_u32(s: &mut [u8], at: usize, n: u32)
    ensures { s.new ≡ with_u32 s.old at n }
{
    if 4 <= s.len() && at <= s.len() - 4 {
        s[at..at + 4].copy_from_slice(&n.to_le_bytes());
    }
}

// N bytes from a place on; those past the end are 0.
fn bytes_at<const N: usize>(s: &[u8], at: usize) -> [u8; N]
    ensures { (i : ℕ) → i < N → byte_at result i ≡ byte_at s.now (at + i) }
{
    let Some(rest) = s.get(at..) else {
        return [0; N];
    };
    if let Some(bytes) = rest.first_chunk() {
        return *bytes;
    }
    let mut bytes = [0; N];
    bytes[..rest.len()].copy_from_slice(rest);
    bytes
}
