// Functions below the calls whose bits no call shows, against the original's.
use crate::numbers::{bits_at, numbers_at};
use crate::tally::{OfValues, Tally, unread};
use drifters_adjoint::adjoint::integrated_adjoint;
use drifters_core::math::vec3::Vec3;
use drifters_lie::lie::Se3Tangent;
use drifters_matrix::math::matrix::{Mat3, Mat21, Vector3};
use little_endian::bits::bits_of;
use sheet_file::read_file;
use std::io;
use std::rt::Files;

// A record has six numbers, and the 36 of a result after them.
const NUMBERS_BYTES: usize = 8 * 6;

const RECORD_BYTES: usize = NUMBERS_BYTES + 8 * 36;

// The most bytes of a file: 64 records.
const MOST_BYTES: usize = RECORD_BYTES * 64;

// The product of two vectors, one of them transposed. The places that a result does not fill are 0.
fn mul_transpose(v: [f64; 6]) -> [f64; 36] {
    let a = Vector3::from(Vec3::new(v[0], v[1], v[2]));
    let b = Vector3::from(Vec3::new(v[3], v[4], v[5]));
    let mut out = [0.0; 36];
    let m: Mat3 = a.mul_transpose(&b);
    out[..9].copy_from_slice(&m.data);
    out
}

// One number as a result.
fn single(x: f64) -> [f64; 36] {
    let mut out = [0.0; 36];
    out[0] = x;
    out
}

// The largest magnitude in a vector of the first three numbers.
fn amax(v: [f64; 6]) -> [f64; 36] {
    single(Vec3::new(v[0], v[1], v[2]).amax())
}

// The largest magnitude in a matrix that begins with six numbers; the rest are 0.
fn matrix_amax(v: [f64; 6]) -> [f64; 36] {
    let mut data = [0.0; 441];
    data[..6].copy_from_slice(&v);
    let m = Mat21 { data };
    single(m.amax())
}

// Counts the records of a function in whose file it gives other bits than are stored beside its numbers.
fn run_leaf<F: Fn([f64; 6]) -> [f64; 36]>(leaf: F, s: &[u8]) -> Tally
    requires { F.IsAlwaysCallable leaf }
{
    let mut tally = Tally::default();
    for record in s.chunks_exact(RECORD_BYTES) {
        let stored: [u64; 36] = bits_at(record, NUMBERS_BYTES);
        tally.count(Ok(None), leaf(numbers_at(record, 0)).map(bits_of) == stored);
    }
    tally
}

// Replays the records of a file.
fn replay_leaf<R: Files + Print, F: Fn([f64; 6]) -> [f64; 36]>(
    rt: &R,
    name: &str,
    path: &str,
    leaf: F,
) -> io::Result<()>
    requires { F.IsAlwaysCallable leaf }
{
    let mut s = [0; MOST_BYTES];
    match read_file(rt, path.as_bytes(), &mut s) {
        Ok(n) if n != 0 => {
            let tally = OfValues(run_leaf(leaf, &s[..n]));
            println!(rt; "{name}: {tally}")
        }
        _ => {
            unread(rt, name)?;
            Ok(())
        }
    }
}

// Replays every file of values.
pub fn replay_leaves<R: Files + Print>(rt: &R) -> io::Result<()> {
    for (name, path) in [
        ("integrated_adjoint", "adjoint.bin"),
        ("integrated_adjoint, amax 2^60", "adjoint60.bin"),
        ("integrated_adjoint, amax 2^61", "adjoint61.bin"),
        ("integrated_adjoint, terms", "adjoint_terms.bin"),
    ] {
        replay_leaf(
            rt,
            name,
            path,
            |v| integrated_adjoint(Se3Tangent::from_array(v)).data,
        )?;
    }
    replay_leaf(rt, "mul_transpose", "mul_transpose.bin", mul_transpose)?;
    replay_leaf(rt, "amax", "amax.bin", amax)?;
    replay_leaf(rt, "amax of a matrix", "matrix_amax.bin", matrix_amax)
}
