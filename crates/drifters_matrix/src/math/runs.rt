// The loops of math/matrix.rs, for all dimensions: a matrix is a run of its entries, row by row. matrix.rt has the record that calls them;
// the factorisation is in drifters_cholesky. Sizes are arguments here, where a method of `Matrix` has const parameters: so a proof is about a list
// and numbers, and one loop serves several methods, as `set_block` and `set_column`, or the transposes and products. The loops of products carry the
// start of each row along, by addition: they multiply nothing but two entries, and tools/test_row_starts reads them for it. So they go by index: an
// iterator hides the start. Where a second run is read, that goes by the index of `enumerate`: after a `zip` with `iter_mut` nothing is known of what
// was written. The loops over every entry differ in their operation: with a closure for it each would keep its name and its contract, and the closure
// would need one besides.
ghost use Rattle.std.specs.Prelude.{◌≡◌, ◌+◌, ◌*◌, ◌≤◌, true, leb, length, get_or};
ghost use Rattle.std.specs.Float.{nan};
ghost use Rattle.drifters_real.specs.Scalar.{◌⊕◌, ◌⊗◌};
ghost use Rattle.drifters_matrix.specs.Matrix.{tab, at, matrix, zeros, transpose, sum_terms, matmul, mul_transpose, scaled, set_block, block, all_finite, amax, from_diagonal, diagonal, symmetrize, add_matrix, sub_matrix, neg_matrix, larger};

use drifters_real::math::real::{abs, is_finite};

// The r by c matrix `m`, transposed into `out`. Row i of `m` starts at s, row j of `out` at t.
pub(crate) fn transpose_into(m: &[f64], out: &mut [f64], r: usize, c: usize)
    requires { (length m.now ≡ r * c) × (length out.old ≡ c * r) }
    ensures { out.new ≡ transpose r c m.now }
{
    let mut s = 0;
    for i in 0..r {
        let mut t = 0;
        for j in 0..c {
            out[t + i] = m[s + j];
            t += r;
        }
        s += c;
    }
}

// +0.0 in every place. A function of its own, though it is one call: it is public, and tools/test_row_starts reads it by this name.
pub fn clear(row: &mut [f64])
    ensures { row.new ≡ zeros (length row.old) }
{
    row.fill(0.0);
}

// `src` into `out`. No `copy_from_slice`: that sends the sums of a row through memory, and propagations and updates took 12 % longer with it.
fn copy_into(src: &[f64], out: &mut [f64])
    requires { length out.old ≡ length src.now }
    ensures { out.new ≡ src.now }
{
    for (k, x) in out.iter_mut().enumerate() {
        *x = src[k];
    }
}

// x * b[s + j] added to row[j], for each j.
pub(crate) fn add_scaled(row: &mut [f64], x: f64, b: &[f64], s: usize)
    requires { s + length row.old ≤ length b.now }
    ensures { row.new ≡ tab (length row.old) (λ j. get_or row.old j nan ⊕ x ⊗ get_or b.now (s + j) nan) }
{
    for (j, y) in row.iter_mut().enumerate() {
        *y = *y + x * b[s + j];
    }
}

// The row a[s..s + c] times `b`, into `row`: the terms of an entry in the order of k, those of a zero in `a` skipped where SKIP is set. Row k of
// `b` starts at t.
fn product_row<const SKIP: bool>(a: &[f64], s: usize, c: usize, b: &[f64], row: &mut [f64])
    requires { (s + c ≤ length a.now) × (c * length row.old ≤ length b.now) }
    ensures { row.new ≡ tab (length row.old) (λ j. sum_terms SKIP (λ k. get_or a.now (s + k) nan) (λ k. get_or b.now (k * length row.old + j) nan) c) }
{
    clear(row);
    let n = row.len();
    let mut t = 0;
    for k in 0..c {
        let x = a[s + k];
        if !SKIP || x != 0.0 {
            add_scaled(row, x, b, t);
        }
        t += n;
    }
}

// The r by c matrix `a` times the c by d matrix `b`, into `out`. The sums of a row are kept in `row`, so that they stay in registers. The row of `a`
// starts at s, that of `out` at t.
fn product_into<const SKIP: bool>(
    a: &[f64],
    b: &[f64],
    row: &mut [f64],
    out: &mut [f64],
    r: usize,
    c: usize,
    d: usize,
)
    requires { (length a.now ≡ r * c) × ((length b.now ≡ c * d) × ((length row.old ≡ d) × (length out.old ≡ r * d))) }
    ensures { out.new ≡ matrix r d (λ i j. sum_terms SKIP (at c a.now i) (λ k. at d b.now k j) c) }
{
    let mut s = 0;
    let mut t = 0;
    for _ in 0..r {
        product_row::<SKIP>(a, s, c, b, row);
        copy_into(row, &mut out[t..t + d]);
        s += c;
        t += d;
    }
}

// The r by c matrix `a` times the c by d matrix `b`, into `out`.
pub(crate) fn matmul_into(
    a: &[f64],
    b: &[f64],
    row: &mut [f64],
    out: &mut [f64],
    r: usize,
    c: usize,
    d: usize,
)
    requires { (length a.now ≡ r * c) × ((length b.now ≡ c * d) × ((length row.old ≡ d) × (length out.old ≡ r * d))) }
    ensures { out.new ≡ matmul r c d a.now b.now }
{
    product_into::<true>(a, b, row, out, r, c, d);
}

// The r by c matrix `a` times the transpose of the d by c matrix `b`, into `out`. The transpose is made in `t`, so that the inner
// loop runs over the result's columns and vectorises; each entry still adds its terms in the order of k.
pub(crate) fn mul_transpose_into(
    a: &[f64],
    b: &[f64],
    t: &mut [f64],
    row: &mut [f64],
    out: &mut [f64],
    r: usize,
    c: usize,
    d: usize,
)
    requires { (length a.now ≡ r * c) × ((length b.now ≡ d * c) × ((length t.old ≡ c * d) × ((length row.old ≡ d) × (length out.old ≡ r * d)))) }
    ensures { out.new ≡ mul_transpose r c d a.now b.now }
{
    transpose_into(b, t, d, c);
    product_into::<false>(a, t, row, out, r, c, d);
}

// The r by c matrix `a` times the diagonal matrix of `d`, into `out`, where both are finite: each column times its number. The
// rows of `a` and `out` start at s.
pub(crate) fn scale_columns_into(a: &[f64], d: &[f64], out: &mut [f64], r: usize, c: usize)
    requires { (length a.now ≡ r * c) × ((length d.now ≡ c) × ((length out.old ≡ r * c) × ((all_finite a.now ≡ true) × (all_finite d.now ≡ true)))) }
    ensures { out.new ≡ matmul r c c a.now (from_diagonal c d.now) }
{
    let mut s = 0;
    for _ in 0..r {
        for j in 0..c {
            out[s + j] = 0.0 + a[s + j] * d[j];
        }
        s += c;
    }
}

// Each entry times s.
pub(crate) fn scale_in(m: &mut [f64], s: f64)
    ensures { m.new ≡ scaled (length m.old) m.old s }
{
    for x in m.iter_mut() {
        *x = *x * s;
    }
}

// The `len` places from `start` on lie within `n` places. No sum can overflow.
fn range_fits(n: usize, len: usize, start: usize) -> bool
    ensures { result ≡ leb (start + len) n }
{
    len <= n && start <= n - len
}

// The br by bc matrix `src` into the block at (r0, c0) of the r by c matrix `m`; nothing where the block does not fit. Rows by
// index, here and in `block_into`: `chunks_exact` asks for rows of a number at least, which a size need not have.
pub(crate) fn set_block_in(
    m: &mut [f64],
    src: &[f64],
    r: usize,
    c: usize,
    br: usize,
    bc: usize,
    r0: usize,
    c0: usize,
)
    requires { (length m.old ≡ r * c) × (length src.now ≡ br * bc) }
    ensures { m.new ≡ set_block r c br bc r0 c0 m.old src.now }
{
    if range_fits(r, br, r0) & range_fits(c, bc, c0) {
        for i in 0..br {
            let s = i * bc;
            let t = (r0 + i) * c + c0;
            m[t..t + bc].copy_from_slice(&src[s..s + bc]);
        }
    }
}

// The block at (r0, c0) of the r by c matrix `m`, into the br by bc matrix `out`, which is all zeros; nothing where the block does not fit.
pub(crate) fn block_into(
    m: &[f64],
    out: &mut [f64],
    r: usize,
    c: usize,
    br: usize,
    bc: usize,
    r0: usize,
    c0: usize,
)
    requires { (length m.now ≡ r * c) × (out.old ≡ zeros (br * bc)) }
    ensures { out.new ≡ block r c br bc r0 c0 m.now }
{
    if range_fits(r, br, r0) & range_fits(c, bc, c0) {
        for i in 0..br {
            let s = (r0 + i) * c + c0;
            let t = i * bc;
            out[t..t + bc].copy_from_slice(&m[s..s + bc]);
        }
    }
}

// Every entry is finite. The fold has no exit of its own, so that several entries are tested at once.
pub fn all_finite(m: &[f64]) -> bool
    ensures { result ≡ all_finite m.now }
{
    m.iter().fold(true, |finite, x| finite & is_finite(*x))
}

// The larger of `acc` and the size of x; `acc` where x is not a number. Where `acc` is none, f64's `max` would give the size of x; this one gives `acc`.
pub fn larger(acc: f64, x: f64) -> f64
    ensures { result ≡ larger acc x }
{
    let a = abs(x);
    if a > acc { a } else { acc }
}

// The largest size among the entries, from +0.0.
pub(crate) fn amax_of(m: &[f64]) -> f64
    ensures { result ≡ amax (length m.now) m.now }
{
    m.iter().fold(0.0, |largest, x| larger(largest, *x))
}

// The entries of `d` on the diagonal of the n by n matrix `m`, which is all zeros.
pub(crate) fn from_diagonal_in(m: &mut [f64], d: &[f64], n: usize)
    requires { (m.old ≡ zeros (n * n)) × (length d.now ≡ n) }
    ensures { m.new ≡ from_diagonal n d.now }
{
    for (i, x) in d.iter().enumerate() {
        m[i * n + i] = *x;
    }
}

// The diagonal of the n by n matrix `m`, into `out`.
pub(crate) fn diagonal_into(m: &[f64], out: &mut [f64], n: usize)
    requires { (length m.now ≡ n * n) × (length out.old ≡ n) }
    ensures { out.new ≡ diagonal n m.now }
{
    for (i, x) in out.iter_mut().enumerate() {
        *x = m[i * n + i];
    }
}

// Each mirrored pair of the n by n matrix `m` replaced by its mean. By index: a pair is two places of one run.
pub(crate) fn symmetrize_in(m: &mut [f64], n: usize)
    requires { length m.old ≡ n * n }
    ensures { m.new ≡ symmetrize n m.old }
{
    for i in 0..n {
        for j in i + 1..n {
            let v = 0.5 * (m[i * n + j] + m[j * n + i]);
            m[i * n + j] = v;
            m[j * n + i] = v;
        }
    }
}

// Each entry of `m` plus that of `b`.
pub(crate) fn add_in(m: &mut [f64], b: &[f64])
    requires { length m.old ≡ length b.now }
    ensures { m.new ≡ add_matrix (length m.old) m.old b.now }
{
    for (k, x) in m.iter_mut().enumerate() {
        *x = *x + b[k];
    }
}

// Each entry of `m` less that of `b`.
pub(crate) fn sub_in(m: &mut [f64], b: &[f64])
    requires { length m.old ≡ length b.now }
    ensures { m.new ≡ sub_matrix (length m.old) m.old b.now }
{
    for (k, x) in m.iter_mut().enumerate() {
        *x = *x - b[k];
    }
}

// Each entry negated.
pub(crate) fn neg_in(m: &mut [f64])
    ensures { m.new ≡ neg_matrix (length m.old) m.old }
{
    for x in m.iter_mut() {
        *x = -*x;
    }
}
