// Port of math/matrix.rs: a matrix of any size, its entries in one flat array, row by row. The loops are those of runs.rt; the factorisation is
// in drifters_cholesky. A method that returns a matrix makes one; one with `out`, or with `&mut self`, makes none. Operators are named functions, as
// document 01 wants them (docs/DECISIONS.md). What does not fit changes nothing, or is zeros: no public function has a condition on its values.
ghost use Rattle.std.specs.Prelude.{◌≡◌, ◌*◌, ◌^◌, ◌≤◌, ◌<◌};
ghost use Rattle.drifters_matrix.specs.Matrix.{zeros, unit, transpose, matmul, mul_transpose, scaled, set_block, from_columns, block, all_finite, amax, from_diagonal, identity, diagonal, symmetrize, add_matrix, sub_matrix, neg_matrix};

use crate::math::runs;

// R rows and C columns. N is R * C: a const argument cannot be computed, so the number of entries is a parameter of its own. That it is R * C is asked
// by a `requires`, and no ghost field says it: `zeros`, which asks nothing, would then ask it, nine of fifteen functions would still have a `requires`,
// and each definition and proof that writes a matrix as a record would have to give it.
#[derive(Clone, Copy)]
pub struct Matrix<const R: usize, const C: usize, const N: usize> {
    pub data: [f64; N],
}

// A column of N.
pub type Vector<const N: usize> = Matrix<N, 1, N>;

// One measured number, or its variance.
pub type Mat1 = Matrix<1, 1, 1>;

// Rotations, skew forms, blocks of three axes.
pub type Mat3 = Matrix<3, 3, 9>;

pub type Mat6 = Matrix<6, 6, 36>;

pub type Mat18 = Matrix<18, 18, 324>;

// The covariance.
pub type Mat21 = Matrix<21, 21, 441>;

// The output row of one measured number.
pub type Mat1x21 = Matrix<1, 21, 21>;

// An output matrix.
pub type Mat3x21 = Matrix<3, 21, 63>;

// A gain.
pub type Mat21x3 = Matrix<21, 3, 63>;

pub type Mat21x6 = Matrix<21, 6, 126>;

pub type Mat21x18 = Matrix<21, 18, 378>;

pub type Vector3 = Vector<3>;

pub type Vector6 = Vector<6>;

// A gain of one measured number, among others.
pub type Vector21 = Vector<21>;

impl<const R: usize, const C: usize, const N: usize> Matrix<R, C, N> {
    pub fn zeros() -> Matrix<R, C, N>
        ensures { result.data ≡ zeros N }
    {
        Matrix { data: [0.0; N] }
    }

    pub fn transpose(&self) -> Matrix<C, R, N>
        requires { N ≡ R * C }
        ensures { result.data ≡ transpose R C self.now.data }
    {
        let mut out = Matrix { data: [0.0; N] };
        self.transpose_into(&mut out);
        out
    }

    pub fn transpose_into(&self, out: &mut Matrix<C, R, N>)
        requires { N ≡ R * C }
        ensures { out.new.data ≡ transpose R C self.now.data }
    {
        runs::transpose_into(&self.data, &mut out.data, R, C);
    }

    // D ≤ K, that the result has a row, bounds the row of D entries in which its sums are kept.
    pub fn matmul<const D: usize, const M: usize, const K: usize>(
        &self,
        rhs: &Matrix<C, D, M>,
    ) -> Matrix<R, D, K>
        requires { (N ≡ R * C) × (M ≡ C * D) × (K ≡ R * D) × (D ≤ K) }
        ensures { result.data ≡ matmul R C D self.now.data rhs.now.data }
    {
        let mut out = Matrix { data: [0.0; K] };
        self.matmul_into(rhs, &mut out);
        out
    }

    pub fn matmul_into<const D: usize, const M: usize, const K: usize>(
        &self,
        rhs: &Matrix<C, D, M>,
        out: &mut Matrix<R, D, K>,
    )
        requires { (N ≡ R * C) × (M ≡ C * D) × (K ≡ R * D) × (D ≤ K) }
        ensures { out.new.data ≡ matmul R C D self.now.data rhs.now.data }
    {
        matmul_arrays::<R, C, D, N, M, K>(&self.data, &rhs.data, &mut out.data);
    }

    // The matrix times the transpose of `rhs`.
    pub fn mul_transpose<const D: usize, const M: usize, const K: usize>(
        &self,
        rhs: &Matrix<D, C, M>,
    ) -> Matrix<R, D, K>
        requires { (N ≡ R * C) × (M ≡ D * C) × (K ≡ R * D) × (D ≤ K) }
        ensures { result.data ≡ mul_transpose R C D self.now.data rhs.now.data }
    {
        let mut out = Matrix { data: [0.0; K] };
        self.mul_transpose_into(rhs, &mut out);
        out
    }

    pub fn mul_transpose_into<const D: usize, const M: usize, const K: usize>(
        &self,
        rhs: &Matrix<D, C, M>,
        out: &mut Matrix<R, D, K>,
    )
        requires { (N ≡ R * C) × (M ≡ D * C) × (K ≡ R * D) × (D ≤ K) }
        ensures { out.new.data ≡ mul_transpose R C D self.now.data rhs.now.data }
    {
        mul_transpose_arrays::<R, C, D, N, M, K>(&self.data, &rhs.data, &mut out.data);
    }

    // The matrix times the diagonal matrix of `d`, which has CC entries: it is made only where a number is not finite.
    pub fn mul_diagonal<const CC: usize>(&self, d: [f64; C]) -> Matrix<R, C, N>
        requires { (N ≡ R * C) × (C ≤ N) × (CC ≡ C * C) × (CC * 8 < 2 ^ 63) }
        ensures { result.data ≡ matmul R C C self.now.data (from_diagonal C d.entry) }
    {
        if !(runs::all_finite(&self.data) & runs::all_finite(&d)) {
            let diagonal: Matrix<C, C, CC> = Matrix::from_diagonal(d);
            return self.matmul(&diagonal);
        }
        let mut data = [0.0; N];
        runs::scale_columns_into(&self.data, &d, &mut data, R, C);
        Matrix { data }
    }

    pub fn scaled(&self, s: f64) -> Matrix<R, C, N>
        ensures { result.data ≡ scaled N self.now.data s }
    {
        let mut out = *self;
        out.scale(s);
        out
    }

    pub fn scale(&mut self, s: f64)
        ensures { self.new.data ≡ scaled N self.old.data s }
    {
        runs::scale_in(&mut self.data, s);
    }

    pub fn add(self, rhs: Matrix<R, C, N>) -> Matrix<R, C, N>
        ensures { result.data ≡ add_matrix N self.entry.data rhs.entry.data }
    {
        let mut out = self;
        out.add_in(&rhs);
        out
    }

    pub fn add_in(&mut self, rhs: &Matrix<R, C, N>)
        ensures { self.new.data ≡ add_matrix N self.old.data rhs.now.data }
    {
        runs::add_in(&mut self.data, &rhs.data);
    }

    // Each entry plus that of `rhs` times s.
    pub fn add_scaled(&mut self, rhs: &Matrix<R, C, N>, s: f64)
        ensures { self.new.data ≡ add_matrix N self.old.data (scaled N rhs.now.data s) }
    {
        runs::add_scaled(&mut self.data, s, &rhs.data, 0);
    }

    pub fn sub_in(&mut self, rhs: &Matrix<R, C, N>)
        ensures { self.new.data ≡ sub_matrix N self.old.data rhs.now.data }
    {
        runs::sub_in(&mut self.data, &rhs.data);
    }

    pub fn neg(self) -> Matrix<R, C, N>
        ensures { result.data ≡ neg_matrix N self.entry.data }
    {
        let mut data = self.data;
        runs::neg_in(&mut data);
        Matrix { data }
    }

    // `src` in the block at (r0, c0); the matrix as it is where the block does not fit.
    pub fn set_block<const BR: usize, const BC: usize, const M: usize>(
        &mut self,
        r0: usize,
        c0: usize,
        src: &Matrix<BR, BC, M>,
    )
        requires { (N ≡ R * C) × (M ≡ BR * BC) }
        ensures { self.new.data ≡ set_block R C BR BC r0 c0 self.old.data src.now.data }
    {
        runs::set_block_in(&mut self.data, &src.data, R, C, BR, BC, r0, c0);
    }

    // `column` in column k; the matrix as it is where there is no such column.
    pub fn set_column(&mut self, k: usize, column: [f64; R])
        requires { N ≡ R * C }
        ensures { self.new.data ≡ set_block R C R 1 0 k self.old.data column.entry }
    {
        runs::set_block_in(&mut self.data, &column, R, C, R, 1, 0, k);
    }

    // The matrix of these columns. They are an array, and no closure gives them: that was tried, and the check does not cover a bound
    // `Fn(usize) -> [f64; R]`, which names a const parameter.
    pub fn from_columns(columns: &[[f64; R]; C]) -> Matrix<R, C, N>
        requires { N ≡ R * C }
        ensures { result.data ≡ from_columns R C columns.now }
    {
        let mut m: Matrix<R, C, N> = Matrix::zeros();
        for (k, column) in columns.iter().enumerate() {
            m.set_column(k, *column);
        }
        m
    }

    // The block at (r0, c0); zeros where it does not fit.
    pub fn block<const BR: usize, const BC: usize, const M: usize>(
        &self,
        r0: usize,
        c0: usize,
    ) -> Matrix<BR, BC, M>
        requires { (N ≡ R * C) × (M ≡ BR * BC) }
        ensures { result.data ≡ block R C BR BC r0 c0 self.now.data }
    {
        let mut data = [0.0; M];
        runs::block_into(&self.data, &mut data, R, C, BR, BC, r0, c0);
        Matrix { data }
    }

    pub fn is_finite(&self) -> bool
        ensures { result ≡ all_finite self.now.data }
    {
        runs::all_finite(&self.data)
    }

    // The largest size of an entry.
    pub fn amax(&self) -> f64
        ensures { result ≡ amax N self.now.data }
    {
        runs::amax_of(&self.data)
    }
}

impl<const R: usize, const N: usize> Matrix<R, R, N> {
    pub fn identity() -> Matrix<R, R, N>
        requires { N ≡ R * R }
        ensures { result.data ≡ identity R }
    {
        Matrix::from_diagonal([1.0; R])
    }

    pub fn from_diagonal(d: [f64; R]) -> Matrix<R, R, N>
        requires { N ≡ R * R }
        ensures { result.data ≡ from_diagonal R d.entry }
    {
        let mut data = [0.0; N];
        runs::from_diagonal_in(&mut data, &d, R);
        Matrix { data }
    }

    pub fn diagonal(&self) -> [f64; R]
        requires { N ≡ R * R }
        ensures { result ≡ diagonal R self.now.data }
    {
        let mut out = [0.0; R];
        runs::diagonal_into(&self.data, &mut out, R);
        out
    }

    // Each mirrored pair replaced by its mean.
    pub fn symmetrize(&mut self)
        requires { N ≡ R * R }
        ensures { self.new.data ≡ symmetrize R self.old.data }
    {
        symmetrize_array::<R, N>(&mut self.data);
    }
}

// The same on lent arrays, for callers that have no record: a copy into one and out of it takes up to half as long as the product.
// The R by C matrix `a` times the C by D matrix `b`, into `out`.
pub fn matmul_arrays<
    const R: usize,
    const C: usize,
    const D: usize,
    const N: usize,
    const M: usize,
    const K: usize,
>(a: &[f64; N], b: &[f64; M], out: &mut [f64; K])
    requires { (N ≡ R * C) × (M ≡ C * D) × (K ≡ R * D) × (D ≤ K) }
    ensures { out.new ≡ matmul R C D a.now b.now }
{
    let mut row = [0.0; D];
    runs::matmul_into(a, b, &mut row, out, R, C, D);
}

// A left factor with fewer entries than this is multiplied with its zeros: a test of the right one would take longer than they do. Of the sizes in use the
// largest below it has 63 entries, the smallest above it 378.
const FEW_ENTRIES: usize = 64;

// The R by C matrix `a` times the transpose of the D by C matrix `b`, into `out`. Where `b` is finite, the term of a zero in `a` is a zero that
// changes no sum: it is skipped.
pub fn mul_transpose_arrays<
    const R: usize,
    const C: usize,
    const D: usize,
    const N: usize,
    const M: usize,
    const K: usize,
>(a: &[f64; N], b: &[f64; M], out: &mut [f64; K])
    requires { (N ≡ R * C) × (M ≡ D * C) × (K ≡ R * D) × (D ≤ K) }
    ensures { out.new ≡ mul_transpose R C D a.now b.now }
{
    let mut t = [0.0; M];
    let mut row = [0.0; D];
    if N < FEW_ENTRIES || !runs::all_finite(b) {
        runs::mul_transpose_into(a, b, &mut t, &mut row, out, R, C, D);
    } else {
        runs::transpose_into(b, &mut t, D, C);
        runs::matmul_into(a, &t, &mut row, out, R, C, D);
    }
}

// Each mirrored pair of the R by R matrix `m` replaced by its mean.
pub fn symmetrize_array<const R: usize, const N: usize>(m: &mut [f64; N])
    requires { N ≡ R * R }
    ensures { m.new ≡ symmetrize R m.old }
{
    runs::symmetrize_in(m, R);
}

// The unit vector at place k: 1.0 there, and +0.0 in every other place.
pub fn unit<const N: usize>(k: usize) -> [f64; N]
    ensures { result ≡ unit N k }
{
    std::array::from_fn(|i| if i == k { 1.0 } else { 0.0 })
}
