// Port of `Cholesky` of math/matrix.rs: factoring and solving.
ghost use Rattle.std.specs.Prelude.{◌≡◌, cond, ◌≢◌, ℕ, ◌+◌, ◌-◌, ◌*◌, ◌≤◌, ◌<◌, length, get_or};
ghost use Rattle.std.specs.Float.{nan};
ghost use Rattle.drifters_matrix.specs.Matrix.{zeros};
ghost use Rattle.drifters_cholesky.specs.Cholesky.{none, lower, factor_of, cholesky, substituted, forward, back, solve};

use drifters_matrix::math::matrix::Matrix;
use drifters_real::math::real::{is_finite, sqrt};

// The lower factor of the n by n matrix `a`, of which the lower triangle is read, into `l`, which is all zeros. False at the first
// bad pivot: one that is not finite, or at most 0.
// The labelled loops by index, left from inside, are the form that document 01 names for the factorisation (docs/DECISIONS.md, 'Document 01's forms'):
// a `break` out of a `for` gives no value, so what they leave is a flag, of which `new` makes the Option.
fn cholesky_into(a: &[f64], l: &mut [f64], n: usize) -> bool
    requires { (length a.now ≡ n * n) × (l.old ≡ zeros (n * n)) }
    ensures { cholesky n a.now ≡ cond result (lower l.new) none }
{
    let mut definite = true;
    'rows: for i in 0..n {
        'columns: for j in 0..i + 1 {
            let mut sum = a[i * n + j];
            for k in 0..j {
                sum = sum - l[i * n + k] * l[j * n + k];
            }
            if i == j {
                if !is_finite(sum) || sum <= 0.0 {
                    definite = false;
                    break 'rows;
                }
                l[i * n + j] = sqrt(sum);
            } else {
                l[i * n + j] = sum / l[j * n + j];
            }
        }
    }
    definite
}

// The Cholesky factorisation A = L Lᵀ of an N by N matrix. NN is N * N, and NC below N * C: a const argument cannot be computed, so each method asks
// it, as those of `Matrix` do.
#[derive(Clone, Copy)]
pub struct Cholesky<const N: usize, const NN: usize> {
    pub lower: Matrix<N, N, NN>,
}

impl<const N: usize, const NN: usize> Cholesky<N, NN> {
    // The factor of `a`; none where `a` is not positive definite.
    pub fn new(a: &Matrix<N, N, NN>) -> Option<Cholesky<N, NN>>
        requires { NN ≡ N * N }
        ensures { factor_of result ≡ cholesky N a.now.data }
    {
        let mut data = [0.0; NN];
        if !cholesky_into(&a.data, &mut data, N) {
            return None;
        }
        let lower = Matrix { data };
        Some(Cholesky { lower })
    }

    // The solution of A X = B.
    pub fn solve<const C: usize, const NC: usize>(&self, b: &Matrix<N, C, NC>) -> Matrix<N, C, NC>
        requires { (NN ≡ N * N) × (NC ≡ N * C) }
        ensures { result.data ≡ solve N C self.now.lower.data b.now.data }
    {
        let mut x = *b;
        self.forward_in(&mut x);
        self.back_in(&mut x);
        x
    }

    // Forward substitution: L Y = B, `x` from B to Y.
    fn forward_in<const C: usize, const NC: usize>(&self, x: &mut Matrix<N, C, NC>)
        requires { (NN ≡ N * N) × (NC ≡ N * C) }
        ensures { x.new.data ≡ forward N C self.now.lower.data x.old.data N }
    {
        for i in 0..N {
            self.substitute_row(x, i, 0, i, i * N, 1);
        }
    }

    // Back substitution: Lᵀ X = Y, `x` from Y to X.
    fn back_in<const C: usize, const NC: usize>(&self, x: &mut Matrix<N, C, NC>)
        requires { (NN ≡ N * N) × (NC ≡ N * C) }
        ensures { x.new.data ≡ back N C self.now.lower.data x.old.data N }
    {
        for i in (0..N).rev() {
            self.substitute_row(x, i, i + 1, N, i, N);
        }
    }

    // Row i of a substitution: less the products of the rows `from` to `to` of `x` with their factors, and divided by the pivot. The factor of
    // row k stands in the lower factor at k * stride + start. By index: row i of `x` is changed while rows k of it are read.
    // Four numbers say which rows and which factors: what they must meet, that each factor lies in the matrix, a range and a closure would have to meet too.
    fn substitute_row<const C: usize, const NC: usize>(
        &self,
        x: &mut Matrix<N, C, NC>,
        i: usize,
        from: usize,
        to: usize,
        start: usize,
        stride: usize,
    )
        requires { (NN ≡ N * N) × (NC ≡ N * C) × (i < N) × (from ≤ to) × (to ≤ N) × ((k : ℕ) → from ≤ k → k < to → (k ≢ i) × (k * stride + start < N * N)) }
        ensures { x.new.data ≡ substituted N C self.now.lower.data i (λ k. get_or self.now.lower.data (k * stride + start) nan) from (to - from) x.old.data }
    {
        // As a slice: a proof knows its length.
        let x = &mut x.data[..];
        for j in 0..C {
            let mut sum = x[i * C + j];
            for k in from..to {
                sum = sum - self.lower.data[k * stride + start] * x[k * C + j];
            }
            x[i * C + j] = sum / self.lower.data[i * N + i];
        }
    }
}
