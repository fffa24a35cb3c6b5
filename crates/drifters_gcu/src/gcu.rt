// Port of gcu.rs: inflation of the innovation covariance by the normalised innovation squared, of any width N. NN is N * N: a const argument cannot
// be computed, so each function asks that of its callers.
// The definitions that a proof opens.
#![tactic(auto, unfolding(crate::specs::Gcu::beta, crate::specs::Gcu::nis, crate::specs::Gcu::inflated_by, crate::specs::Gcu::inflate))]

ghost use Rattle.std.specs.Prelude.{◌≡◌, ◌*◌};
ghost use Rattle.drifters_gcu.specs.Gcu.{dot_vector, beta, nis, inflated_by, inflate};

use drifters_cholesky::math::cholesky::Cholesky;
use drifters_matrix::math::matrix::{Matrix, Vector};
use drifters_real::math::real::{clamp, max, sqrt};

// The inflated innovation covariance; `projected + noise` where that is not positive definite. `alpha` is clamped to 0..1.
pub fn inflate<const N: usize, const NN: usize>(
    innovation: &Vector<N>,
    projected: &Matrix<N, N, NN>,
    noise: &Matrix<N, N, NN>,
    alpha: f64,
) -> Matrix<N, N, NN>
    requires { NN ≡ N * N }
    ensures { result.data ≡ inflate N innovation.now.data projected.now.data noise.now.data alpha }
{
    let s = projected.add(*noise);
    let Some(factor) = Cholesky::new(&s) else {
        return s;
    };
    let r = nis(&factor, innovation);
    inflate_at(r, innovation, projected, noise, alpha)
}

// The inflated innovation covariance at the normalised innovation squared r, so that a caller that has factored does not factor again.
// The other parameters are those of `inflate`, which has them from the original.
pub fn inflate_at<const N: usize, const NN: usize>(
    r: f64,
    innovation: &Vector<N>,
    projected: &Matrix<N, N, NN>,
    noise: &Matrix<N, N, NN>,
    alpha: f64,
) -> Matrix<N, N, NN>
    requires { NN ≡ N * N }
    ensures { result.data ≡ inflated_by N (beta r) innovation.now.data projected.now.data noise.now.data alpha }
{
    let b = beta(r);
    let share = b * clamp(alpha, 0.0, 1.0);
    let outer: Matrix<N, N, NN> = innovation.mul_transpose(innovation);
    projected.scaled(b).add(outer.scaled(share)).add(*noise)
}

// The normalised innovation squared, with the factor of the innovation covariance.
pub fn nis<const N: usize, const NN: usize>(factor: &Cholesky<N, NN>, innovation: &Vector<N>) -> f64
    requires { NN ≡ N * N }
    ensures { result ≡ nis N factor.now.lower.data innovation.now.data }
{
    let x = factor.solve(innovation);
    dot(&innovation.data, &x.data)
}

// The factor of inflation: from 1 at r = 0 to 2 at r = 1, and 2 for larger r and for not a number; 1 / (1 + r) below 0.
pub fn beta(r: f64) -> f64
    ensures { result ≡ beta r }
{
    if r < 1.0 {
        let root = sqrt(max(r, 0.0));
        (1.0 + root) * (1.0 + root) / (1.0 + r)
    } else {
        2.0
    }
}

// The dot product of two columns, summed from +0.0.
fn dot<const N: usize>(a: &[f64; N], b: &[f64; N]) -> f64
    ensures { result ≡ dot_vector N a.now b.now }
{
    a.iter().zip(b).fold(0.0, |sum, (x, y)| sum + *x * *y)
}
