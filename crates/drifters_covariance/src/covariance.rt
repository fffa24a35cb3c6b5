// Port of the covariance lines of filter.rs: the process noise, the transition matrix, the Joseph form and the reset. They have a crate
// of their own so that the edits of the filter are cheap to check.
#![tactic(auto, unfolding(crate::specs::Covariance::transition, crate::specs::Covariance::linear_lift, crate::specs::Covariance::input_column, crate::specs::Covariance::bias_column, crate::specs::Covariance::noise_map, crate::specs::Covariance::process_noise, crate::specs::Covariance::joseph, crate::specs::Covariance::reset_sigma))]

ghost use Rattle.std.specs.Prelude.{◌≡◌, get_or};
ghost use Rattle.std.specs.Float.{nan};
ghost use Rattle.drifters_matrix.specs.Matrix.{matrix, matmul, mul_transpose};
ghost use Rattle.drifters_covariance.specs.Covariance.{transition, linear_lift, input_column, bias_column, noise_map, psd, process_noise, joseph, reset_sigma};

use drifters_core::math::vec3::{Vec3, mul_vec3};
use drifters_lie::lie::{Se3Tangent, Se23Tangent};
use drifters_matrix::math::matrix::{Mat6, Mat21, Mat21x6, Mat21x18, unit};
use drifters_symmetry::group::{ATTITUDE, Algebra, GYRO_BIAS, LEVER, MAG, State, Symmetry};

// The power spectral densities of the process noise, per axis. The first two are white noise of the sensors, which the input brings in: their
// unit is the square of what is measured, per hertz. The others are random walks of states: the square of the state's unit, per second.
#[derive(Clone, Copy)]
pub struct ProcessNoise {
    // (rad/s)²/Hz, that is rad²/s: drives the attitude.
    pub gyro: Vec3,
    // (m/s²)²/Hz, that is (m/s)²/s: drives the velocity.
    pub accel: Vec3,
    // (rad/s)²/s: drives the bias of the gyroscope.
    pub gyro_bias: Vec3,
    // (m/s²)²/s: drives the bias of the accelerometer.
    pub accel_bias: Vec3,
    // m²/s: drives the lever arm of the antenna; 0 where it is fixed.
    pub lever: Vec3,
    // rad²/s, that is 1/s: drives the magnetometer's rotation; 0 where it is fixed.
    pub mag: Vec3,
}

// The transition matrix I + A dt + ½ (A dt)².
pub fn transition(a: Mat21, dt: f64) -> Mat21
    ensures { result.data ≡ transition a.data dt }
{
    let mut a_dt = a;
    a_dt.scale(dt);
    let square: Mat21 = a_dt.matmul(&a_dt);
    let mut phi = Mat21::identity();
    phi.add_in(&a_dt);
    phi.add_scaled(&square, 0.5);
    phi
}

// The process noise in normal coordinates: x is the new state of the observer, the estimate the old one.
pub fn process_noise(x: Symmetry, estimate: State, q: ProcessNoise) -> Mat21
    ensures { result.data ≡ process_noise x estimate q }
{
    let g = noise_map(x, estimate);
    let weighted = g.mul_diagonal::<324>(psd(q));
    weighted.mul_transpose(&g)
}

// The columns of the noise map are the densities in the order of `psd`, three to each: the first column of each.
const GYRO_COLUMN: usize = 0;

const ACCEL_COLUMN: usize = GYRO_COLUMN + 3;

const GYRO_BIAS_COLUMN: usize = ACCEL_COLUMN + 3;

const ACCEL_BIAS_COLUMN: usize = GYRO_BIAS_COLUMN + 3;

const LEVER_COLUMN: usize = ACCEL_BIAS_COLUMN + 3;

const MAG_COLUMN: usize = LEVER_COLUMN + 3;

// The 21 by 18 matrix that maps the noise into normal coordinates. A block of six columns holds those of the gyroscope and the
// accelerometer.
fn noise_map(x: Symmetry, estimate: State) -> Mat21x18
    ensures { result.data ≡ noise_map x estimate }
{
    let mut g = Mat21x18::zeros();
    g.set_block(ATTITUDE, GYRO_COLUMN, &input_columns(x, estimate));
    g.set_block(GYRO_BIAS, GYRO_BIAS_COLUMN, &bias_columns(x).neg());
    g.set_block(LEVER, LEVER_COLUMN, &x.a().neg());
    g.set_block(MAG, MAG_COLUMN, &x.e);
    g
}

// The columns of the input noise: column k is the linear part of the lift at unit input k, transformed by the adjoint of x.
fn input_columns(x: Symmetry, estimate: State) -> Mat21x6
    ensures { result.data ≡ matrix 21 6 (λ i k. get_or (input_column x estimate k) i nan) }
{
    let column = move |k: usize|
        ensures { result ≡ input_column x estimate k }
    {
        x.adjoint_apply(linear_lift(estimate, Se3Tangent::from_array(unit(k))))
            .to_array()
    };
    Mat21x6::from_columns(&std::array::from_fn(column))
}

// The linear part of the lift at the estimate, for the input w, its acceleration as `nu`. The original subtracts the lift at zero input from that at w, and loses
// the digits of w that a large bias rounds away.
fn linear_lift(estimate: State, w: Se3Tangent) -> Algebra
    ensures { result ≡ linear_lift estimate w }
{
    Algebra {
        c: Se23Tangent::new(w.omega, w.nu, Vec3::ZERO),
        gamma: estimate.bias.bracket(w),
        delta: estimate.lever.cross(w.omega),
        e: mul_vec3(estimate.mag.transpose(), w.omega),
    }
}

// The columns of the bias noise, before their sign: column k is the adjoint of B at unit k.
fn bias_columns(x: Symmetry) -> Mat6
    ensures { result.data ≡ matrix 6 6 (λ i k. get_or (bias_column x k) i nan) }
{
    let column = move |k: usize|
        ensures { result ≡ bias_column x k }
    {
        x.b()
            .adjoint_apply(Se3Tangent::from_array(unit(k)))
            .to_array()
    };
    Mat6::from_columns(&std::array::from_fn(column))
}

// The densities in the order of the noise map's columns: `psd` in the original, and no `From`, which would not say the order.
fn psd(q: ProcessNoise) -> [f64; 18]
    ensures { result ≡ psd q }
{
    let parts = [
        q.gyro.to_array(),
        q.accel.to_array(),
        q.gyro_bias.to_array(),
        q.accel_bias.to_array(),
        q.lever.to_array(),
        q.mag.to_array(),
    ];
    let mut densities = [0.0; 18];
    densities.copy_from_slice(parts.as_flattened());
    densities
}

// The Joseph form (I - kc) Σ (I - kc)ᵀ + noise, for kc the gain times the output matrix and noise the gain's share of the measurement
// noise. It takes these products, which are 21 by 21 at any number of measured values, and not the gain.
pub fn joseph(sigma: &Mat21, kc: &Mat21, noise: &Mat21) -> Mat21
    ensures { result.data ≡ joseph sigma.now.data kc.now.data noise.now.data }
{
    let mut ikc = Mat21::identity();
    ikc.sub_in(kc);
    let mut out = Mat21::zeros();
    congruence(&ikc, sigma, &mut out);
    out.add_in(noise);
    out
}

// The covariance after the reset I + ½ ad, into `out`. Once the correction is applied the error is measured from the new estimate; this moves
// the covariance into its coordinates, to first order.
pub fn reset(step: Algebra, sigma: &Mat21, out: &mut Mat21)
    ensures { out.new.data ≡ reset_sigma step sigma.now.data }
{
    let mut m = Mat21::identity();
    let ad = step.ad();
    m.add_scaled(&ad, 0.5);
    congruence(&m, sigma, out);
}

// The covariance transformed by `m`, m Σ mᵀ, into `out`. The matrices are lent, so that none is copied. The second product is made as the
// transpose of m (m Σ)ᵀ, which has the same bits, so that the zeros of m, which has many, are skipped in both.
pub fn congruence(m: &Mat21, sigma: &Mat21, out: &mut Mat21)
    ensures { out.new.data ≡ mul_transpose 21 21 21 (matmul 21 21 21 m.now.data sigma.now.data) m.now.data }
{
    let mut product = Mat21::zeros();
    m.matmul_into(sigma, &mut product);
    let mut transposed = Mat21::zeros();
    m.mul_transpose_into(&product, &mut transposed);
    transposed.transpose_into(out);
}
