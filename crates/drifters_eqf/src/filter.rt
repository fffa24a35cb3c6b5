// Port of filter.rs: the filter, its propagation and its updates, by value. The group acts from the right: a propagation composes on the
// right, the correction of an update on the left. The lines of the covariance are in drifters_covariance.
// The definitions that a proof opens.
#![tactic(auto, unfolding(crate::specs::Filter::turn_fits, crate::specs::Filter::new, crate::specs::Filter::nav_state, crate::specs::Filter::half_step, crate::specs::Filter::midpoint, crate::specs::Filter::full_step, crate::specs::Filter::propagated_sigma, crate::specs::Filter::propagated, crate::specs::Filter::propagate, crate::specs::Filter::applied, crate::specs::Filter::step, crate::specs::Filter::corrected, crate::specs::Filter::measured_position, crate::specs::Filter::measured_velocity, crate::specs::Filter::measured_direction, crate::specs::Filter::projected, crate::specs::Filter::raw_factor, crate::specs::Filter::inflated_factor, crate::specs::Filter::gain, crate::specs::Filter::correction, crate::specs::Filter::update, drifters_gcu::specs::Gcu::inflate))]

ghost use Rattle.std.specs.Prelude.{◌≡◌, ◌*◌, ◌<◌, option_map};
ghost use Rattle.drifters_eqf.specs.Filter.{turn_fits, new, nav_state, answered_propagation, propagate, answered_update, applied, update, measurement3, measured_position, measured_velocity, measured_direction};

use crate::answer::Refusal;
use drifters_cholesky::math::cholesky::Cholesky;
use drifters_core::math::vec3::{Vec3, mul_vec3};
use drifters_covariance::covariance::{
    ProcessNoise, congruence, joseph, process_noise, reset, transition,
};
use drifters_gcu::gcu::{inflate_at, nis};
use drifters_matrix::math::matrix::{Mat3x21, Mat21, Matrix, Vector, Vector21};
use drifters_real::math::real::abs;
use drifters_symmetry::group::{Algebra, State, Symmetry, act_state};
use drifters_symmetry::lift::{Input, lift};
use drifters_symmetry::linear::{
    direction_output_matrix, position_output_matrix, state_matrix, transported_direction,
    transported_position, transported_velocity, velocity_output_matrix,
};

// The largest norm of a rotation vector whose exponential is taken.
const TURN_LIMIT: f64 = 8.0;

// The equivariant filter: the observer's state, the covariance and gravity. The original's has alpha too, the share of inflation along the innovation;
// here `update` is given it, since each sensor has its own (drifters_entry).
#[derive(Clone, Copy)]
pub struct EqFilter {
    pub x: Symmetry,
    pub sigma: Mat21,
    pub gravity: Vec3,
}

// A filter after an update, and the normalised innovation squared of it.
#[derive(Clone, Copy)]
pub struct Updated {
    pub nis: f64,
    pub filter: EqFilter,
}

// What an update of three numbers measures: its output matrix and its innovation, a `Vec3` since three numbers make it. `update` takes the two
// at any width, apart, as the original does.
#[derive(Clone, Copy)]
pub struct Measurement3 {
    pub output: Mat3x21,
    pub innovation: Vec3,
}

impl EqFilter {
    // The filter of an initial estimate and covariance.
    pub fn new(initial: State, sigma: Mat21, gravity: Vec3) -> EqFilter
        ensures { result ≡ new initial sigma.data gravity }
    {
        EqFilter {
            x: Symmetry::from_state(initial),
            sigma,
            gravity,
        }
    }

    // The estimate.
    pub fn nav_state(&self) -> State
        ensures { result ≡ nav_state self.now }
    {
        act_state(self.x, State::default())
    }

    // Propagation over dt with one sample of the inertial sensors; dt may be negative. The lift changes over the step, as gravity turns in
    // the body frame, so it is taken again at the state half a step on: that makes the step second order in dt. The process noise is
    // scaled by |dt|: it adds to the covariance also when time runs backwards. The parameters are the original's.
    pub fn propagate(self, u: Input, dt: f64, q: ProcessNoise) -> Result<EqFilter, Refusal>
        ensures { answered_propagation self result ≡ propagate self u dt q }
    {
        let gravity = self.gravity;
        let estimate = self.nav_state();
        let start = lift(estimate, u, gravity).scaled(0.5 * dt);
        if !turn_fits(start) {
            return Err(Refusal::Turn);
        }
        let half = self.x.compose(Symmetry::exp(start));
        let midpoint = act_state(half, State::default());
        let step = lift(midpoint, u, gravity).scaled(dt);
        if !turn_fits(step) {
            return Err(Refusal::Turn);
        }
        let x = self.x.compose(Symmetry::exp(step));
        let phi = transition(state_matrix(half, u, gravity), dt);
        let noise = process_noise(x, estimate, q);
        let mut sigma = Mat21::zeros();
        congruence(&phi, &self.sigma, &mut sigma);
        sigma.add_scaled(&noise, abs(dt));
        sigma.symmetrize();
        Ok(EqFilter { x, sigma, ..self })
    }

    // The update by a measurement of W numbers, as far as the gain; `apply` does the rest. Its parameters are the original's, with alpha from the
    // caller. The answer is the normalised innovation squared before inflation, which hides how unexpected the innovation is. The gain Σ cᵀ S⁻¹
    // is the transpose of a solve with the Cholesky factor of S, which is symmetric but for rounding: an inverse would cost more and round more,
    // and at W = 1 a quotient by the variance would round otherwise. WW is W * W and WS is W * 21: a const argument cannot be computed.
    pub fn update<const W: usize, const WW: usize, const WS: usize>(
        self,
        c: &Matrix<W, 21, WS>,
        innovation: &Vector<W>,
        noise: &Matrix<W, W, WW>,
        alpha: f64,
    ) -> Result<Updated, Refusal>
        requires { (WW ≡ W * W) × (WS ≡ W * 21) × (0 < W) }
        ensures { answered_update self result ≡ update W self c.now.data innovation.now.data noise.now.data alpha }
    {
        let c_sigma: Matrix<W, 21, WS> = c.matmul(&self.sigma);
        let projected: Matrix<W, W, WW> = c_sigma.mul_transpose(c);
        let mut raw = projected;
        raw.add_in(noise);
        let raw = Cholesky::new(&raw).ok_or(Refusal::Pivot)?;
        let r = nis(&raw, innovation);
        let inflated = inflate_at(r, innovation, &projected, noise, alpha);
        let chol = Cholesky::new(&inflated).ok_or(Refusal::Pivot)?;
        let gain = chol.solve(&c_sigma).transpose();
        let column: Vector21 = gain.matmul(innovation);
        let kc: Mat21 = gain.matmul(c);
        let weighted: Matrix<21, W, WS> = gain.matmul(noise);
        let share: Mat21 = weighted.mul_transpose(&gain);
        self.apply(r, column.data, &kc, &share)
    }

    // A correction applied to the filter, with r for an answer: composed on the left, then the Joseph form and the reset, since the error is
    // measured from the new estimate afterwards. No width enters, so that updates of every width share it. No struct holds delta, kc and noise:
    // it would be made in `update` alone, and the contract would take it apart into the same three lists.
    fn apply(&self, r: f64, delta: [f64; 21], kc: &Mat21, noise: &Mat21) -> Result<Updated, Refusal>
        ensures { answered_update self.now result ≡ applied self.now r (record { delta = delta; kc = kc.now.data; noise = noise.now.data }) }
    {
        let step = Algebra::from_array(delta);
        if !turn_fits(step) {
            return Err(Refusal::Turn);
        }
        let change = Symmetry::exp(step);
        let corrected = joseph(&self.sigma, kc, noise);
        let mut sigma = Mat21::zeros();
        reset(step, &corrected, &mut sigma);
        sigma.symmetrize();
        let filter = EqFilter {
            x: change.compose(self.x),
            sigma,
            ..*self
        };
        Ok(Updated { nis: r, filter })
    }
}

// What an update by an antenna position measures.
pub fn measured_position(x: Symmetry, antenna: Vec3) -> Measurement3
    ensures { measurement3 result ≡ measured_position x antenna }
{
    let transported = transported_position(x);
    Measurement3 {
        output: position_output_matrix(antenna, transported),
        innovation: transported.sub(antenna),
    }
}

// What an update by an antenna velocity measures, at the rate that built it.
pub fn measured_velocity(x: Symmetry, antenna: Vec3, omega: Vec3) -> Measurement3
    ensures { measurement3 result ≡ measured_velocity x antenna omega }
{
    let transported = transported_velocity(x, omega);
    let rate = mul_vec3(x.a(), omega);
    Measurement3 {
        output: velocity_output_matrix(antenna, transported, rate),
        innovation: transported.sub(antenna),
    }
}

// What an update by a direction of the known north measures; nothing where north or what is measured has no direction.
pub fn measured_direction(x: Symmetry, measured: Vec3, north: Vec3) -> Option<Measurement3>
    ensures { option_map measurement3 result ≡ measured_direction x measured north }
{
    let origin = north.normalized()?;
    let transported = transported_direction(x, measured.normalized()?);
    Some(Measurement3 {
        output: direction_output_matrix(origin, transported),
        innovation: mul_vec3(origin.skew(), transported),
    })
}

// The norms of both rotation vectors of u are numbers at most the limit.
fn turn_fits(u: Algebra) -> bool
    ensures { result ≡ turn_fits u }
{
    (u.c.omega.norm() <= TURN_LIMIT) & (u.e.norm() <= TURN_LIMIT)
}
