// The filter and the state as runs of numbers, both ways. They are functions and no `From`: the records are other crates'. A run and a place in it stay
// two parameters: the places are the constants of one layout, and a slice from the place on would have the same `requires` on its length.
ghost use Rattle.std.specs.Prelude.{◌≡◌, ◌+◌, ◌≤◌, length};
ghost use Rattle.drifters_matrix.specs.Matrix.{all_finite};
ghost use Rattle.drifters_lie.specs.Lie.{vec3_at};
ghost use Rattle.drifters_entry.specs.Layout.{part, alphas_of, from_run, to_run, state_from_run, state_to_run};
ghost use Rattle.drifters_kind.specs.Kind.{state_length};

use crate::entry::FILTER_LENGTH;
use drifters_core::math::vec3::Vec3;
use drifters_eqf::filter::EqFilter;
use drifters_lie::lie::{Se3Tangent, Se23};
use drifters_matrix::math::matrix::Matrix;
use drifters_matrix::math::runs::all_finite;
use drifters_symmetry::group::{State, Symmetry};

// Where the parts of a filter's run begin: C, as rotation, velocity and position; gamma, delta, E; the covariance, gravity; the alphas for position,
// velocity and direction. A state has its biases, lever arm and calibration at the places of gamma, delta and E.
const VELOCITY: usize = 9;

const POSITION: usize = VELOCITY + 3;

const GAMMA: usize = POSITION + 3;

const DELTA: usize = GAMMA + 6;

const E: usize = DELTA + 3;

pub(crate) const SIGMA: usize = E + 9;

pub(crate) const GRAVITY: usize = SIGMA + 441;

pub const POSITION_ALPHA: usize = GRAVITY + 3;

pub const VELOCITY_ALPHA: usize = POSITION_ALPHA + 1;

pub const DIRECTION_ALPHA: usize = VELOCITY_ALPHA + 1;

// How many alphas a filter has.
pub const ALPHAS: usize = 3;

// The numbers `m`, into a run that is as long. No `copy_from_slice`: where the compiler cannot tell that the two lie apart, that is a call of memmove,
// which a program without a C library need not have.
pub(crate) fn store(m: &[f64], out: &mut [f64])
    requires { length out.old ≡ length m.now }
    ensures { out.new ≡ m.now }
{
    for (k, x) in out.iter_mut().enumerate() {
        *x = m[k];
    }
}

// Three numbers from `at` on, as a vector. group.rt of drifters_symmetry has the same for its 21 numbers: a `requires` on a length stays in a crate.
pub(crate) fn vec3_at(run: &[f64], at: usize) -> Vec3
    requires { at + 3 ≤ length run.now }
    ensures { result ≡ vec3_at run.now at }
{
    Vec3 {
        x: run[at],
        y: run[at + 1],
        z: run[at + 2],
    }
}

// N numbers from `at` on, as a matrix.
pub(crate) fn matrix_at<const R: usize, const C: usize, const N: usize>(
    run: &[f64],
    at: usize,
) -> Matrix<R, C, N>
    requires { at + N ≤ length run.now }
    ensures { result.data ≡ part run.now at N }
{
    let mut data = [0.0; N];
    data.copy_from_slice(&run[at..at + N]);
    Matrix { data }
}

// The observer's state, from the first 33 numbers.
pub(crate) fn symmetry_from_run(run: &[f64]) -> Symmetry
    requires { state_length ≤ length run.now }
    ensures { result ≡ (from_run run.now).x }
{
    Symmetry {
        c: Se23 {
            rotation: matrix_at(run, 0),
            velocity: vec3_at(run, VELOCITY),
            position: vec3_at(run, POSITION),
        },
        gamma: Se3Tangent {
            omega: vec3_at(run, GAMMA),
            nu: vec3_at(run, GAMMA + 3),
        },
        delta: vec3_at(run, DELTA),
        e: matrix_at(run, E),
    }
}

// A filter from its run.
pub(crate) fn from_run(run: &[f64; FILTER_LENGTH]) -> EqFilter
    ensures { result ≡ from_run run.now }
{
    EqFilter {
        x: symmetry_from_run(run),
        sigma: matrix_at(run, SIGMA),
        gravity: vec3_at(run, GRAVITY),
    }
}

// The alphas of a run.
pub(crate) fn alphas_of(run: &[f64; FILTER_LENGTH]) -> [f64; ALPHAS]
    ensures { result ≡ alphas_of run.now }
{
    [
        run[POSITION_ALPHA],
        run[VELOCITY_ALPHA],
        run[DIRECTION_ALPHA],
    ]
}

// A group element's parts as a state's: their numbers stand in the same order.
fn state_of(x: Symmetry) -> State
    ensures { result ≡ (record { pose = x.c; bias = x.gamma; lever = x.delta; mag = x.e }) }
{
    State {
        pose: x.c,
        bias: x.gamma,
        lever: x.delta,
        mag: x.e,
    }
}

// A state from the first 33 numbers, which stand in the order of a filter's.
pub(crate) fn state_from_run(run: &[f64]) -> State
    requires { state_length ≤ length run.now }
    ensures { result ≡ state_from_run run.now }
{
    state_of(symmetry_from_run(run))
}

// The 33 numbers of a state; those of a group element by `state_of`, as `state_from_run` reads them.
pub(crate) fn state_numbers(state: State) -> [f64; 33]
    ensures { result ≡ state_to_run state }
{
    let c = state.pose;
    let w = state.bias;
    let v = state.lever;
    let a = c.rotation.data;
    let velocity = c.velocity;
    let position = c.position;
    let o = w.omega;
    let n = w.nu;
    let e = state.mag.data;
    [
        a[0], a[1], a[2], a[3], a[4], a[5], a[6], a[7], a[8], velocity.x, velocity.y, velocity.z,
        position.x, position.y, position.z, o.x, o.y, o.z, n.x, n.y, n.z, v.x, v.y, v.z, e[0],
        e[1], e[2], e[3], e[4], e[5], e[6], e[7], e[8],
    ]
}

// A filter into its run, with the alphas after it.
pub(crate) fn to_run(filter: &EqFilter, alphas: [f64; ALPHAS], run: &mut [f64; FILTER_LENGTH])
    ensures { run.new ≡ to_run filter.now alphas }
{
    let numbers = state_numbers(state_of(filter.x));
    run[..SIGMA].copy_from_slice(&numbers);
    store(&filter.sigma.data, &mut run[SIGMA..GRAVITY]);
    run[GRAVITY..POSITION_ALPHA].copy_from_slice(&filter.gravity.to_array());
    run[POSITION_ALPHA..].copy_from_slice(&alphas);
}

// Every number of a filter and its alphas is finite.
pub(crate) fn filter_is_finite(filter: &EqFilter, alphas: [f64; ALPHAS]) -> bool
    ensures { result ≡ all_finite (to_run filter.now alphas) }
{
    let numbers = state_numbers(state_of(filter.x));
    all_finite(&numbers)
        & all_finite(&filter.sigma.data)
        & filter.gravity.is_finite()
        & all_finite(&alphas)
}
