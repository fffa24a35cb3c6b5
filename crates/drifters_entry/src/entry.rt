// The calls on a filter that is lent as a run of numbers. Runs of any length come in; a call that is refused changes none of them.
ghost use Rattle.std.specs.Prelude.{◌≡◌, true, [], ◌+◌, ◌*◌, ◌≤◌, ◌<◌, length};
ghost use Rattle.drifters_matrix.specs.Matrix.{all_finite};
ghost use Rattle.drifters_eqf.specs.Answer.{accepted, answer_of};
ghost use Rattle.drifters_entry.specs.Layout.{copied, from_run, to_run};
ghost use Rattle.drifters_kind.specs.Kind.{state_length, call_length};
ghost use Rattle.drifters_entry.specs.Asked.{first_refusal, request_by};
ghost use Rattle.drifters_entry.specs.Entry.{propagation, measurement, estimate, process_noise_at, request_of, outcome, performed, range_checked, call, start};
ghost use Rattle.drifters_kind.specs.declared.kind.Kind.TheVariants.{State};

use crate::layout::{
    ALPHAS, DIRECTION_ALPHA, GRAVITY, POSITION_ALPHA, SIGMA, VELOCITY_ALPHA, alphas_of,
    filter_is_finite, from_run, matrix_at, state_from_run, state_numbers, store, symmetry_from_run,
    to_run, vec3_at,
};
use drifters_core::math::vec3::Vec3;
use drifters_covariance::covariance::ProcessNoise;
use drifters_eqf::answer::{Answer, Refusal};
use drifters_eqf::filter::{
    EqFilter, Measurement3, measured_direction, measured_position, measured_velocity,
};
use drifters_kind::kind::{Form, Kind};
use drifters_matrix::math::matrix::{Mat1, Mat1x21, Mat3, Matrix, Vector, Vector3};
use drifters_matrix::math::runs::all_finite;
use drifters_real::math::real::is_finite;
use drifters_symmetry::group::act_state;
use drifters_symmetry::lift::Input;

// How many numbers a filter has.
pub const FILTER_LENGTH: usize = POSITION_ALPHA + ALPHAS;

// How many numbers a start takes: a state, a covariance, gravity.
pub const START_LENGTH: usize = GRAVITY + 3;

// Each alpha of a filter that is started, as in the original.
const START_ALPHA: f64 = 0.5;

// What a call asks of a filter: a propagation by an input over a time, with its noise; an update by one measured number, as its output row,
// innovation and variance, or by three with their noise, each with the alpha for it; or the estimate. It is an enum, and `call` a `match` of it, so
// that one line makes the update by three numbers for four kinds: it stands once in the compiled code.
#[derive(Clone, Copy)]
pub enum Asked {
    Propagate(Input, f64, ProcessNoise),
    Update1(Mat1x21, Mat1, Mat1, f64),
    Update3(Measurement3, Mat3, f64),
    Estimate,
}

// A call of a kind: its checks, what it asks of the filter, and the results written back. `written` is the run that a state call writes, and
// empty for the others. A refusal changes no lent number.
pub fn call(kind: Kind, run: &mut [f64], numbers: &[f64], written: &mut [f64]) -> Answer
    ensures { outcome (answer_of result) run.new written.new ≡ call kind run.old numbers.now written.old }
{
    let filter = run.as_mut_array::<FILTER_LENGTH>().ok_or(Refusal::Length)?;
    first_refusal(kind.form(), filter, numbers, written.len())?;
    let asked = asked_by(kind, filter, numbers)?;
    match asked {
        Asked::Propagate(u, dt, q) => propagate_by(u, dt, q, filter),
        Asked::Update1(c, innovation, variance, alpha) => {
            update_by(&c, &innovation, &variance, alpha, filter)
        }
        Asked::Update3(m, noise, alpha) => {
            update_by(
                &m.output,
                &Vector3::from(m.innovation),
                &noise,
                alpha,
                filter,
            )
        }
        Asked::Estimate => write_estimate(filter, written),
    }
}

// A call that writes nothing beside the filter: a propagation of omega 3, accel 3, dt and densities 18, an update by a position (antenna 3,
// noise 9), a velocity (antenna 3, omega 3, noise 9), a direction (measured 3, north 3, noise 9), a general one (output matrix 63, innovation 3,
// noise 9), or one by one number (output row 21, innovation, variance).
pub fn filter_call(kind: Kind, run: &mut [f64], numbers: &[f64]) -> Answer
    ensures { outcome (answer_of result) run.new [] ≡ call kind run.old numbers.now [] }
{
    let mut none = [0.0; 0];
    call(kind, run, numbers, &mut none)
}

// The estimate, its 33 numbers into `written`: `call` at `State`, on a filter that is lent to be read only.
pub fn nav_state(run: &[f64], written: &mut [f64]) -> Answer
    ensures { outcome (answer_of result) run.now written.new ≡ call State run.now [] written.old }
{
    let filter = run.as_array::<FILTER_LENGTH>().ok_or(Refusal::Length)?;
    let none = [0.0; 0];
    first_refusal(Kind::State.form(), filter, &none, written.len())?;
    write_estimate(filter, written)
}

// A filter from 33 numbers of a state, 441 of a covariance and 3 of gravity. What the run held before does not matter.
pub fn start(run: &mut [f64], numbers: &[f64]) -> Answer
    ensures { outcome (answer_of result) run.new [] ≡ start run.old numbers.now }
{
    let run = run.as_mut_array::<FILTER_LENGTH>().ok_or(Refusal::Length)?;
    let numbers = numbers.as_array::<START_LENGTH>().ok_or(Refusal::Length)?;
    if !all_finite(numbers) {
        return Err(Refusal::Blank);
    }
    let initial = state_from_run(numbers);
    let sigma = matrix_at(numbers, SIGMA);
    let gravity = vec3_at(numbers, GRAVITY);
    let filter = EqFilter::new(initial, sigma, gravity);
    write_filter(None, &filter, [START_ALPHA; ALPHAS], run)
}

// The numbers of a run into another that is as long; one of another length stays.
pub fn copy_run(from: &[f64], to: &mut [f64])
    ensures { to.new ≡ copied from.now to.old }
{
    if to.len() == from.len() {
        store(from, to);
    }
}

// Whether a call of a form is refused before it is begun, by length or blank. `written` is how many numbers its run to be written has.
fn first_refusal(
    form: Form,
    run: &[f64; FILTER_LENGTH],
    numbers: &[f64],
    written: usize,
) -> Result<(), Refusal>
    ensures { result ≡ first_refusal form run.now numbers.now written }
{
    if !((numbers.len() == form.numbers) & (written == form.written)) {
        return Err(Refusal::Length);
    }
    if !(all_finite(run) & all_finite(numbers)) {
        return Err(Refusal::Blank);
    }
    Ok(())
}

// What a call's numbers ask of the filter; refused as null where a direction's vectors have no direction.
fn asked_by(kind: Kind, run: &[f64; FILTER_LENGTH], numbers: &[f64]) -> Result<Asked, Refusal>
    requires { length numbers.now ≡ call_length kind }
    ensures { request_by result ≡ request_of kind run.now numbers.now }
{
    match kind {
        Kind::Propagate => {
            let u = Input {
                omega: vec3_at(numbers, 0),
                accel: vec3_at(numbers, 3),
            };
            Ok(Asked::Propagate(u, numbers[6], process_noise_at(numbers, 7)))
        }
        Kind::Position => {
            let measurement = measured_position(symmetry_from_run(run), vec3_at(numbers, 0));
            Ok(Asked::Update3(measurement, matrix_at(numbers, 3), run[POSITION_ALPHA]))
        }
        Kind::Velocity => {
            let antenna = vec3_at(numbers, 0);
            let omega = vec3_at(numbers, 3);
            let measurement = measured_velocity(symmetry_from_run(run), antenna, omega);
            Ok(Asked::Update3(measurement, matrix_at(numbers, 6), run[VELOCITY_ALPHA]))
        }
        Kind::Direction => {
            let measured = vec3_at(numbers, 0);
            let north = vec3_at(numbers, 3);
            let measurement = measured_direction(symmetry_from_run(run), measured, north).ok_or(
                Refusal::Null,
            )?;
            Ok(Asked::Update3(measurement, matrix_at(numbers, 6), run[DIRECTION_ALPHA]))
        }
        Kind::General => {
            let measurement = Measurement3 {
                output: matrix_at(numbers, 0),
                innovation: vec3_at(numbers, 63),
            };
            Ok(Asked::Update3(measurement, matrix_at(numbers, 66), run[POSITION_ALPHA]))
        }
        Kind::State => Ok(Asked::Estimate),
        Kind::Scalar => Ok(Asked::Update1(
            matrix_at(numbers, 0),
            matrix_at(numbers, 21),
            matrix_at(numbers, 22),
            run[POSITION_ALPHA],
        )),
    }
}

// The propagation of a filter. The parameters are those of `EqFilter::propagate`, the original's.
fn propagate_by(u: Input, dt: f64, q: ProcessNoise, run: &mut [f64; FILTER_LENGTH]) -> Answer
    ensures { outcome (answer_of result) run.new [] ≡ range_checked (performed (propagation u dt q) (from_run run.old) run.old []) run.old [] }
{
    let filter = from_run(run).propagate(u, dt, q)?;
    write_filter(None, &filter, alphas_of(run), run)
}

// The update of a filter by W measured numbers with their noise. WW is W * W and WS is W * 21: a const argument cannot be computed.
fn update_by<const W: usize, const WW: usize, const WS: usize>(
    c: &Matrix<W, 21, WS>,
    innovation: &Vector<W>,
    noise: &Matrix<W, W, WW>,
    alpha: f64,
    run: &mut [f64; FILTER_LENGTH],
) -> Answer
    requires { (WW ≡ W * W) × (WS ≡ W * 21) × (0 < W) }
    ensures { outcome (answer_of result) run.new [] ≡ range_checked (performed (measurement W (record { output = c.now.data; innovation = innovation.now.data }) noise.now.data alpha) (from_run run.old) run.old []) run.old [] }
{
    let updated = from_run(run).update(c, innovation, noise, alpha)?;
    write_filter(Some(updated.nis), &updated.filter, alphas_of(run), run)
}

// Eighteen densities from `at` on; no `From`, since ProcessNoise is another crate's. A run and a place, as in layout.rt.
fn process_noise_at(numbers: &[f64], at: usize) -> ProcessNoise
    requires { at + 18 ≤ length numbers.now }
    ensures { result ≡ process_noise_at numbers.now at }
{
    ProcessNoise {
        gyro: vec3_at(numbers, at),
        accel: vec3_at(numbers, at + 3),
        gyro_bias: vec3_at(numbers, at + 6),
        accel_bias: vec3_at(numbers, at + 9),
        lever: vec3_at(numbers, at + 12),
        mag: vec3_at(numbers, at + 15),
    }
}

// The answer as it is given out: refused as range where a result is not finite, else the filter is written, with the alphas. `nis` is that of an
// update.
fn write_filter(
    nis: Option<f64>,
    filter: &EqFilter,
    alphas: [f64; ALPHAS],
    run: &mut [f64; FILTER_LENGTH],
) -> Answer
    ensures { outcome (answer_of result) run.new [] ≡ range_checked (outcome (accepted nis) (to_run filter.now alphas) []) run.old [] }
{
    let nis_is_finite = nis.is_none_or(is_finite);
    if !(nis_is_finite & filter_is_finite(filter, alphas)) {
        return Err(Refusal::Range);
    }
    to_run(filter, alphas, run);
    Ok(nis)
}

// The estimate of a filter, into `written`; refused as range where it is not finite. Not by `EqFilter::nav_state`: a filter would be read for it whole.
fn write_estimate(run: &[f64; FILTER_LENGTH], written: &mut [f64]) -> Answer
    requires { (length written.old ≡ state_length) × (all_finite run.now ≡ true) }
    ensures { outcome (answer_of result) run.now written.new ≡ range_checked (performed estimate (from_run run.now) run.now written.old) run.now written.old }
{
    let state = act_state(
        symmetry_from_run(run),
        drifters_symmetry::group::State::default(),
    );
    let numbers = state_numbers(state);
    if !all_finite(&numbers) {
        return Err(Refusal::Range);
    }
    written.copy_from_slice(&numbers);
    Ok(None)
}
