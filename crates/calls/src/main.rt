// Makes one call of each kind on a filter, one refusal of each number that a call can give, each refusal of a scalar update, an update by several
// compasses with each kind of answer, and the conversions between one alpha and three, and prints the answers.
#![tactic(auto)]

use call_sheet::text::{MOST_ANSWER, answer_text};
use drifters_compasses::compasses::{Tried, update_compasses};
use drifters_entry::entry::{FILTER_LENGTH, START_LENGTH, filter_call, nav_state, start};
use drifters_entry::layout::{POSITION_ALPHA, VELOCITY_ALPHA};
use drifters_eqf::answer::Answer;
use drifters_kind::kind::{Kind, STATE_LENGTH};
use drifters_upgrade::upgrade::{ONE_ALPHA_LENGTH, downgrade, upgrade};
use std::io;

// Where gravity begins in a start, after its covariance.
const GRAVITY: usize = START_LENGTH - 3;

// The name of a kind of call. `Kind` is another crate's, so that no `Display` of it may stand here.
fn name_of(kind: Kind) -> &'static str {
    match kind {
        Kind::Propagate => "propagate",
        Kind::Position => "update_position",
        Kind::Velocity => "update_velocity",
        Kind::Direction => "update_direction",
        Kind::General => "update",
        Kind::State => "nav_state",
        Kind::Scalar => "update_scalar",
    }
}

// The end of a line: an answer, whose text is bytes and so is no part of a format.
fn report_answer(rt: &impl Print, answer: Answer) -> io::Result<()> {
    let mut bytes = [0; MOST_ANSWER];
    let length = answer_text(answer, &mut bytes);
    rt.write_all(&bytes[..length])?;
    rt.write_all(b"\n")
}

// A line: what was called, and its answer.
fn report(rt: &impl Print, called: &str, answer: Answer) -> io::Result<()> {
    print!(rt; "{called} ")?;
    report_answer(rt, answer)
}

// A line of an update by several compasses that is accepted: how many readings were tried, and the index and the answer of the one that was applied.
fn report_tried(rt: &impl Print, t: Tried) -> io::Result<()> {
    print!(rt; "update_compasses tried {} applied ", t.tried)?;
    match t.best {
        Some(best) => {
            print!(rt; "{} ", best.index)?;
            report_answer(rt, Ok(Some(best.nis)))
        }
        None => rt.write_all(b"none\n"),
    }
}

// Makes a call that writes nothing beside the filter.
fn call(rt: &impl Print, kind: Kind, run: &mut [f64], numbers: &[f64]) -> io::Result<()> {
    report(rt, name_of(kind), filter_call(kind, run, numbers))
}

// The numbers of a start: at rest at the origin, covariance 1 in each place of the diagonal, gravity downwards.
fn start_numbers() -> [f64; START_LENGTH] {
    let mut v = [0.0; START_LENGTH];
    v[0] = 1.0;
    v[4] = 1.0;
    v[8] = 1.0;
    v[24] = 1.0;
    v[28] = 1.0;
    v[32] = 1.0;
    for x in v[STATE_LENGTH..GRAVITY].iter_mut().step_by(22) {
        *x = 1.0;
    }
    v[GRAVITY + 2] = 9.81;
    v
}

// A propagation: a turn, `rate` of it about the first axis, near rest, over `dt`, with the density `density` for each source.
fn propagation(rate: f64, dt: f64, density: f64) -> [f64; 25] {
    let mut v = [density; 25];
    v[0] = rate;
    v[1] = -0.01;
    v[2] = 0.3;
    v[3] = 0.1;
    v[4] = 0.0;
    v[5] = -9.8;
    v[6] = dt;
    v
}

// An antenna position with noise `variance` in each axis.
fn position(variance: f64) -> [f64; 12] {
    let mut v = [0.0; 12];
    v[0] = 1.0;
    v[1] = -0.5;
    v[2] = 0.25;
    v[3] = variance;
    v[7] = variance;
    v[11] = variance;
    v
}

// A velocity and its rate, or a direction and north: two vectors, then noise.
fn pair() -> [f64; 15] {
    let mut v = [0.0; 15];
    v[0] = 0.5;
    v[1] = 0.25;
    v[2] = -0.1;
    v[3] = 0.4;
    v[5] = 0.9;
    v[6] = 0.04;
    v[10] = 0.04;
    v[14] = 0.04;
    v
}

// A direction by zeros, which are no direction.
fn direction_by_zeros() -> [f64; 15] {
    let mut v = pair();
    v[0] = 0.0;
    v[1] = 0.0;
    v[2] = 0.0;
    v
}

// A direction of a north of zeros.
fn direction_of_zeros() -> [f64; 15] {
    let mut v = pair();
    v[3] = 0.0;
    v[5] = 0.0;
    v
}

// An update by three compasses, as many of them as `budget` allows: one far from the direction of `pair`, one of zeros, and that direction.
fn compasses(rt: &impl Print, run: &mut [f64], budget: usize) -> io::Result<()> {
    let pair = pair();
    let readings = [-0.5, 0.25, -0.1, 0.0, 0.0, 0.0, pair[0], pair[1], pair[2]];
    match update_compasses(run, &readings, &pair[3..], budget) {
        Ok(t) => report_tried(rt, t),
        Err(refusal) => report(rt, "update_compasses", Err(refusal)),
    }
}

// A general update: the bias of the gyroscope, measured.
fn general() -> [f64; 75] {
    let mut v = [0.0; 75];
    v[9] = 1.0;
    v[31] = 1.0;
    v[53] = 1.0;
    v[63] = 0.01;
    v[64] = -0.02;
    v[65] = 0.005;
    v[66] = 0.25;
    v[70] = 0.25;
    v[74] = 0.25;
    v
}

// A scalar update: the first coordinate of the attitude, measured.
fn scalar(innovation: f64, variance: f64) -> [f64; 23] {
    let mut v = [0.0; 23];
    v[0] = 1.0;
    v[21] = innovation;
    v[22] = variance;
    v
}

// One call of each kind, each on the filter that the one before it left.
fn each_kind(rt: &impl Print, run: &mut [f64]) -> io::Result<()> {
    call(rt, Kind::Propagate, run, &propagation(0.02, 0.01, 0.001))?;
    call(rt, Kind::Position, run, &position(0.01))?;
    call(rt, Kind::Velocity, run, &pair())?;
    call(rt, Kind::Direction, run, &pair())?;
    call(rt, Kind::General, run, &general())?;
    let mut state = [0.0; STATE_LENGTH];
    report(rt, name_of(Kind::State), nav_state(run, &mut state))?;
    call(rt, Kind::Scalar, run, &scalar(0.01, 0.25))
}

// One refusal of each number: too few numbers, a number that is infinite, a turn above 8, noise below 0, densities that overflow, and both ways
// to have no direction. A refusal 6 is a call sheet's, one of 8 a downgrade's.
fn refusals(rt: &impl Print, run: &mut [f64]) -> io::Result<()> {
    call(rt, Kind::Propagate, run, &pair())?;
    call(
        rt,
        Kind::Propagate,
        run,
        &propagation(f64::INFINITY, 0.01, 0.001),
    )?;
    call(rt, Kind::Propagate, run, &propagation(2000.0, 0.01, 0.001))?;
    call(rt, Kind::Position, run, &position(-100.0))?;
    call(rt, Kind::Propagate, run, &propagation(0.02, 1.0, 1.0e308))?;
    call(rt, Kind::Direction, run, &direction_by_zeros())?;
    call(rt, Kind::Direction, run, &direction_of_zeros())
}

// Those of a scalar update, but for the turn: too few numbers, an innovation that is infinite, a variance below 0, a NIS that overflows.
fn scalar_refusals(rt: &impl Print, run: &mut [f64]) -> io::Result<()> {
    call(rt, Kind::Scalar, run, &pair())?;
    call(rt, Kind::Scalar, run, &scalar(f64::INFINITY, 0.25))?;
    call(rt, Kind::Scalar, run, &scalar(0.01, -100.0))?;
    call(rt, Kind::Scalar, run, &scalar(1.0e154, 0.01))
}

// The three answers of an update by several compasses, on a filter that has just started: a budget above 8, one of 0, and one of 3. The last line is
// the update by the direction that was applied, on a copy of that filter: it has the same answer.
fn several_compasses(rt: &impl Print) -> io::Result<()> {
    let mut run = [0.0; FILTER_LENGTH];
    report(rt, "start", start(&mut run, &start_numbers()))?;
    let mut copy = run;
    compasses(rt, &mut run, 9)?;
    compasses(rt, &mut run, 0)?;
    compasses(rt, &mut run, 3)?;
    call(rt, Kind::Direction, &mut copy, &pair())
}

// A filter that has just started, downgraded and upgraded, and then refused by 8, since one of its alphas is another. The last line is a direction on
// the filter that was changed back and over: it has the answer of the line before the start.
fn conversions(rt: &impl Print) -> io::Result<()> {
    let mut run = [0.0; FILTER_LENGTH];
    report(rt, "start", start(&mut run, &start_numbers()))?;
    let mut one_alpha = [0.0; ONE_ALPHA_LENGTH];
    report(rt, "downgrade", downgrade(&run, &mut one_alpha))?;
    report(rt, "upgrade", upgrade(&one_alpha, &mut run))?;
    run[VELOCITY_ALPHA] = 0.25;
    report(rt, "downgrade", downgrade(&run, &mut one_alpha))?;
    call(rt, Kind::Direction, &mut run, &pair())
}

// The alpha that a scalar update uses, 0.5 from the start, keeps its turn on this filter below 8: it is 0 for that refusal. The last call on it is an
// update of the filter that the refusals left as it was.
fn main(rt: HostRuntime) -> io::Result<()> {
    let mut run = [0.0; FILTER_LENGTH];
    report(&rt, "start", start(&mut run, &start_numbers()))?;
    each_kind(&rt, &mut run)?;
    refusals(&rt, &mut run)?;
    scalar_refusals(&rt, &mut run)?;
    run[POSITION_ALPHA] = 0.0;
    call(&rt, Kind::Scalar, &mut run, &scalar(100.0, 0.25))?;
    call(&rt, Kind::General, &mut run, &general())?;
    several_compasses(&rt)?;
    conversions(&rt)
}
