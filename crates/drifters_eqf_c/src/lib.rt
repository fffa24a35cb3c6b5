// The filter's calls and conversions, call sheets, sine, cosine and square root, for C and Rust to call. Runs of any length come in. A function
// answers 0 or the number of its refusal, and a refusal changes no lent run. include/drifters_eqf.h declares them. C has no Option and no Result, and
// the five updates have five names there: so the codes, the lent result of one number and the names stay, in the exported functions only.
#![tactic(auto)]

ghost use Rattle.std.specs.Prelude.{◌≡◌, []};
ghost use Rattle.drifters_real.specs.Real.{sqrt};
ghost use Rattle.drifters_entry.specs.Entry.{call, start};
ghost use Rattle.drifters_upgrade.specs.Upgrade.{upgrade, downgrade};
ghost use Rattle.drifters_kind.specs.declared.kind.Kind.TheVariants.{Propagate, Position, Velocity, Direction, General, State, Scalar};
ghost use Rattle.drifters_eqf_c.specs.Exports.{code_of, coded, coded_outcome, coded_update, coded_compasses, coded_update_compasses, coded_sin_cos, coded_text, coded_sheet};

use call_sheet::run::run_sheet;
use drifters_compasses::compasses::{MOST_READINGS, Tried, update_compasses};
use drifters_entry::entry::{filter_call, nav_state, start};
use drifters_eqf::answer::Refusal;
use drifters_kind::kind::Kind;
use drifters_real::math::real::sin_cos;
use drifters_upgrade::upgrade::{downgrade, upgrade};

// How many numbers each run has that one result is written to.
const RESULT_LENGTH: usize = 1;

// How many numbers the run of a sine and a cosine has.
const SIN_COS_LENGTH: usize = 2;

// How many numbers the run has that counts are written to: how many readings were tried, and the index of the one that was applied.
const COUNTS_LENGTH: usize = 2;

// The index that is written where no reading was applied: no reading has it.
const NONE_CHOSEN: usize = MOST_READINGS;

// A filter from its first numbers: 33 of a state, 441 of a covariance, 3 of gravity.
#[unsafe(no_mangle)]
pub extern "C" fn drifters_start(filter: &mut [f64], numbers: &[f64]) -> u32
    ensures { coded result filter.new [] ≡ coded_outcome (start filter.old numbers.now) }
{
    code_of(start(filter, numbers))
}

// A filter with an alpha for each sensor from one with one alpha.
#[unsafe(no_mangle)]
pub extern "C" fn drifters_upgrade(one_alpha: &[f64], filter: &mut [f64]) -> u32
    ensures { coded result one_alpha.now filter.new ≡ coded_outcome (upgrade one_alpha.now filter.old) }
{
    code_of(upgrade(one_alpha, filter))
}

// A filter with one alpha from one whose alphas are equal.
#[unsafe(no_mangle)]
pub extern "C" fn drifters_downgrade(filter: &[f64], one_alpha: &mut [f64]) -> u32
    ensures { coded result filter.now one_alpha.new ≡ coded_outcome (downgrade filter.now one_alpha.old) }
{
    code_of(downgrade(filter, one_alpha))
}

// Propagation: omega 3, accel 3, dt, densities 18.
#[unsafe(no_mangle)]
pub extern "C" fn drifters_propagate(filter: &mut [f64], numbers: &[f64]) -> u32
    ensures { coded result filter.new [] ≡ coded_outcome (call Propagate filter.old numbers.now []) }
{
    code_of(filter_call(Kind::Propagate, filter, numbers))
}

// The update by an antenna position: antenna 3, noise 9.
#[unsafe(no_mangle)]
pub extern "C" fn drifters_update_position(
    filter: &mut [f64],
    numbers: &[f64],
    nis: &mut [f64],
) -> u32
    ensures { coded result filter.new nis.new ≡ coded_update Position filter.old numbers.now nis.old }
{
    code_of(update_by(Kind::Position, filter, numbers, nis))
}

// The update by an antenna velocity: antenna 3, omega 3, noise 9.
#[unsafe(no_mangle)]
pub extern "C" fn drifters_update_velocity(
    filter: &mut [f64],
    numbers: &[f64],
    nis: &mut [f64],
) -> u32
    ensures { coded result filter.new nis.new ≡ coded_update Velocity filter.old numbers.now nis.old }
{
    code_of(update_by(Kind::Velocity, filter, numbers, nis))
}

// The update by a direction: measured 3, north 3, noise 9.
#[unsafe(no_mangle)]
pub extern "C" fn drifters_update_direction(
    filter: &mut [f64],
    numbers: &[f64],
    nis: &mut [f64],
) -> u32
    ensures { coded result filter.new nis.new ≡ coded_update Direction filter.old numbers.now nis.old }
{
    code_of(update_by(Kind::Direction, filter, numbers, nis))
}

// The general update: output matrix 63, innovation 3, noise 9.
#[unsafe(no_mangle)]
pub extern "C" fn drifters_update(filter: &mut [f64], numbers: &[f64], nis: &mut [f64]) -> u32
    ensures { coded result filter.new nis.new ≡ coded_update General filter.old numbers.now nis.old }
{
    code_of(update_by(Kind::General, filter, numbers, nis))
}

// The update by one measured number: output row 21, innovation, variance.
#[unsafe(no_mangle)]
pub extern "C" fn drifters_update_scalar(
    filter: &mut [f64],
    numbers: &[f64],
    nis: &mut [f64],
) -> u32
    ensures { coded result filter.new nis.new ≡ coded_update Scalar filter.old numbers.now nis.old }
{
    code_of(update_by(Kind::Scalar, filter, numbers, nis))
}

// The update by the best of several compasses: readings 3 numbers each; north 3, noise 9. How many were tried and the index of the reading that was
// applied, `NONE_CHOSEN` where none was, into `counts`.
#[unsafe(no_mangle)]
pub extern "C" fn drifters_update_compasses(
    filter: &mut [f64],
    readings: &[f64],
    north_noise: &[f64],
    budget: usize,
    counts: &mut [usize],
    nis: &mut [f64],
) -> u32
    ensures { coded_compasses result filter.new counts.new nis.new ≡ coded_update_compasses filter.old readings.now north_noise.now budget counts.old nis.old }
{
    code_of(compasses_by(filter, readings, north_noise, budget, counts, nis))
}

// The estimate, its 33 numbers into `state`.
#[unsafe(no_mangle)]
pub extern "C" fn drifters_nav_state(filter: &[f64], state: &mut [f64]) -> u32
    ensures { coded result filter.now state.new ≡ coded_outcome (call State filter.now [] state.old) }
{
    code_of(nav_state(filter, state))
}

// Runs the bytes of a call sheet; its text to the front of `text`, the text's length into `length`.
#[unsafe(no_mangle)]
pub extern "C" fn drifters_run_sheet(sheet: &[u8], text: &mut [u8], length: &mut [usize]) -> u32
    ensures { coded_text result text.new length.new ≡ coded_sheet sheet.now text.old length.old }
{
    code_of(sheet_by(sheet, text, length))
}

// Sine and cosine of an angle from 0 to 8, into `out`; for any other both are not a number.
#[unsafe(no_mangle)]
pub extern "C" fn drifters_sin_cos(theta: f64, out: &mut [f64]) -> u32
    ensures { coded result [] out.new ≡ coded_sin_cos theta out.old }
{
    code_of(sin_cos_into(theta, out))
}

// The square root.
#[unsafe(no_mangle)]
pub extern "C" fn drifters_sqrt(x: f64) -> f64
    ensures { result ≡ sqrt x }
{
    drifters_real::math::real::sqrt(x)
}

// The code of an answer: 0, or the number of the refusal.
fn code_of<T: Copy>(answer: Result<T, Refusal>) -> u32
    ensures { result ≡ code_of answer }
{
    match answer {
        Ok(_) => 0,
        Err(refusal) => u32::from(refusal),
    }
}

// An update of a kind, its normalised innovation squared into `nis` where it is accepted.
fn update_by(
    kind: Kind,
    filter: &mut [f64],
    numbers: &[f64],
    nis: &mut [f64],
) -> Result<(), Refusal>
    ensures { coded (code_of result) filter.new nis.new ≡ coded_update kind filter.old numbers.now nis.old }
{
    let nis = nis.as_mut_array::<RESULT_LENGTH>().ok_or(Refusal::Length)?;
    if let Some(r) = filter_call(kind, filter, numbers)? {
        *nis = [r];
    }
    Ok(())
}

// The update by the best of several compasses; how many were tried and which was applied into `counts`, and its normalised innovation squared into
// `nis`.
fn compasses_by(
    filter: &mut [f64],
    readings: &[f64],
    north_noise: &[f64],
    budget: usize,
    counts: &mut [usize],
    nis: &mut [f64],
) -> Result<(), Refusal>
    ensures { coded_compasses (code_of result) filter.new counts.new nis.new ≡ coded_update_compasses filter.old readings.now north_noise.now budget counts.old nis.old }
{
    let counts = counts
        .as_mut_array::<COUNTS_LENGTH>()
        .ok_or(Refusal::Length)?;
    let nis = nis.as_mut_array::<RESULT_LENGTH>().ok_or(Refusal::Length)?;
    let Tried { tried, best } = update_compasses(filter, readings, north_noise, budget)?;
    match best {
        Some(best) => {
            *counts = [tried, best.index];
            *nis = [best.nis];
        }
        None => *counts = [tried, NONE_CHOSEN],
    }
    Ok(())
}

// Runs a sheet, its text to the front of `text`, the text's length into `length`.
fn sheet_by(sheet: &[u8], text: &mut [u8], length: &mut [usize]) -> Result<(), Refusal>
    ensures { coded_text (code_of result) text.new length.new ≡ coded_sheet sheet.now text.old length.old }
{
    let length = length
        .as_mut_array::<RESULT_LENGTH>()
        .ok_or(Refusal::Length)?;
    let n = run_sheet(sheet, text)?;
    *length = [n];
    Ok(())
}

// Sine and cosine of an angle, into `out`.
fn sin_cos_into(theta: f64, out: &mut [f64]) -> Result<(), Refusal>
    ensures { coded (code_of result) [] out.new ≡ coded_sin_cos theta out.old }
{
    let out = out.as_mut_array::<SIN_COS_LENGTH>().ok_or(Refusal::Length)?;
    let both = sin_cos(theta);
    *out = [both.sin, both.cos];
    Ok(())
}
