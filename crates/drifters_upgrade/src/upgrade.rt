// A filter with one alpha, changed over to one with an alpha for each sensor, and back, on lent runs. Runs of any length come in; a call that is
// refused changes none of them. The numbers go over by `copy_run`: `copy_from_slice` would be a call of memmove here (layout.rt of drifters_entry).
ghost use Rattle.std.specs.Prelude.{◌≡◌, true};
ghost use Rattle.drifters_matrix.specs.Matrix.{all_finite};
ghost use Rattle.drifters_eqf.specs.Answer.{answer_of};
ghost use Rattle.drifters_entry.specs.Entry.{outcome};
ghost use Rattle.drifters_upgrade.specs.Upgrade.{alphas_equal, upgrade, downgrade};

use drifters_entry::entry::{FILTER_LENGTH, copy_run};
use drifters_entry::layout::{ALPHAS, DIRECTION_ALPHA, POSITION_ALPHA, VELOCITY_ALPHA};
use drifters_eqf::answer::{Answer, Refusal};
use drifters_matrix::math::runs::all_finite;

// How many numbers a filter with one alpha has: its alpha stands last, where that for position stands in a filter.
pub const ONE_ALPHA_LENGTH: usize = POSITION_ALPHA + 1;

// A filter with one alpha, changed over: it gets that alpha for each sensor. What `written` held before does not matter.
pub fn upgrade(run: &[f64], written: &mut [f64]) -> Answer
    ensures { outcome (answer_of result) run.now written.new ≡ upgrade run.now written.old }
{
    let run = run.as_array::<ONE_ALPHA_LENGTH>().ok_or(Refusal::Length)?;
    let written = written
        .as_mut_array::<FILTER_LENGTH>()
        .ok_or(Refusal::Length)?;
    if !all_finite(run) {
        return Err(Refusal::Blank);
    }
    copy_run(run, &mut written[..ONE_ALPHA_LENGTH]);
    written[ONE_ALPHA_LENGTH..].copy_from_slice(&[run[POSITION_ALPHA]; ALPHAS - 1]);
    Ok(None)
}

// A filter whose alphas are equal, changed back: it keeps the one. What `written` held before does not matter.
pub fn downgrade(run: &[f64], written: &mut [f64]) -> Answer
    ensures { outcome (answer_of result) run.now written.new ≡ downgrade run.now written.old }
{
    let run = run.as_array::<FILTER_LENGTH>().ok_or(Refusal::Length)?;
    let written = written
        .as_mut_array::<ONE_ALPHA_LENGTH>()
        .ok_or(Refusal::Length)?;
    if !all_finite(run) {
        return Err(Refusal::Blank);
    }
    if !alphas_equal(run) {
        return Err(Refusal::Unequal);
    }
    copy_run(&run[..ONE_ALPHA_LENGTH], written);
    Ok(None)
}

// The three alphas have the same bits: of two zeros the sign counts, since a filter with one alpha has one sign.
fn alphas_equal(run: &[f64; FILTER_LENGTH]) -> bool
    requires { all_finite run.now ≡ true }
    ensures { result ≡ alphas_equal run.now }
{
    let first = run[POSITION_ALPHA].to_bits();
    (first == run[VELOCITY_ALPHA].to_bits()) & (first == run[DIRECTION_ALPHA].to_bits())
}
