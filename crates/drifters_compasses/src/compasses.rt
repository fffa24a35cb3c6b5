// One update by the best of several compasses: readings are tried in order, each as a direction call on the same filter, and the one with the
// smallest normalised innovation squared is applied.
ghost use Rattle.std.specs.Prelude.{◌≡◌, [], ◌++◌, length};
ghost use Rattle.drifters_entry.specs.Layout.{filter_length};
ghost use Rattle.drifters_compasses.specs.Compasses.{north_noise_length, compasses_fit, compasses_answer_of, takes_place, better, best_of, compasses_outcome, update_compasses};
ghost use Rattle.drifters_compasses.specs.Kept.{best_try, attempt_by, attempt_of};

use drifters_entry::entry::{FILTER_LENGTH, filter_call};
use drifters_eqf::answer::Refusal;
use drifters_kind::kind::Kind;
use drifters_matrix::math::runs::all_finite;

// How many numbers a reading has: a measured vector.
pub const READING_LENGTH: usize = 3;

// How many numbers north and noise have, which stand in a direction call after what is measured.
pub const NORTH_NOISE_LENGTH: usize = 12;

// The most readings of a call, and its largest budget.
pub const MOST_READINGS: usize = 8;

// How many numbers a direction call has.
const DIRECTION_LENGTH: usize = READING_LENGTH + NORTH_NOISE_LENGTH;

// The reading that is applied: its index and its normalised innovation squared.
#[derive(Clone, Copy)]
pub struct Best {
    pub index: usize,
    pub nis: f64,
}

// How many readings were tried, and the best of them; none where none was accepted.
#[derive(Clone, Copy)]
pub struct Tried {
    pub tried: usize,
    pub best: Option<Best>,
}

// The update by the best of the first readings, as many as `budget` allows: readings 3 numbers each, then north 3 and noise 9. Whether a reading is
// accepted hangs on the whole filter that it leaves, so each that is tried is computed whole, and the best so far is kept.
pub fn update_compasses(
    run: &mut [f64],
    readings: &[f64],
    north_noise: &[f64],
    budget: usize,
) -> Result<Tried, Refusal>
    ensures { compasses_outcome (compasses_answer_of result) run.new ≡ update_compasses run.old readings.now north_noise.now budget }
{
    let run = run.as_mut_array::<FILTER_LENGTH>().ok_or(Refusal::Length)?;
    let north_noise = north_noise
        .as_array::<NORTH_NOISE_LENGTH>()
        .ok_or(Refusal::Length)?;
    if !readings_fit(readings.len(), budget) {
        return Err(Refusal::Length);
    }
    if !(all_finite(run) & all_finite(north_noise)) {
        return Err(Refusal::Blank);
    }
    let (readings, _) = readings.as_chunks::<READING_LENGTH>();
    let tried = budget.min(readings.len());
    let mut left = [0.0; FILTER_LENGTH];
    let best = best_of(run, &readings[..tried], north_noise, &mut left);
    if best.is_none() {
        return Ok(Tried { tried, best });
    }
    *run = left;
    Ok(Tried { tried, best })
}

// So many numbers are from one reading to the most of them, and the budget is in range.
fn readings_fit(readings: usize, budget: usize) -> bool
    ensures { result ≡ compasses_fit filter_length readings north_noise_length budget }
{
    let count = readings / READING_LENGTH;
    (readings % READING_LENGTH == 0)
        & (1 <= count)
        & (count <= MOST_READINGS)
        & (budget <= MOST_READINGS)
}

// The best of the readings; the filter that it leaves, into `left`. The readings and north with noise stay two parameters: C lends them as two runs,
// and a struct of two loans would put its loan into each contract. `left` stands beside the best and not in it: a filter in an Option is copied with
// it, 3.8 kB each time, and `left` is one run that is lent down.
fn best_of(
    run: &[f64; FILTER_LENGTH],
    readings: &[[f64; READING_LENGTH]],
    north_noise: &[f64; NORTH_NOISE_LENGTH],
    left: &mut [f64; FILTER_LENGTH],
) -> Option<Best>
    ensures { best_try result left.new ≡ best_of (attempt_of run.now readings.now north_noise.now) (length readings.now) }
{
    let mut best = None;
    for (i, reading) in readings.iter().enumerate() {
        best = try_reading(best, i, run, reading, north_noise, left);
    }
    best
}

// The best of those so far and reading i, which is tried on a copy of the filter; a refused one is passed over.
fn try_reading(
    best: Option<Best>,
    i: usize,
    run: &[f64; FILTER_LENGTH],
    reading: &[f64; READING_LENGTH],
    north_noise: &[f64; NORTH_NOISE_LENGTH],
    left: &mut [f64; FILTER_LENGTH],
) -> Option<Best>
    ensures { best_try result left.new ≡ better (best_try best left.old) i (attempt_by run.now reading.now north_noise.now) }
{
    let mut trial = *run;
    let numbers = direction_numbers(reading, north_noise);
    let Ok(Some(nis)) = filter_call(Kind::Direction, &mut trial, &numbers) else {
        return best;
    };
    if !takes_place(nis, best) {
        return best;
    }
    *left = trial;
    Some(Best { index: i, nis })
}

// Whether a reading with this normalised innovation squared takes the place of the best so far: only where it is smaller, so that the earliest of
// equals stays.
fn takes_place(nis: f64, best: Option<Best>) -> bool
    ensures { result ≡ takes_place nis (best_try best []) }
{
    best.is_none_or(|least| nis < least.nis)
}

// The numbers of a direction call by a reading: what it measured, then north and noise.
fn direction_numbers(
    reading: &[f64; READING_LENGTH],
    north_noise: &[f64; NORTH_NOISE_LENGTH],
) -> [f64; DIRECTION_LENGTH]
    ensures { result ≡ reading.now ++ north_noise.now }
{
    let mut numbers = [0.0; DIRECTION_LENGTH];
    numbers[..READING_LENGTH].copy_from_slice(reading);
    numbers[READING_LENGTH..].copy_from_slice(north_noise);
    numbers
}
