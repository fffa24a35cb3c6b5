// Updates by several compasses against the original's answers. The file has the filters, then the calls, each with its answer.
ghost use Rattle.std.specs.Prelude.{◌≡◌, length, min, take};

use crate::call_digest::{ANSWER_BYTES, CallDigest};
use crate::digest::digest;
use crate::numbers::{bits_at, numbers_at, read_array};
use crate::tally::{OfCompasses, Tally, print_line, unread};
use drifters_compasses::compasses::{
    MOST_READINGS, NORTH_NOISE_LENGTH, READING_LENGTH, Tried, update_compasses,
};
use drifters_entry::entry::FILTER_LENGTH;
use drifters_eqf::answer::Refusal;
use std::io;
use std::io::AsBytes;
use std::rt::Files;

// How many filters and how many calls the file has.
const FILTERS: usize = 10;

const CALLS: usize = 127;

// The places of a run in the file: one number, of readings one reading, more than the most that is taken.
const FILTER_ROOM: usize = FILTER_LENGTH + 1;

const READINGS_ROOM: usize = READING_LENGTH * (MOST_READINGS + 1);

const NORTH_NOISE_ROOM: usize = NORTH_NOISE_LENGTH + 1;

// A call has the place of its filter, how many numbers of the filter, of the readings and of north and noise are lent, and the budget; then the
// readings, then north and noise.
const READINGS: usize = 5;

const NORTH_NOISE: usize = READINGS + READINGS_ROOM;

const CALL_LENGTH: usize = NORTH_NOISE + NORTH_NOISE_ROOM;

// The bytes of the filters, of a call, and of a call with its answer.
const FILTERS_BYTES: usize = 8 * FILTER_ROOM * FILTERS;

const CALL_BYTES: usize = 8 * CALL_LENGTH;

const RECORD_BYTES: usize = CALL_BYTES + ANSWER_BYTES;

const FILE_BYTES: usize = FILTERS_BYTES + RECORD_BYTES * CALLS;

// Of the first numbers of a run as many as a call says, at most all.
fn lent(numbers: &[f64], n: u64) -> &[f64]
    ensures { result.now ≡ take (min (length numbers.now) n) numbers.now }
{
    &numbers[..numbers.len().min(n as usize)]
}

// The index times 2^32, plus how many were tried; each modulo 2^32, so that no bound has to be kept.
fn counts(index: usize, tried: usize) -> u64 {
    index as u64 % 0x1_0000_0000 * 0x1_0000_0000 + tried as u64 % 0x1_0000_0000
}

// An answer in the manner of a single update's: a NIS where a reading was chosen, ok where none was, with index 0, as such an answer is stored.
fn call_digest(answer: Result<Tried, Refusal>, filter: u64) -> CallDigest {
    match answer {
        Ok(Tried { tried, best }) => CallDigest {
            answer: Ok(best.map(|best| best.nis)),
            more: counts(best.map_or(0, |best| best.index), tried),
            filter,
        },
        Err(refusal) => CallDigest {
            answer: Err(refusal),
            more: 0,
            filter,
        },
    }
}

// Makes a call, by its bytes, on its filter, which stands from the place on that the call names.
fn run_compasses(filters: &[u8], call: &[u8]) -> CallDigest {
    let [
        at,
        filter_length,
        readings_length,
        north_noise_length,
        budget,
    ]: [u64; READINGS] = bits_at(call, 0);
    let mut filter: [f64; FILTER_ROOM] = numbers_at(filters, at as usize);
    let readings: [f64; READINGS_ROOM] = numbers_at(call, 8 * READINGS);
    let north_noise: [f64; NORTH_NOISE_ROOM] = numbers_at(call, 8 * NORTH_NOISE);
    let n = FILTER_ROOM.min(filter_length as usize);
    let run = &mut filter[..n];
    let answer = update_compasses(
        run,
        lent(&readings, readings_length),
        lent(&north_noise, north_noise_length),
        budget as usize,
    );
    call_digest(answer, digest(run))
}

// Makes each call of the file.
fn run_all(s: &[u8; FILE_BYTES]) -> Tally {
    let (filters, calls) = s.split_at(FILTERS_BYTES);
    let mut tally = Tally::default();
    for record in calls.chunks_exact(RECORD_BYTES) {
        tally.compare(run_compasses(filters, record), record, CALL_BYTES);
    }
    tally
}

// Replays the file of the compasses.
pub fn replay_compasses<R: Files + Print>(
    rt: &R,
    name: impl AsBytes + Drop,
    path: impl AsBytes + Drop,
) -> io::Result<()> {
    match read_array(rt, path) {
        Some(s) => print_line(rt, name, OfCompasses(run_all(&s))),
        None => {
            unread(rt, name)?;
            Ok(())
        }
    }
}
