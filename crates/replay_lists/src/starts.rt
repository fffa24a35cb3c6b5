// The starts of a file against the original's answers, which stand beside the numbers of each.
use crate::call_digest::{ANSWER_BYTES, CallDigest, UNTOUCHED};
use crate::digest::digest;
use crate::numbers::{numbers_at, read_array};
use crate::tally::{Tally, print_line, unread};
use drifters_entry::entry::{FILTER_LENGTH, START_LENGTH, start};
use std::io;
use std::io::AsBytes;
use std::rt::Files;

// How many starts the file has.
const STARTS: usize = 24;

// The bytes of a start's numbers.
const NUMBERS_BYTES: usize = 8 * START_LENGTH;

// The bytes of a start with its answer.
const START_BYTES: usize = NUMBERS_BYTES + ANSWER_BYTES;

const FILE_BYTES: usize = START_BYTES * STARTS;

// Starts a filter by a start's numbers.
fn run_start(numbers: &[f64]) -> CallDigest {
    let mut run = [UNTOUCHED; FILTER_LENGTH];
    let answer = start(&mut run, numbers);
    CallDigest {
        answer,
        more: 0,
        filter: digest(&run),
    }
}

// Makes each start, all on a run of their own.
fn run_starts(s: &[u8; FILE_BYTES]) -> Tally {
    let mut tally = Tally::default();
    for record in s.chunks_exact(START_BYTES) {
        let numbers: [f64; START_LENGTH] = numbers_at(record, 0);
        tally.compare(run_start(&numbers), record, NUMBERS_BYTES);
    }
    tally
}

// Replays the file of the starts.
pub fn replay_starts<R: Files + Print>(
    rt: &R,
    name: impl AsBytes + Drop,
    path: impl AsBytes + Drop,
) -> io::Result<Tally> {
    match read_array(rt, path) {
        Some(s) => {
            let tally = run_starts(&s);
            print_line(rt, name, tally)?;
            Ok(tally)
        }
        None => unread(rt, name),
    }
}
