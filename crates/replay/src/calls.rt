// The calls of a sheet, made in turn and compared with the original's stored answers.
use call_sheet::sheet::{MOST_BYTES, MOST_CALLS, MOST_NUMBERS, read_sheet};
use drifters_entry::entry::FILTER_LENGTH;
use drifters_kind::kind::Kind;
use little_endian::bits::number_of;
use replay_lists::call_digest::ANSWER_BYTES;
use replay_lists::calls::run_call;
use replay_lists::tally::{Tally, unread};
use sheet_file::read_file;
use std::io;
use std::rt::Files;

// The most bytes of a file of answers.
const MOST_ANSWERS: usize = ANSWER_BYTES * MOST_CALLS;

// Makes a call for each answer, each on the filter that the one before it left. It ends where the numbers do, which those of a sheet do not.
fn run_calls(run: &mut [f64], kinds: &[Kind], bits: &[u64], answers: &[u8]) -> Tally {
    let mut tally = Tally::default();
    let mut rest = bits;
    for (kind, answer) in kinds.iter().zip(answers.chunks_exact(ANSWER_BYTES)) {
        let n = kind.call_length();
        if rest.len() < n {
            break;
        }
        let (call, others) = rest.split_at(n);
        tally.compare(run_call(*kind, run, call), answer, 0);
        rest = others;
    }
    tally
}

// A sheet and its answers, as many as it has calls. Three arrays of the most, since `read_sheet` writes into lent runs.
fn replay_sheet(rt: &impl Print, name: &str, sheet: &[u8], answers: &[u8]) -> io::Result<Tally> {
    let mut filter = [0; FILTER_LENGTH];
    let mut kinds = [Kind::State; MOST_CALLS];
    let mut bits = [0; MOST_NUMBERS];
    match read_sheet(sheet, &mut filter, &mut kinds, &mut bits) {
        Ok(n) if n == answers.len() / ANSWER_BYTES => {
            let mut run = filter.map(number_of);
            let tally = run_calls(&mut run, &kinds, &bits, answers);
            println!(rt; "{name}: {tally}")?;
            Ok(tally)
        }
        _ => unread(rt, name),
    }
}

// Replays the sheet of one file against the answers of another. A file that cannot be read to its end, or is longer than its array, counts as no bytes:
// no sheet, or the answers to no call. Arrays and no `Vec`: so a file of any length is refused without a heap.
pub(crate) fn replay_files<R: Files + Print>(
    rt: &R,
    title: &str,
    sheet: &str,
    answers: &str,
) -> io::Result<Tally> {
    let mut sheet_bytes = [0; MOST_BYTES];
    let n = read_file(rt, sheet.as_bytes(), &mut sheet_bytes).unwrap_or(0);
    let mut answer_bytes = [0; MOST_ANSWERS];
    let m = read_file(rt, answers.as_bytes(), &mut answer_bytes).unwrap_or(0);
    replay_sheet(rt, title, &sheet_bytes[..n], &answer_bytes[..m])
}
