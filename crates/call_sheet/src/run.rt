// Running a call sheet: its bytes in, the text of its answers out.
ghost use Rattle.std.specs.Prelude.{◌≡◌, true, ◌+◌, ◌*◌, ◌≤◌, length, take};
ghost use Rattle.drifters_kind.specs.Kind.{call_length};
ghost use Rattle.drifters_eqf.specs.Answer.{refusal_number, answer_of};
ghost use Rattle.drifters_entry.specs.Entry.{outcome_on};
ghost use Rattle.little_endian.specs.Bytes.{placed};
ghost use Rattle.call_sheet.specs.Sheet.{is_some, calls_in};
ghost use Rattle.call_sheet.specs.Text.{refused_line, numbers_of, lines_of, sheet_text, printed, print_into};

use crate::sheet::{MOST_CALLS, MOST_NUMBERS, read_sheet};
use crate::text::{put, put_answer, put_line};
use drifters_entry::entry::{FILTER_LENGTH, call};
use drifters_eqf::answer::{Answer, Refusal};
use drifters_kind::kind::{Kind, MOST_CALL_NUMBERS, STATE_LENGTH};
use little_endian::bits::{number_of, numbers_of};

// Room for every sheet's text: 23 bytes for each of 255 calls.
pub const MOST_TEXT: usize = 5865;

// Runs a sheet and writes the text of its answers to the front of `text`. Answers the text's length. A lent run, since the library has no heap for a
// text that is returned.
pub fn run_sheet(s: &[u8], text: &mut [u8]) -> Result<usize, Refusal>
    ensures { printed result text.new ≡ print_into s.now text.old }
{
    if text.len() < MOST_TEXT {
        return Err(Refusal::Length);
    }
    let mut filter = [0u64; FILTER_LENGTH];
    let mut kinds = [Kind::State; MOST_CALLS];
    let mut numbers = [0u64; MOST_NUMBERS];
    match read_sheet(s, &mut filter, &mut kinds, &mut numbers) {
        Ok(n) => {
            let mut run = filter.map(number_of);
            Ok(run_calls(&mut run, &kinds[..n], &numbers, text))
        }
        Err(refusal) => Ok(put_refused(text, refusal)),
    }
}

// The same into an array that holds every text, which is never refused.
pub fn sheet_text(s: &[u8], text: &mut [u8; MOST_TEXT]) -> usize
    ensures value { (result ≡ length (sheet_text s.now)) × (text.new ≡ placed text.old 0 (sheet_text s.now)) }
    ensures upper_bound { (result ≤ length text.new) × (result ≡ length (take result text.new)) }
{
    run_sheet(s, text).unwrap()
}

// The line of a sheet that is refused.
fn put_refused(text: &mut [u8], refusal: Refusal) -> usize
    requires { 17 ≤ length text.old }
    ensures { (result ≡ length (refused_line (refusal_number refusal))) × (text.new ≡ placed text.old 0 (refused_line (refusal_number refusal))) }
{
    let end = put_answer(text, 0, Err(refusal));
    put(text, end, b"\n")
}

// Makes the calls in turn, each on the filter that the one before it left, and writes their lines to the front of `text`. Answers the length of
// these. Kinds and numbers stand in two runs: there is no heap for a list of calls of different lengths.
fn run_calls(run: &mut [f64], kinds: &[Kind], numbers: &[u64], text: &mut [u8]) -> usize
    requires { (is_some (calls_in kinds.now numbers.now) ≡ true) × (23 * length kinds.now ≤ length text.old) }
    ensures { (result ≡ length (lines_of run.old (calls_in kinds.now numbers.now))) × (text.new ≡ placed text.old 0 (lines_of run.old (calls_in kinds.now numbers.now))) }
{
    let mut at = 0;
    let mut length = 0;
    for (i, kind) in kinds.iter().enumerate() {
        let end = at + kind.call_length();
        let answer = run_call(*kind, run, &numbers[at..end]);
        length = put_line(text, length, i + 1, *kind, answer);
        at = end;
    }
    length
}

// Makes a call whose numbers are given by their bits; what a state call writes is not printed. The arrays hold the most of any kind: there is no heap.
fn run_call(kind: Kind, run: &mut [f64], bits: &[u64]) -> Answer
    requires { length bits.now ≡ call_length kind }
    ensures { (answer_of result ≡ (outcome_on run.old kind (numbers_of bits.now)).answer) × (run.new ≡ (outcome_on run.old kind (numbers_of bits.now)).run) }
{
    let mut numbers = [0.0; MOST_CALL_NUMBERS];
    let n = bits.len();
    numbers_of(bits, &mut numbers[..n]);
    let mut state = [0.0; STATE_LENGTH];
    let m = kind.written_length();
    call(kind, run, &numbers[..n], &mut state[..m])
}
