// One call, and what it leaves.
use crate::call_digest::{CallDigest, UNTOUCHED};
use crate::digest::digest;
use drifters_entry::entry::call;
use drifters_kind::kind::{Kind, MOST_CALL_NUMBERS, STATE_LENGTH};
use little_endian::bits::numbers_of;

// Makes a call by the bits of its numbers; where they are more or fewer than the kind has, it has zeros. The `run_call` of call_sheet is private: it
// asks that the bits fit, as no public function may, and keeps no state. The arrays hold the most of any kind, since their lengths are constants.
pub fn run_call(kind: Kind, run: &mut [f64], bits: &[u64]) -> CallDigest {
    let mut numbers = [0.0; MOST_CALL_NUMBERS];
    let n = kind.call_length();
    numbers_of(bits, &mut numbers[..n]);
    let mut state = [UNTOUCHED; STATE_LENGTH];
    let m = kind.written_length();
    let answer = call(kind, run, &numbers[..n], &mut state[..m]);
    CallDigest {
        answer,
        more: digest(&state),
        filter: digest(run),
    }
}
