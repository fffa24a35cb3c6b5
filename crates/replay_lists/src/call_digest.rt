// What came of a call, and the original's stored answer.
use crate::numbers::bits_at;
use drifters_eqf::answer::Answer;
use little_endian::bits::bits_of;

// The bytes of a stored answer.
pub const ANSWER_BYTES: usize = 32;

// The code of a NIS, which no refusal has.
const NIS: u64 = 256;

// What the runs that a call may write hold before it: a refusal leaves it there.
pub(crate) const UNTOUCHED: f64 = 1.5;

#[derive(Clone, Copy)]
pub struct CallDigest {
    pub(crate) answer: Answer,
    // The third number of a stored answer: the digest of the run lent for a state; by several compasses, which was chosen and how many were tried;
    // else 0.
    pub(crate) more: u64,
    pub(crate) filter: u64,
}

// An answer as it is stored: these four numbers, so coded, are what the files hold (../replay/README.md, 'An answer').
#[derive(Clone, Copy, PartialEq, Eq)]
pub(crate) struct Stored {
    // 0 for ok, 256 for a NIS, else the number of the refusal.
    code: u64,
    // The bits of a NIS; 0 for another answer.
    nis: u64,
    more: u64,
    // The digest of the filter.
    filter: u64,
}

impl Stored {
    // The answer in the 32 bytes from a place on: a run and a place, since an answer follows the numbers of its call in one record. None where they are
    // not all there: bytes past the end would be read as 0, as some answers have them. No `From` for the four numbers: this is their one use.
    pub(crate) fn at(s: &[u8], at: usize) -> Option<Stored> {
        let answer = s.get(at..)?.get(..ANSWER_BYTES)?;
        let [code, nis, more, filter]: [u64; 4] = bits_at(answer, 0);
        Some(Stored {
            code,
            nis,
            more,
            filter,
        })
    }
}

impl From<CallDigest> for Stored {
    fn from(given: CallDigest) -> Stored {
        let (code, nis) = match given.answer {
            Ok(None) => (0, 0),
            Ok(Some(nis)) => (NIS, bits_of(nis)),
            Err(refusal) => (u64::from(u32::from(refusal)), 0),
        };
        Stored {
            code,
            nis,
            more: given.more,
            filter: given.filter,
        }
    }
}
