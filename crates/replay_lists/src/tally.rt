// How many calls gave each answer, and how many answered otherwise than the original.
use crate::call_digest::{CallDigest, Stored};
use drifters_eqf::answer::{Answer, Refusal};
use std::io::AsBytes;
use std::num::Wrapping;
use std::ops::Add;
use std::{fmt, io};

// Counts that wrap, so that no bound has to be kept; no list is as long.
type Count = Wrapping<u64>;

const ONE: Count = Wrapping(1);

// How many calls differ, and the first of them, counted from 1.
#[derive(Clone, Copy, Default)]
struct Differing {
    calls: Count,
    first: Option<Count>,
}

// A counter for each answer, by name: a map would be no plainer, and each line prints some of them at their places.
#[derive(Clone, Copy, Default)]
pub struct Tally {
    calls: Count,
    fine: Count,
    nis: Count,
    length: Count,
    blank: Count,
    turn: Count,
    pivot: Count,
    range: Count,
    null: Count,
    differing: Differing,
}

impl Tally {
    // One call more: its answer, and whether the original's is the same.
    pub(crate) fn count(&mut self, answer: Answer, same: bool) {
        self.calls += ONE;
        match answer {
            Ok(None) => self.fine += ONE,
            Ok(Some(_)) => self.nis += ONE,
            Err(Refusal::Length) => self.length += ONE,
            Err(Refusal::Blank) => self.blank += ONE,
            Err(Refusal::Turn) => self.turn += ONE,
            Err(Refusal::Pivot) => self.pivot += ONE,
            Err(Refusal::Range) => self.range += ONE,
            Err(Refusal::Null) => self.null += ONE,
            // A sheet's and a conversion's, which no call answers.
            Err(Refusal::Sheet | Refusal::Unequal) => {}
        }
        if !same {
            self.differing.calls += ONE;
            self.differing.first = self.differing.first.or(Some(self.calls));
        }
    }

    // One call more: what came of it, and the original's answer from a place on; where there is none it differs. A run and a place, since an answer
    // follows the numbers in one record.
    pub fn compare(&mut self, given: CallDigest, answers: &[u8], at: usize) {
        let same = Stored::at(answers, at) == Some(Stored::from(given));
        self.count(given.answer, same);
    }
}

// The calls of both; which of them differs first is not said.
impl Add for Tally {
    type Output = Tally;

    fn add(self, more: Tally) -> Tally {
        Tally {
            calls: self.calls + more.calls,
            fine: self.fine + more.fine,
            nis: self.nis + more.nis,
            length: self.length + more.length,
            blank: self.blank + more.blank,
            turn: self.turn + more.turn,
            pivot: self.pivot + more.pivot,
            range: self.range + more.range,
            null: self.null + more.null,
            differing: Differing {
                calls: self.differing.calls + more.differing.calls,
                first: None,
            },
        }
    }
}

// The end of a line.
impl fmt::Display for Differing {
    fn fmt<W: fmt::Write>(&self, f: &mut fmt::Formatter<W>) -> fmt::Result {
        let calls = self.calls;
        write!(f, "{calls} differ")?;
        match self.first {
            Some(first) => write!(f, ", the first at {first}"),
            None => Ok(()),
        }
    }
}

// The line of a list of calls.
impl fmt::Display for Tally {
    fn fmt<W: fmt::Write>(&self, f: &mut fmt::Formatter<W>) -> fmt::Result {
        let Tally {
            calls,
            fine,
            nis,
            blank,
            turn,
            pivot,
            range,
            null,
            differing,
            ..
        } = *self;
        write!(
            f,
            "{calls} calls: {fine} ok, {nis} NIS, {blank} refused 2, {turn} refused 3, "
        )?;
        write!(
            f,
            "{pivot} refused 4, {range} refused 5, {null} refused 7; {differing}"
        )
    }
}

// The line of a list of updates by several compasses.
#[derive(Clone, Copy)]
pub(crate) struct OfCompasses(pub(crate) Tally);

impl fmt::Display for OfCompasses {
    fn fmt<W: fmt::Write>(&self, f: &mut fmt::Formatter<W>) -> fmt::Result {
        let Tally {
            calls,
            fine,
            nis,
            length,
            blank,
            differing,
            ..
        } = self.0;
        write!(
            f,
            "{calls} calls: {nis} chosen, {fine} none, {length} refused 1, {blank} refused 2; {differing}"
        )
    }
}

// The line of a list of values, which are all given.
#[derive(Clone, Copy)]
pub(crate) struct OfValues(pub(crate) Tally);

impl fmt::Display for OfValues {
    fn fmt<W: fmt::Write>(&self, f: &mut fmt::Formatter<W>) -> fmt::Result {
        let Tally {
            calls,
            differing,
            ..
        } = self.0;
        write!(f, "{calls} values; {differing}")
    }
}

// Says that a list's files are missing or do not fit each other: no call is made. The tally is empty and no error, so that the other lists are still
// replayed; the line said differs from the stored one, and so the gate fails.
pub fn unread(rt: &impl Print, name: impl AsBytes + Drop) -> io::Result<Tally> {
    print_line(rt, name, "cannot be read")?;
    Ok(Tally::default())
}

// A line of a list: its name, and what is said of it. A name is bytes, which no format takes.
pub(crate) fn print_line(
    rt: &impl Print,
    name: impl AsBytes + Drop,
    line: impl fmt::Display + Drop,
) -> io::Result<()> {
    rt.write_all(name.as_byte_slice())?;
    println!(rt; ": {line}")
}

#[cfg(test)]
mod tests {
    use super::*;
    use crate::calls::run_call;
    use drifters_entry::entry::FILTER_LENGTH;
    use drifters_kind::kind::Kind;

    // Whether a state call on a filter of zeros, whose stored answer is zeros, is counted as differing from the answer in some bytes.
    fn differs(answers: &[u8], at: usize) -> bool {
        let given = run_call(Kind::State, &mut [0.0; FILTER_LENGTH], &[]);
        let mut tally = Tally::default();
        tally.compare(given, answers, at);
        tally.differing.calls == ONE
    }

    #[test]
    fn an_answer_that_is_missing_or_cut_differs(rt: HostRuntime) {
        assert!(rt; !differs(&[0; 32], 0));
        assert!(rt; differs(&[], 0));
        assert!(rt; differs(&[0; 31], 0));
        assert!(rt; differs(&[0; 32], 1));
        assert!(rt; differs(&[0; 32], usize::MAX));
    }
}
