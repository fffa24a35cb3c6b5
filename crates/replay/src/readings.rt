// Readings that are run, not proved: the lengths of the runs, and the text of sheets.
ghost use Rattle.std.specs.Prelude.{◌+◌, ◌≤◌};

use call_sheet::run::{MOST_TEXT, sheet_text};
use call_sheet::sheet::MOST_BYTES;
use drifters_entry::entry::{FILTER_LENGTH, START_LENGTH, filter_call, nav_state, start};
use drifters_eqf::answer::{Answer, Refusal};
use drifters_kind::kind::{Kind, MOST_CALL_NUMBERS, STATE_LENGTH};
use replay_lists::tally::unread;
use sheet_file::read_file;
use std::io;
use std::rt::Files;

// How many numbers are lent, by how many are stated.
#[derive(Clone, Copy)]
enum Lent {
    Fewer,
    Stated,
    More,
}

impl Lent {
    // One fewer than n, n, or one more. Of none, one fewer is none too.
    fn length(self, n: usize) -> usize
        ensures { result ≤ n + 1 }
    {
        match self {
            Lent::Fewer => n.saturating_sub(1),
            Lent::Stated => n,
            Lent::More => n.saturating_add(1),
        }
    }
}

// The answer to a call of a kind on zeros.
fn called(kind: Kind, run: &mut [f64], lent: Lent) -> Answer {
    let numbers = [0.0; MOST_CALL_NUMBERS + 1];
    filter_call(kind, run, &numbers[..lent.length(kind.call_length())])
}

// How many of the eight entries are refused by length.
fn refused(run: &mut [f64], lent: Lent) -> usize {
    let mut state = [0.0; STATE_LENGTH + 1];
    let numbers = [0.0; START_LENGTH + 1];
    let answers = [
        called(Kind::Propagate, run, lent),
        called(Kind::General, run, lent),
        called(Kind::Scalar, run, lent),
        called(Kind::Position, run, lent),
        called(Kind::Velocity, run, lent),
        called(Kind::Direction, run, lent),
        nav_state(run, &mut state[..lent.length(STATE_LENGTH)]),
        start(run, &numbers[..lent.length(START_LENGTH)]),
    ];
    answers
        .iter()
        .filter(|answer| matches!(answer, Err(Refusal::Length)))
        .count()
}

// Prints how many of the eight entries are refused by length.
fn print_refused(rt: &impl Print, name: &str, run: &mut [f64], lent: Lent) -> io::Result<()> {
    let n = refused(run, lent);
    println!(rt; "{name}: {n} of 8 entries refused 1")
}

// Runs one number shorter and one longer than stated, and as stated; and a filter with one alpha, which has a number more than a start.
pub(crate) fn print_lengths(rt: &impl Print) -> io::Result<()> {
    let mut one_alpha = [0.0; START_LENGTH + 1];
    let mut short = [0.0; FILTER_LENGTH - 1];
    let mut run = [0.0; FILTER_LENGTH];
    let mut long = [0.0; FILTER_LENGTH + 1];
    print_refused(rt, "a filter with one alpha", &mut one_alpha, Lent::Stated)?;
    print_refused(rt, "a filter one number short", &mut short, Lent::Stated)?;
    print_refused(rt, "a filter one number long", &mut long, Lent::Stated)?;
    print_refused(rt, "a number too few", &mut run, Lent::Fewer)?;
    print_refused(rt, "a number too many", &mut run, Lent::More)?;
    print_refused(rt, "every length as stated", &mut run, Lent::Stated)
}

// A sheet's file as the program `sheet` prints it.
pub(crate) fn print_sheet<R: Files + Print>(rt: &R, name: &str, path: &str) -> io::Result<()> {
    let mut sheet = [0; MOST_BYTES];
    match read_file(rt, path.as_bytes(), &mut sheet) {
        Ok(n) if n != 0 => {
            let mut text = [0; MOST_TEXT];
            let length = sheet_text(&sheet[..n], &mut text);
            println!(rt; "{name}:")?;
            rt.write_all(&text[..length])
        }
        _ => {
            unread(rt, name)?;
            Ok(())
        }
    }
}
