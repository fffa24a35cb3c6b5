// Runs call sheets with every kind of call and at the edges of the layout, and prints what each is and its text.
#![tactic(auto)]

use call_sheet::run::{MOST_TEXT, run_sheet, sheet_text};
use call_sheet::sheet::MOST_BYTES;
use drifters_entry::entry::FILTER_LENGTH;
use drifters_eqf::answer::Refusal;
use drifters_kind::kind::Kind;
use drifters_upgrade::upgrade::ONE_ALPHA_LENGTH;
use little_endian::bytes::put_u32;
use sheet_file::{counted, read_file};
use std::io;
use std::rt::Files;

// The bytes of a filter.
const FILTER_BYTES: usize = 8 * FILTER_LENGTH;

// The bytes of a sheet of a filter alone: a count, a table of one entry, the filter.
const ALONE: usize = 4 + 8 + FILTER_BYTES;

// The same of a filter with one alpha, which versions up to 0.6.0 have.
const ONE_ALPHA: usize = 4 + 8 + 8 * ONE_ALPHA_LENGTH;

// Where the body of the one call of a sheet begins.
const BODY: usize = 4 + 8 * 2 + FILTER_BYTES;

// Where a position call ends there: it has 12 numbers.
const END: usize = BODY + 8 * 12;

// Where a scalar update ends there: it has 23 numbers.
const SCALAR_END: usize = BODY + 8 * 23;

// The bytes of a file that is longer than a sheet may be.
const LONG: usize = MOST_BYTES + 1;

// Room for the sheets that are made here, the longest of them longer than a sheet may be.
const ROOM: usize = MOST_BYTES + 8;

// The number of a filter, and the first after the kinds, which no kind has.
const FILTER: u32 = 0;

const NO_KIND: u32 = 8;

// What a sheet is, and its text.
fn report(rt: &impl Print, name: &str, sheet: &[u8]) -> io::Result<()> {
    println!(rt; "{name}:")?;
    let mut text = [0; MOST_TEXT];
    let length = sheet_text(sheet, &mut text);
    rt.write_all(&text[..length])
}

// The sheet in a file, read into the run that is lent; one that cannot be read is run as an empty one.
fn file<R: Files + Print>(rt: &R, name: &str, path: &str, bytes: &mut [u8]) -> io::Result<()> {
    let n = read_file(rt, path.as_bytes(), bytes).unwrap_or(0);
    report(rt, name, &bytes[..n])
}

// The sheet in a file, read into an array that holds every sheet.
fn whole_file<R: Files + Print>(rt: &R, name: &str, path: &str) -> io::Result<()> {
    file(rt, name, path, &mut [0; MOST_BYTES])
}

// A sheet that is made here: numbers one after the other, a count and a table, and zeros after them, which are its bodies. An array and no `Vec`: no heap
// is needed.
#[derive(Drop)]
struct MadeSheet {
    bytes: [u8; ROOM],
    // The place of the next number. It wraps, so that no bound has to be kept.
    end: usize,
}

impl MadeSheet {
    fn new() -> MadeSheet {
        MadeSheet {
            bytes: [0; ROOM],
            end: 0,
        }
    }

    // A number; where there is no room for it, it is not written.
    fn push(&mut self, n: u32) {
        put_u32(&mut self.bytes, self.end, n);
        self.end = self.end.wrapping_add(4);
    }

    // An entry of a table: its kind, and the offset of its body, modulo 2^32, so that no bound has to be kept. The kind is a number here, since numbers of
    // no kind are written too.
    fn push_entry(&mut self, kind: u32, offset: usize) {
        self.push(kind);
        self.push((offset % 0x1_0000_0000) as u32);
    }

    // Entries of n calls of a kind, the first body at `offset`. Answers where the last body ends; this wraps, so that no bound has to be kept.
    fn push_calls(&mut self, n: u16, kind: Kind, offset: usize) -> usize {
        let mut end = offset;
        for _ in 0..n {
            self.push_entry(kind.form().number, end);
            end = end.wrapping_add(8 * kind.call_length());
        }
        end
    }

    // A count of n entries, and the entry of a filter right after the table, as each sheet begins. Answers where the filter ends.
    fn push_front(&mut self, n: u16) -> usize {
        let offset = 4 + 8 * usize::from(n);
        self.push(u32::from(n));
        self.push_entry(FILTER, offset);
        offset + FILTER_BYTES
    }

    // The sheet in a file of `length` bytes. It fails where there is no room for so many.
    fn report(&self, rt: &impl Print, name: &str, length: usize) -> io::Result<()> {
        let sheet = self.bytes.get(..length).ok_or(io::ErrorKind::FileTooLarge)?;
        report(rt, name, sheet)
    }
}

// A filter of zeros alone, by its entry, in a file of `length` bytes.
fn filter_entry(
    rt: &impl Print,
    name: &str,
    kind: u32,
    offset: usize,
    length: usize,
) -> io::Result<()> {
    let mut sheet = MadeSheet::new();
    sheet.push(1);
    sheet.push_entry(kind, offset);
    sheet.report(rt, name, length)
}

// A filter of zeros and one call, its body at `offset`, in a file of `length` bytes.
fn one_call(
    rt: &impl Print,
    name: &str,
    kind: u32,
    offset: usize,
    length: usize,
) -> io::Result<()> {
    let mut sheet = MadeSheet::new();
    sheet.push_front(2);
    sheet.push_entry(kind, offset);
    sheet.report(rt, name, length)
}

// A sheet of n entries: a filter of zeros, and state calls, whose bodies are empty.
fn states(rt: &impl Print, name: &str, n: u16) -> io::Result<()> {
    let mut sheet = MadeSheet::new();
    let end = sheet.push_front(n);
    sheet.push_calls(n.saturating_sub(1), Kind::State, end);
    sheet.report(rt, name, end)
}

// A sheet of n entries: a filter of zeros, 101 general updates, a propagation, and state calls.
fn long(rt: &impl Print, name: &str, n: u16) -> io::Result<()> {
    let mut sheet = MadeSheet::new();
    let updates = sheet.push_front(n);
    let propagation = sheet.push_calls(101, Kind::General, updates);
    let end = sheet.push_calls(1, Kind::Propagate, propagation);
    sheet.push_calls(n.saturating_sub(103), Kind::State, end);
    sheet.report(rt, name, end)
}

// A text run that is a byte too short is refused 1.
fn short_text(rt: &impl Print) -> io::Result<()> {
    let mut text = [0; MOST_TEXT - 1];
    match run_sheet(b"", &mut text) {
        Err(Refusal::Length) => println!(rt; "a text run a byte too short:\nrefused 1"),
        _ => Ok(()),
    }
}

// A filter of zeros and one call: in its place, and out of it.
fn one_calls(rt: &impl Print) -> io::Result<()> {
    let position = Kind::Position.form().number;
    one_call(rt, "a position call", position, BODY, END)?;
    one_call(rt, "a gap", position, BODY + 8, END + 8)?;
    one_call(rt, "an offset too high", position, BODY + 8, END)?;
    one_call(rt, "an overlap", position, BODY - 8, END - 8)?;
    one_call(rt, "an offset too low", position, BODY - 8, END)?;
    one_call(rt, "a byte too many", position, BODY, END + 1)?;
    one_call(rt, "a byte too few", position, BODY, END - 1)?;
    one_call(rt, "a state call", Kind::State.form().number, BODY, BODY)?;
    one_call(
        rt,
        "a scalar update",
        Kind::Scalar.form().number,
        BODY,
        SCALAR_END,
    )?;
    one_call(rt, "the first number of no kind", NO_KIND, BODY, SCALAR_END)?;
    one_call(rt, "the highest number", u32::MAX, BODY, END)?;
    one_call(rt, "a second filter", FILTER, BODY, BODY + FILTER_BYTES)
}

// How many bytes count; of what cannot be read none.
fn print_count(rt: &impl Print, name: &str, count: io::Result<usize>) -> io::Result<()> {
    let n = count.unwrap_or(0);
    println!(rt; "{name}: {n} bytes")
}

// How many bytes count of a file of LONG bytes in the run that is lent: it is `read_file` that is tried here, in runs of several lengths.
fn long_file<R: Files + Print>(rt: &R, name: &str, bytes: &mut [u8]) -> io::Result<()> {
    let count = read_file(rt, b"long.bin", bytes);
    print_count(rt, name, count)
}

// What counts of BODY bytes that were read, a sheet of a filter and a state call, by the answer of one further read.
fn further_reads(rt: &impl Print) -> io::Result<()> {
    let failure = Err(io::Error::from(io::ErrorKind::Other));
    print_count(rt, "3860 bytes, then the end", counted(BODY, Ok(0)))?;
    print_count(rt, "3860 bytes, then a byte", counted(BODY, Ok(1)))?;
    print_count(rt, "3860 bytes, then a failure", counted(BODY, failure))
}

// What is read of files, and what of it counts: a file in a run that holds it, in one a byte shorter, and in one that holds a sheet of a filter and a
// state call, which the file begins with.
fn files<R: Files + Print>(rt: &R) -> io::Result<()> {
    whole_file(rt, "a folder", ".")?;
    long_file(rt, "a file in a run of its length", &mut [0; LONG])?;
    long_file(rt, "in a run a byte shorter", &mut [0; MOST_BYTES])?;
    file(
        rt,
        "a sheet, and more bytes than the run holds",
        "long.bin",
        &mut [0; BODY],
    )?;
    further_reads(rt)
}

fn main(rt: HostRuntime) -> io::Result<()> {
    whole_file(&rt, "every kind and every refusal", "flight.bin")?;
    whole_file(&rt, "large numbers", "overflow.bin")?;
    whole_file(&rt, "no such file", "missing.bin")?;
    report(&rt, "an empty file", b"")?;
    states(&rt, "no entries", 0)?;
    states(&rt, "a filter alone", 1)?;
    states(&rt, "256 entries", 256)?;
    states(&rt, "257 entries", 257)?;
    filter_entry(&rt, "a filter of kind 1", 1, 12, ALONE)?;
    filter_entry(&rt, "a filter at 13", FILTER, 13, ALONE)?;
    filter_entry(&rt, "a filter with one alpha", FILTER, 12, ONE_ALPHA)?;
    one_calls(&rt)?;
    long(&rt, "the longest sheet", 111)?;
    long(&rt, "a longer one", 112)?;
    short_text(&rt)?;
    files(&rt)
}
