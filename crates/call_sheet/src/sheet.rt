// The layout of a call sheet, and the runs that it is read into. A table of n entries ends at 4 + 8 * n: the count, and eight bytes for each.
ghost use Rattle.std.specs.Prelude.{◌≡◌, ◌-◌, ◌≤◌, true, length, take, map, None, MatchOption, option_map};
ghost use Rattle.call_sheet.specs.Sheet.{most_entries, count_of, filter_end, header_fits, calls_at, kinds_of, read_sheet, runs, read_into};

use drifters_entry::entry::FILTER_LENGTH;
use drifters_eqf::answer::Refusal;
use drifters_kind::kind::{FromKind, Kind};
use little_endian::bytes::{u32_at, u64s_at};

// The most entries of a sheet, the filter counted.
const MOST_ENTRIES: usize = 256;

// The most bytes of a sheet.
pub const MOST_BYTES: usize = 65536;

// The most calls of a sheet.
pub const MOST_CALLS: usize = 255;

// Room for the numbers of all its calls: each is eight bytes.
pub const MOST_NUMBERS: usize = 8192;

// Reads a sheet: the bits of its filter, the kinds of its calls or their numbers, and the bits of the calls' numbers one after another, as many as each
// kind has (`Kind::call_length`). Answers how many calls it has. Three lent runs and a count: the library has no heap for a list of calls.
pub fn read_sheet<K: FromKind>(
    s: &[u8],
    filter: &mut [u64],
    kinds: &mut [K],
    numbers: &mut [u64],
) -> Result<usize, Refusal>
    ensures { runs result filter.new kinds.new numbers.new ≡ read_into K.from_kind s.now filter.old kinds.old numbers.old }
{
    if filter.len() != FILTER_LENGTH || kinds.len() < MOST_CALLS || numbers.len() < MOST_NUMBERS {
        return Err(Refusal::Length);
    }
    let n = entries(s).ok_or(Refusal::Sheet)?;
    let found = call_kinds(s, n).ok_or(Refusal::Sheet)?;
    u64s_at(s, 4 + 8 * n, filter);
    write_kinds(&mut kinds[..n - 1], &found[..n - 1]);
    let end = 4 + 8 * n + 8 * FILTER_LENGTH;
    let m = (s.len() - end) / 8;
    u64s_at(s, end, &mut numbers[..m]);
    Ok(n - 1)
}

// How many entries a sheet has; None where count or size is out of range, or entry 0 is no filter right after the table.
fn entries(s: &[u8]) -> Option<usize>
    ensures { MatchOption result (read_sheet s.now ≡ None) (λ n. (n ≡ count_of s.now) × (header_fits s.now ≡ true) × (filter_end n ≤ length s.now)) }
{
    if s.len() < 4 || MOST_BYTES < s.len() {
        return None;
    }
    let n = u32_at(s, 0) as usize;
    if n < 1 || MOST_ENTRIES < n {
        return None;
    }
    if s.len() < 4 + 8 * n + 8 * FILTER_LENGTH {
        return None;
    }
    if u32_at(s, 4) != 0 || u32_at(s, 8) as usize != 4 + 8 * n {
        return None;
    }
    Some(n)
}

// The kinds of the calls after the filter, at the front of the array; None where the entries are no calls whose bodies follow each other to the end
// of the file. An array of the most calls, of which n - 1 count: there is no heap. The table is read by the index, since after a `zip` with `iter_mut`
// nothing is known of what was written.
fn call_kinds(s: &[u8], n: usize) -> Option<[Kind; MOST_CALLS]>
    requires { (1 ≤ n) × (n ≤ most_entries) × (filter_end n ≤ length s.now) }
    ensures { option_map (λ kinds. take (n - 1) kinds) result ≡ option_map kinds_of (calls_at (n - 1) 1 s.now (filter_end n)) }
{
    let mut kinds = [Kind::State; MOST_CALLS];
    let mut place = 4 + 8 * n + 8 * FILTER_LENGTH;
    for (i, kind) in kinds[..n - 1].iter_mut().enumerate() {
        *kind = Kind::try_from(u32_at(s, 12 + 8 * i)).ok()?;
        let offset = u32_at(s, 16 + 8 * i) as usize;
        if offset != place {
            return None;
        }
        place += 8 * kind.call_length();
    }
    (place == s.len()).then_some(kinds)
}

// Writes the kinds that were found, each as the type of the run has it.
fn write_kinds<K: FromKind>(kinds: &mut [K], found: &[Kind])
    requires { length kinds.old ≡ length found.now }
    ensures { kinds.new ≡ map K.from_kind found.now }
{
    for (i, kind) in kinds.iter_mut().enumerate() {
        *kind = K::from_kind(found[i]);
    }
}
