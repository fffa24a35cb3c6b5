// Text: of an answer, `ok`, the digits of a normalised innovation squared, or the number of a refusal; and the line of a call. The place that text
// is put at and the run that it is put into are parameters: a struct of both would lend the run, and its contracts would be about the loan besides.
ghost use Rattle.std.specs.Prelude.{◌≡◌, ◌+◌, ◌≤◌, ◌<◌, length};
ghost use Rattle.drifters_kind.specs.Kind.{kind_number};
ghost use Rattle.drifters_eqf.specs.Answer.{answer_of};
ghost use Rattle.little_endian.specs.Bytes.{placed};
ghost use Rattle.call_sheet.specs.Digits.{digit, digits, decimal};
ghost use Rattle.call_sheet.specs.Text.{answer_text, line_text};

use drifters_eqf::answer::Answer;
use drifters_kind::kind::Kind;
use little_endian::bits::bits_of;

// The most bytes of an answer's text.
pub const MOST_ANSWER: usize = 16;

// The text of an answer, to the front of `bytes`, of which the others stay. Answers its length. No `Display`: its contract says what is written where
// it answers `Ok`, and not that it does, and here each byte is promised.
pub fn answer_text(answer: Answer, bytes: &mut [u8; MOST_ANSWER]) -> usize
    ensures { (result ≡ length (answer_text (answer_of answer))) × ((bytes.new ≡ placed bytes.old 0 (answer_text (answer_of answer))) × (result ≤ 16)) }
{
    put_answer(bytes, 0, answer)
}

// The line of entry i, from place `at` of `out` on: index, kind, answer. Answers where it ends.
pub(crate) fn put_line(out: &mut [u8], at: usize, i: usize, kind: Kind, answer: Answer) -> usize
    requires { at + 23 ≤ length out.old }
    ensures { (result ≡ at + length (line_text i kind (answer_of answer))) × ((out.new ≡ placed out.old at (line_text i kind (answer_of answer))) × (result ≤ at + 23)) }
{
    let a = put_decimal(out, at, i as u64);
    let b = put(out, a, b" ");
    let c = put_kind(out, b, kind);
    let d = put(out, c, b" ");
    let e = put_answer(out, d, answer);
    put(out, e, b"\n")
}

// The number of a kind in decimal, from place `at` of `out` on. Answers where it ends: it is one digit.
fn put_kind(out: &mut [u8], at: usize, kind: Kind) -> usize
    requires { at + 3 ≤ length out.old }
    ensures { (result ≡ at + length (decimal (kind_number kind))) × ((out.new ≡ placed out.old at (decimal (kind_number kind))) × (result ≤ at + 1)) }
{
    put_decimal(out, at, u64::from(kind.form().number))
}

// The text of an answer, from place `at` of `out` on. Answers where it ends.
pub(crate) fn put_answer(out: &mut [u8], at: usize, answer: Answer) -> usize
    requires { at + 16 ≤ length out.old }
    ensures { (result ≡ at + length (answer_text (answer_of answer))) × ((out.new ≡ placed out.old at (answer_text (answer_of answer))) × (result ≤ at + 16)) }
{
    match answer {
        Ok(Some(x)) => {
            let end = at + 16;
            put_digits(&mut out[at..end], bits_of(x), 16);
            end
        }
        Ok(None) => put(out, at, b"ok"),
        Err(refusal) => {
            let end = put(out, at, b"refused ");
            put_decimal(out, end, u64::from(u32::from(refusal)))
        }
    }
}

// A number in decimal, from place `at` of `out` on. Answers where it ends.
fn put_decimal(out: &mut [u8], at: usize, n: u64) -> usize
    requires { at + 3 ≤ length out.old }
    ensures { (result ≡ at + length (decimal n)) × ((out.new ≡ placed out.old at (decimal n)) × (result ≤ at + 3)) }
{
    let end = at + decimal_length(n);
    put_digits(&mut out[at..end], n, 10);
    end
}

// Bytes, from place `at` of `out` on. Answers where they end.
pub(crate) fn put(out: &mut [u8], at: usize, bytes: &[u8]) -> usize
    requires { at + length bytes.now ≤ length out.old }
    ensures { (result ≡ at + length bytes.now) × (out.new ≡ placed out.old at bytes.now) }
{
    let end = at + bytes.len();
    out[at..end].copy_from_slice(bytes);
    end
}

// How many digits of a number are printed in decimal: of one below 1000 all, of a larger one the last three.
#[tactic(auto, unfolding(crate::specs::Digits::decimal))]
fn decimal_length(n: u64) -> usize
    ensures { (decimal n ≡ digits 10 result n) × (result ≤ 3) }
{
    if n < 10 {
        1
    } else if n < 100 {
        2
    } else {
        3
    }
}

// The last digits of n in a base, as many as `out` has places.
fn put_digits(out: &mut [u8], n: u64, base: u64)
    requires { (2 ≤ base) × (base ≤ 16) }
    ensures { out.new ≡ digits base (length out.old) n }
{
    let mut m = n;
    // By index: while `iter_mut().rev()` lends `out`, an invariant does not see it.
    for j in (0..out.len()).rev() {
        out[j] = digit(m % base);
        m /= base;
    }
}

// A digit in text: 0 to 9, then A to F.
fn digit(d: u64) -> u8
    requires { d < 16 }
    ensures { result ≡ digit d }
{
    if d < 10 {
        return b'0' + d as u8;
    }
    b'A' + (d - 10) as u8
}
