// Runs the call sheet in the file sheet.bin of the current folder and prints the index, kind and answer of each call.
#![tactic(auto)]

use call_sheet::run::{MOST_TEXT, sheet_text};
use call_sheet::sheet::MOST_BYTES;
use sheet_file::read_file;
use std::io;

// A file that cannot be read is run as an empty one, which is no sheet. An array and no `Vec`: so a file of any length is refused without a heap.
fn main(rt: HostRuntime) -> io::Result<()> {
    let mut bytes = [0; MOST_BYTES];
    let n = read_file(&rt, b"sheet.bin", &mut bytes).unwrap_or(0);
    let mut text = [0; MOST_TEXT];
    let length = sheet_text(&bytes[..n], &mut text);
    rt.write_all(&text[..length])
}
