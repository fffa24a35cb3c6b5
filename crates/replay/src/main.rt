// Replays calls whose answers by the original are stored, and prints how many differ; then the readings of lengths and of sheets' texts.
#![tactic(auto)]

mod calls;
mod readings;

use calls::replay_files;
use readings::{print_lengths, print_sheet};
use replay_lists::compasses::replay_compasses;
use replay_lists::leaves::replay_leaves;
use replay_lists::starts::replay_starts;
use replay_lists::tally::Tally;
use std::io;
use std::rt::Files;

// A row for each list: its name, and the files of its sheet and of its answers.
macro_rules! lists {
    ($($name:literal),* $(,)?) => {
        [$(($name, concat!($name, ".sheet"), concat!($name, ".answers"))),*]
    };
}

// Flights of the mount, as they are and with some of the numbers of their calls changed; filters that no flight leaves; large biases; an alpha for each
// sensor; turns just above 8 and of 8; directions by vectors of norm 0 and just above it.
const LISTS: [(&str, &str, &str); 34] = lists![
    "flight",
    "second_flight",
    "backwards",
    "damaged",
    "stretched",
    "enlarged",
    "shrunk",
    "emptied",
    "noise",
    "turns",
    "directions",
    "general",
    "scalar",
    "zeros",
    "unsymmetric",
    "indefinite",
    "wild",
    "huge_state",
    "huge_sigma",
    "huge_e",
    "huge_nis",
    "rounded_away",
    "biased",
    "blank",
    "three_alphas",
    "outer_alphas",
    "blank_alpha",
    "limit_update",
    "limit_scalar",
    "limit_full",
    "limit_full_e",
    "limit_half",
    "limit_half_e",
    "limit_null",
];

// Sheets whose text is printed, by title and file.
const SHEETS: [(&str, &str); 9] = [
    (
        "a turn above 8, then of 8: update, attitude and E",
        "limit_update.sheet",
    ),
    (
        "the same: scalar update, attitude and E",
        "limit_scalar.sheet",
    ),
    ("the same: full step", "limit_full.sheet"),
    ("the same: full step, E", "limit_full_e.sheet"),
    ("the same: half step", "limit_half.sheet"),
    ("the same: half step, E", "limit_half_e.sheet"),
    (
        "directions: norm 0, just above it, infinite; order of the checks",
        "limit_null.sheet",
    ),
    ("n of 0", "count0.sheet"),
    ("n of 257", "count257.sheet"),
];

fn replay_calls<R: Files + Print>(rt: &R) -> io::Result<Tally> {
    let mut tally = Tally::default();
    for (name, sheet, answers) in LISTS {
        tally = tally + replay_files(rt, name, sheet, answers)?;
    }
    Ok(tally)
}

fn print_sheets<R: Files + Print>(rt: &R) -> io::Result<()> {
    for (title, path) in SHEETS {
        print_sheet(rt, title, path)?;
    }
    Ok(())
}

fn main(rt: HostRuntime) -> io::Result<()> {
    let calls = replay_calls(&rt)?;
    let all = calls + replay_starts(&rt, "starts", "starts.bin")?;
    println!(rt; "all calls: {all}")?;
    replay_compasses(&rt, "compasses", "compasses.bin")?;
    replay_leaves(&rt)?;
    print_lengths(&rt)?;
    print_sheets(&rt)?;
    replay_files(
        &rt,
        "blank, a bit of its answers changed",
        "blank.sheet",
        "blank_changed.answers",
    )?;
    Ok(())
}
