// `spends LOG [-v]` replays a log of recorded spends and shows a line for each entry, then the four counts, as docs/SPENDS.md tells.
//
// What is shown of the reports is defined in `spend_lines`, whose contracts put it together. No contract can say what is written to a handle.
#![tactic(auto)]

mod showing;

use files::WORD_ROOM;
use showing::{say_read, say_replayed, show_refusal, show_reports};
use std::rt::{Env, Files};

// The words of the command line.
const LOG_WORD: usize = 1;

const OPTION_WORD: usize = 2;

// The most bytes of a log, 4,194,304, and one more, by which a longer file is told.
const ROOM: usize = 4_194_305;

// Reports of 322,636 entries: a log of that size has no more, since an entry has at least 13 bytes and 24 stand before the tree.
const REPORTS_ROOM: usize = 2_581_088;

// The words of work memory that the replay takes.
const WORK_WORDS: usize = 20_480;

// Says what is wrong with the words, and which are right.
fn usage(rt: &impl Eprint, wrong: &str) {
    files::say(rt, "spends: ");
    files::say(rt, wrong);
    files::say(rt, "\nusage: spends LOG [-v]\n");
    files::say(
        rt,
        "LOG is a log of recorded spends of at most 4194304 bytes, - for standard input. -v says on standard error how far it is.\n",
    );
}

// Replays a log with room for its reports and work memory, and shows what comes of it.
fn replay_in<R: Print + Eprint>(
    rt: &R,
    log: &[u8],
    reports: &mut [u8],
    work: &mut [u64],
    verbose: bool,
) {
    let mut entries = 0;
    let number = spend_entry::claspwillow_replay(log, reports, work, &mut entries);
    if number != 0 {
        show_refusal(rt, number);
        return;
    }
    if verbose {
        say_replayed(rt, entries);
    }
    show_reports(rt, reports, entries as usize, verbose);
}

// Lends a log what its replay needs.
fn replay<R: Print + Eprint>(rt: &R, log: &[u8], verbose: bool) {
    let mut reports = [0u8; REPORTS_ROOM];
    let mut work = [0u64; WORK_WORDS];
    replay_in(rt, log, &mut reports, &mut work, verbose);
}

// Reads the log that the words name into a room of one byte more than it may have, and replays it.
fn run_in<R: Env + Files + Input + Print + Eprint>(rt: &R, room: &mut [u8], verbose: bool) {
    let Some(n) = files::load_word(
        rt,
        LOG_WORD,
        b"LOG",
        true,
        b": longer than 4194304 bytes\n",
        room,
    ) else {
        return;
    };
    if verbose {
        say_read(rt, n as u64);
    }
    replay(rt, &room[..n], verbose);
}

// Replays the log that the words name.
fn run<R: Env + Files + Input + Print + Eprint>(rt: &R, verbose: bool) {
    let mut room = [0u8; ROOM];
    run_in(rt, &mut room, verbose);
}

// Whether the option is the one that there is.
fn asks_for_progress(rt: &impl Env) -> bool {
    let mut letters = [0u8; WORD_ROOM];
    let n = files::word(rt, OPTION_WORD, &mut letters).unwrap_or(0);
    let word = &letters[..n];
    word == b"-v".as_slice()
}

fn main(rt: HostRuntime) {
    match files::word_count(&rt) {
        0 | 1 => usage(&rt, "no log is named"),
        2 => run(&rt, false),
        3 => {
            if asks_for_progress(&rt) {
                run(&rt, true);
            } else {
                usage(&rt, "the word after LOG is not -v");
            }
        }
        _ => usage(&rt, "too many words"),
    }
}
