// What `spends` writes: lines and counts on standard output, block by block, and how far it is on standard error.
ghost use Rattle.std.specs.Prelude.{◌+◌, ◌*◌, ◌≤◌, length};

use spend_lines::{put_counts, put_lines};
use spend_tally::tally_of;

// The most lines of a block, which has 32 bytes for each.
const BLOCK_LINES: usize = 2_048;

const BLOCK_ROOM: usize = 65_536;

// Room for the four counts, of 32 bytes each.
const COUNTS_ROOM: usize = 128;

// Writes a number and a text to standard error, after the program's name.
fn say(rt: &impl Eprint, n: u64, text: &str) {
    let _ = eprint!(rt; "spends: {n}{text}");
}

// Says how many bytes the log has.
pub fn say_read(rt: &impl Eprint, n: u64) {
    say(rt, n, " bytes read\n");
}

// Says how many entries were replayed.
pub fn say_replayed(rt: &impl Eprint, n: u64) {
    say(rt, n, " entries replayed\n");
}

// Says how many lines were shown, if that is asked for.
fn say_shown(rt: &impl Eprint, verbose: bool, n: usize) {
    if verbose {
        say(rt, n as u64, " entries shown\n");
    }
}

// A refusal: its number and name, and what it means. A broken log has the number of a broken tree.
pub fn show_refusal<R: Print + Eprint>(rt: &R, number: u32) {
    report::show_refusal(rt, number);
    if number == 14 {
        let _ = rt.write_all(
            b"or the log is broken: a part of it does not fit, or a byte is none of those that its form has\n",
        );
    }
}

// Writes the lines of `count` reports, from one on, at most as many as a block holds.
fn show_block(rt: &impl Print, reports: &[u8], from: usize, count: usize) -> bool
    requires count_in_bounds { 8 * (from + count) ≤ length reports.now }
    requires count_bound { count ≤ 2048 }
{
    let mut block = [0u8; BLOCK_ROOM];
    let n = put_lines(&mut block, reports, from, count);
    rt.write_all(&block[..n]).is_ok()
}

// Writes the four counts of the first n reports.
fn show_counts(rt: &impl Print, reports: &[u8], n: usize) -> bool
    requires { 8 * n ≤ length reports.now }
{
    let t = tally_of(reports, n);
    let mut block = [0u8; COUNTS_ROOM];
    let end = put_counts(&mut block, t);
    rt.write_all(&block[..end]).is_ok()
}

// Writes the lines of the first n reports.
fn show_lines<R: Print + Eprint>(rt: &R, reports: &[u8], n: usize, verbose: bool) -> bool
    requires { 8 * n ≤ length reports.now }
{
    let mut whole = true;
    let mut at = 0;
    // A `while`, since the last block is shown after it, and may be shorter.
    while BLOCK_LINES < n - at {
        whole = show_block(rt, reports, at, BLOCK_LINES) & whole;
        at += BLOCK_LINES;
        say_shown(rt, verbose, at);
    }
    let last = show_block(rt, reports, at, n - at);
    say_shown(rt, verbose, n);
    last & whole
}

// Shows the first n reports and their counts; says so where standard output does not take all of it.
pub fn show_reports<R: Print + Eprint>(rt: &R, reports: &[u8], n: usize, verbose: bool)
    requires { 8 * n ≤ length reports.now }
{
    let lines = show_lines(rt, reports, n, verbose);
    let counts = show_counts(rt, reports, n);
    if lines & counts {
        return;
    }
    files::say(rt, "spends: standard output could not be written\n");
}
