// The text that `spends` shows: a line for each report, and the four counts.
//
// Its contracts cite specs/Lines.antt.
#![tactic(auto)]

ghost use Rattle.std.specs.Prelude.{◌++◌, ◌+◌, ◌*◌, ◌≤◌, length};
ghost use Rattle.names.specs.Text.{bytes};
ghost use Rattle.script_leaves.specs.Laying.{Lays};
ghost use Rattle.spend_lines.specs.Lines.{newline, decimal, verdict_words, line_of, lines_of, counts_of, Shows};

use itoa::Buffer;
use script_leaves::{put, put_bytes};
use spend_tally::{Tally, number_in, verdict_in};

// Lays a number in decimal.
fn put_decimal(out: &mut [u8], at: usize, n: u64) -> usize
    ensures { Lays out.old out.new at (decimal n) result }
{
    let mut digits = Buffer::new();
    put_bytes(out, at, digits.format(n).as_bytes())
}

// Lays a space, a verdict in words and the end of the line.
fn put_verdict(out: &mut [u8], at: usize, verdict: u32) -> usize
    ensures { Lays out.old out.new at (bytes " " ++ verdict_words verdict ++ newline) result }
{
    match verdict {
        0 => put_bytes(out, at, b" agrees\n"),
        1 => put_bytes(out, at, b" differs\n"),
        2 => put_bytes(out, at, b" mismatched\n"),
        _ => put_bytes(out, at, b" too large\n"),
    }
}

// Lays the line of an entry.
fn put_line(out: &mut [u8], at: usize, number: u32, verdict: u32) -> usize
    ensures { Lays out.old out.new at (line_of number verdict) result }
{
    let to = put_decimal(out, at, number as u64);
    put_verdict(out, to, verdict)
}

// Puts the lines of `count` reports, from one on, at the front of a block that has 32 bytes for each, and answers where they end.
pub fn put_lines(out: &mut [u8], reports: &[u8], from: usize, count: usize) -> usize
    requires count_in_bounds { 8 * (from + count) ≤ length reports.now }
    requires count_in_bounds_2 { 32 * count ≤ length out.old }
    ensures { Shows out.old out.new (lines_of reports.now from count) result }
{
    let mut at = 0;
    for i in 0..count {
        let number = number_in(reports, from + i);
        let verdict = verdict_in(reports, from + i);
        at = put_line(out, at, number, verdict);
    }
    at
}

// Lays a word, a number and the end of the line.
fn put_count(out: &mut [u8], at: usize, word: &[u8], n: usize) -> usize
    ensures { Lays out.old out.new at (word.now ++ decimal n ++ newline) result }
{
    let named = put_bytes(out, at, word);
    let numbered = put_decimal(out, named, n as u64);
    put(out, numbered, b'\n')
}

// Puts the lines of the four counts at the front of a block that has 32 bytes for each, and answers where they end.
pub fn put_counts(out: &mut [u8], t: Tally) -> usize
    requires { 128 ≤ length out.old }
    ensures { Shows out.old out.new (counts_of t) result }
{
    let agree = put_count(out, 0, b"agree ", t.agree);
    let differ = put_count(out, agree, b"differ ", t.differ);
    let mismatched = put_count(out, differ, b"mismatched ", t.mismatched);
    put_count(out, mismatched, b"too large ", t.too_large)
}
