// The lines of a list of trees and those of the report on them: docs/WITNESS.md.
//
// The contracts cite specs/Lines.antt (what a list says) and specs/Report.antt (the report's lines).
#![tactic(auto)]

ghost use Rattle.std.specs.Prelude.{◌≡◌, ◌+◌, ◌<◌, ◌≤◌, length, drop};
ghost use Rattle.witness_lines.specs.Lines.{index_of, EndsAt, shown_from, Reads};
ghost use Rattle.witness_lines.specs.Report.{Number, Ending, ReportLine, Row, Rows, Appended, AppendedDigits, Shows};

use itoa::Buffer;
use numerals::decimal;
use witness_tally::{Outcome, Tally};

const NEWLINE: u8 = 10;

const SPACE: u8 = 32;

// A line of the list that names a tree: its context, and where in the line the path begins.
#[derive(Clone, Copy)]
pub struct Listed {
    pub context: u32,
    pub path: usize,
}

// Where a byte stands first in a text, from a place on, or where the text ends.
fn find(text: &[u8], from: usize, sign: u8) -> usize
    requires { from ≤ length text.now }
    ensures place { result ≡ from + index_of sign (drop from text.now) }
    ensures within { result ≤ length text.now }
{
    for at in from..text.len() {
        if text[at] == sign {
            return at;
        }
    }
    text.len()
}

// Where the line of a text ends that begins at a place.
pub fn line_end(text: &[u8], at: usize) -> usize
    requires { at < length text.now }
    ensures { EndsAt text.now at result }
{
    find(text, at, NEWLINE)
}

// What a line says, none for one of another form.
pub fn read_line(line: &[u8]) -> Option<Listed>
    ensures { Reads line.now result }
{
    let space = find(line, 0, SPACE);
    let context = decimal(&line[..space])?;
    let path = space + 1;
    if path < line.len() {
        return Some(Listed { context, path });
    }
    None
}

// Where the part of a line begins that the report shows.
pub fn shown_from(said: Option<Listed>) -> usize
    ensures { result ≡ shown_from said }
{
    match said {
        Some(input) => input.path,
        None => 0,
    }
}

// Puts a text behind the first bytes of a block.
fn append(text: &[u8], out: &mut [u8], used: usize) -> usize
    requires { used + length text.now ≤ length out.old }
    ensures { Appended text.now out.old used out.new result }
{
    let end = used + text.len();
    out[used..end].copy_from_slice(text);
    end
}

// Puts the first digits of a row there.
fn append_digits(row: [u8; 20], count: usize, out: &mut [u8], used: usize) -> usize
    requires { (count ≤ length row) × (used + 20 ≤ length out.old) }
    ensures { AppendedDigits row count out.old used out.new result }
{
    append(&row[..count], out, used)
}

// Puts a space and a number there.
fn append_number(n: u64, out: &mut [u8], used: usize) -> usize
    requires { used + 21 ≤ length out.old }
    ensures { Shows (Number n) 21 out.old used out.new result }
{
    let mut buffer = Buffer::new();
    let text = buffer.format(n).as_bytes();
    let count = text.len();
    let mut digits = [0u8; 20];
    digits[..count].copy_from_slice(text);
    let spaced = append(b" ", out, used);
    append_digits(digits, count, out, spaced)
}

// Puts what a line ends with there.
fn append_ending(o: Outcome, out: &mut [u8], used: usize) -> usize
    requires { used + 43 ≤ length out.old }
    ensures { Shows (Ending o) 43 out.old used out.new result }
{
    match o {
        Outcome::Bytes(smallest, largest) => {
            let first = append_number(smallest, out, used);
            let second = append_number(largest, out, first);
            append(b"\n", out, second)
        }
        Outcome::NoWay => append(b" none\n", out, used),
        Outcome::Refused(number) => {
            let first = append(b" refused", out, used);
            let second = append_number(number as u64, out, first);
            append(b"\n", out, second)
        }
    }
}

// Puts the line of an outcome there: what is shown of the list's line, and what came of it.
pub fn append_line(shown: &[u8], o: Outcome, out: &mut [u8], used: usize) -> usize
    requires { used + (length shown.now + 43) ≤ length out.old }
    ensures { Shows (ReportLine shown.now o) (length shown.now + 43) out.old used out.new result }
{
    let ending = append(shown, out, used);
    append_ending(o, out, ending)
}

// Puts a word, a number and a newline there.
fn append_row(word: &[u8], n: u64, out: &mut [u8], used: usize) -> usize
    requires { used + (length word.now + 22) ≤ length out.old }
    ensures { Shows (Row word.now n) (length word.now + 22) out.old used out.new result }
{
    let first = append(word, out, used);
    let second = append_number(n, out, first);
    append(b"\n", out, second)
}

// Puts the last lines of a report there: the counts and sums.
pub fn append_rows(t: Tally, out: &mut [u8], used: usize) -> usize
    requires { used + 150 ≤ length out.old }
    ensures { Shows (Rows t) 150 out.old used out.new result }
{
    let a = append_row(b"inputs", t.inputs, out, used);
    let b = append_row(b"none", t.none, out, a);
    let c = append_row(b"refused", t.refused, out, b);
    let d = append_row(b"smallest", t.smallest, out, c);
    append_row(b"largest", t.largest, out, d)
}
