// What a line of the stored list says: docs/BENCH.md, "The stored list".
//
// The contracts cite specs/Lines.antt; those of the parts of the reading specs/Reads.antt as well.
#![tactic(auto)]

ghost use Rattle.std.specs.Prelude.{◌≡◌, ◌+◌, ◌*◌, ◌≤◌, length};
ghost use Rattle.numerals.specs.Numbers.{decimal as Numbers·decimal};
ghost use Rattle.oracle_lines.specs.Lines.{space, split, said_by, line_of};
ghost use Rattle.oracle_lines.specs.Lines.{bytes as Lines·bytes, records as Lines·records, cost as Lines·cost};
ghost use Rattle.oracle_lines.specs.Reads.{part, EndsAt, Reads, cost_told, SixWords, InOrder, said_at, told, Tells};

use numerals::{NO_DIGIT, bits, decimal, digit};

const SPACE: u8 = 32;

const HASH: u8 = 35;

const DASH: u8 = 45;

// A cost: its bits, and 1 where it is never, else 0.
#[derive(Clone, Copy)]
pub struct CostRead {
    pub bits: u64,
    pub never: u32,
}

// Where the first five of six words end.
#[derive(Clone, Copy)]
pub struct Ends {
    pub a: usize,
    pub b: usize,
    pub c: usize,
    pub d: usize,
    pub e: usize,
}

// What a line says of a case. The policy and the output stand at the front of their rooms; here are their lengths.
#[derive(Clone, Copy)]
pub struct Said {
    pub context: u32,
    pub policy: usize,
    pub number: u32,
    pub output: usize,
    pub cost: u64,
    pub never: u32,
    pub nodes: u32,
}

// What reading a line finds.
#[derive(Clone, Copy)]
pub enum Case {
    Passed,
    Says(Said),
    Broken,
}

// Where the piece of s that starts at `from` ends: at the next sign, or at the end of s.
pub fn end_of(s: &[u8], from: usize, sign: u8) -> usize
    requires { from ≤ length s.now }
    ensures { EndsAt sign s.now from result }
{
    for i in from..s.len() {
        if s[i] == sign {
            return i;
        }
    }
    s.len()
}

// Puts the bytes that pairs of digits write at the front of a room.
fn bytes(word: &[u8], room: &mut [u8]) -> Option<usize>
    requires { length word.now ≤ 2 * length room.old }
    ensures { Reads (Lines·bytes word.now) room.new result }
{
    let pairs = word.len().div_ceil(2);
    for n in 0..pairs {
        if 2 * n + 1 == word.len() {
            return None;
        }
        let high = digit(word[2 * n]);
        let low = digit(word[2 * n + 1]);
        if NO_DIGIT <= high {
            return None;
        }
        if NO_DIGIT <= low {
            return None;
        }
        room[n] = high * 16 + low;
    }
    Some(pairs)
}

// Puts the bytes of records at the front of a room.
fn records(word: &[u8], room: &mut [u8]) -> Option<usize>
    requires { length word.now ≤ 2 * length room.old }
    ensures { Reads (Lines·records word.now) room.new result }
{
    if word.len() == 0 {
        return None;
    }
    if word.len() == 1 {
        if word[0] == DASH {
            return Some(0);
        }
        return None;
    }
    bytes(word, room)
}

// The cost that a word writes: its bits in 16 digits, or the sign of never.
fn cost(word: &[u8]) -> Option<CostRead>
    ensures { cost_told result ≡ Lines·cost word.now }
{
    if word.len() == 1 {
        if word[0] == DASH {
            return Some(CostRead { bits: 0, never: 1 });
        }
        return None;
    }
    let bits = bits(word)?;
    Some(CostRead { bits, never: 0 })
}

// Where the words of a line end.
fn six_words(line: &[u8]) -> Option<Ends>
    ensures { SixWords line.now result }
{
    let a = end_of(line, 0, SPACE);
    if a == line.len() {
        return None;
    }
    let b = end_of(line, a + 1, SPACE);
    if b == line.len() {
        return None;
    }
    let c = end_of(line, b + 1, SPACE);
    if c == line.len() {
        return None;
    }
    let d = end_of(line, c + 1, SPACE);
    if d == line.len() {
        return None;
    }
    let e = end_of(line, d + 1, SPACE);
    if e == line.len() {
        return None;
    }
    let f = end_of(line, e + 1, SPACE);
    if f == line.len() {
        return Some(Ends { a, b, c, d, e });
    }
    None
}

// The decimal number in a part of a line.
fn decimal_at(line: &[u8], from: usize, to: usize) -> Option<u32>
    requires { (from ≤ to) × (to ≤ length line.now) }
    ensures { result ≡ Numbers·decimal (part line.now from to) }
{
    decimal(&line[from..to])
}

// The cost in a part of a line.
fn cost_at(line: &[u8], from: usize, to: usize) -> Option<CostRead>
    requires { (from ≤ to) × (to ≤ length line.now) }
    ensures { cost_told result ≡ Lines·cost (part line.now from to) }
{
    cost(&line[from..to])
}

// Puts the bytes of the records in a part of a line at the front of a room.
fn records_at(line: &[u8], from: usize, to: usize, room: &mut [u8]) -> Option<usize>
    requires { (from ≤ to) × (to ≤ length line.now) × (length line.now ≤ 2 * length room.old) }
    ensures { Reads (Lines·records (part line.now from to)) room.new result }
{
    records(&line[from..to], room)
}

// What six words say, the policy and the output put at the front of their rooms.
fn case_in(line: &[u8], ends: Ends, policy: &mut [u8], output: &mut [u8]) -> Option<Said>
    requires in_order { InOrder ends (length line.now) }
    requires line_len_bound { (length line.now ≤ 2 * length policy.old) × (length line.now ≤ 2 * length output.old) }
    ensures { Tells (said_at line.now ends) policy.new output.new (told result) }
{
    let Ends { a, b, c, d, e } = ends;
    let context = decimal_at(line, 0, a)?;
    let policy = records_at(line, a + 1, b, policy)?;
    let number = decimal_at(line, b + 1, c)?;
    let output = records_at(line, c + 1, d, output)?;
    let cost = cost_at(line, d + 1, e)?;
    let nodes = decimal_at(line, e + 1, line.len())?;
    Some(Said {
        context,
        policy,
        number,
        output,
        cost: cost.bits,
        never: cost.never,
        nodes,
    })
}

// What the words of a line say.
fn case_of(line: &[u8], policy: &mut [u8], output: &mut [u8]) -> Option<Said>
    requires { (length line.now ≤ 2 * length policy.old) × (length line.now ≤ 2 * length output.old) }
    ensures { Tells (said_by (split space line.now)) policy.new output.new (told result) }
{
    let ends = six_words(line)?;
    case_in(line, ends, policy, output)
}

// What a line says, the policy and the output put at the front of their rooms, each of at least half the line.
pub fn read_line(line: &[u8], policy: &mut [u8], output: &mut [u8]) -> Case
    requires { (length line.now ≤ 2 * length policy.old) × (length line.now ≤ 2 * length output.old) }
    ensures { Tells (line_of line.now) policy.new output.new result }
{
    if line.is_empty() {
        return Case::Passed;
    }
    if line[0] == HASH {
        return Case::Passed;
    }
    match case_of(line, policy, output) {
        Some(said) => Case::Says(said),
        None => Case::Broken,
    }
}
