// What a spend of each tree of a list costs: the report of docs/WITNESS.md, line by line.
//
// The contracts cite specs/Answers.antt: what may come of a line, and that the counts are those of its lines. No contract can say what is read from
// a file or written to a handle.
#![tactic(auto)]

ghost use Rattle.std.specs.Prelude.{◌≡◌, ◌+◌, ◌≤◌, ◌<◌, length};
ghost use Rattle.files.specs.Rooms.{Within};
ghost use Rattle.witness_entry.specs.Witness.{work_words};
ghost use Rattle.witness_lines.specs.Lines.{shown_in, line_of, Reads, input as Lines·input};
ghost use Rattle.witness_lines.specs.Report.{ReportLine};
ghost use Rattle.witness_report.specs.Answers.{Costs, Answers, EndsWith, Reported, Tells, Lent};

use files::{ReadError, read_all};
use std::io;
use std::rt::Files;
use witness_entry::claspwillow_witness;
use witness_lines::{Listed, append_line, append_rows, line_end, read_line, shown_from};
use witness_tally::{Outcome, Tally, counted};

// The numbers of a line of another form, of a file that can't be read and of one that is too long.
const OTHER_FORM: u32 = 1;

const UNREADABLE: u32 = 14;

const TOO_LONG: u32 = 16;

// The most bytes that an outcome adds to a line, and the most that the counts and sums take.
const MOST: usize = 43;

const ROWS: usize = 150;

// A block of so many bytes is written before a line is added.
const FULL: usize = 65_536;

// After how many lines the progress is told.
const STEP: u64 = 1_000;

// How many bytes of a block are used, and whether every block before it was written.
#[derive(Clone, Copy)]
pub struct Block {
    pub used: usize,
    pub whole: bool,
}

// What came of a line, and the block after it.
#[derive(Clone, Copy)]
pub struct Told {
    pub outcome: Outcome,
    pub block: Block,
}

// The counts and sums of a list, and the last block.
#[derive(Clone, Copy)]
pub struct Ended {
    pub tally: Tally,
    pub block: Block,
}

// Reads the file of a path; says so where it can't.
fn read_text<R: Files + Eprint>(rt: &R, path: &str, room: &mut [u8]) -> Result<usize, ReadError>
    ensures { Within (length room.new) result }
{
    match files::open(rt, path) {
        Ok(mut source) => {
            let read = read_all(&mut source, room);
            if let Err(ReadError::Failed(e)) = read {
                files::fail(rt, path, e);
            }
            read
        }
        Err(e) => {
            files::fail(rt, path, e);
            Err(ReadError::Failed(e))
        }
    }
}

// The same of a path in bytes.
fn read_path<R: Files + Eprint>(rt: &R, path: &[u8], room: &mut [u8]) -> Result<usize, ReadError>
    ensures { Within (length room.new) result }
{
    match files::path_text(path) {
        Ok(text) => read_text(rt, text, room),
        Err(e) => {
            files::fail(rt, "the path", e);
            Err(ReadError::Failed(e))
        }
    }
}

// What a spend of a tree costs.
fn costs(context: u32, tree: &[u8], work: &mut [u64]) -> Outcome
    requires { length work.old ≡ work_words }
    ensures { Costs context tree.now result }
{
    let mut found = 0;
    let mut smallest = 0;
    let mut largest = 0;
    let number = claspwillow_witness(context, tree, work, &mut found, &mut smallest, &mut largest);
    if number != 0 {
        return Outcome::Refused(number);
    }
    if found == 0 {
        return Outcome::NoWay;
    }
    Outcome::Bytes(smallest, largest)
}

// What comes of an input.
fn input<R: Files + Eprint>(
    rt: &R,
    context: u32,
    path: &[u8],
    room: &mut [u8],
    work: &mut [u64],
) -> Outcome
    requires { (length room.old ≡ 65536) × (length work.old ≡ work_words) }
    ensures { Answers (Lines·input context path.now) result }
{
    match read_path(rt, path, room) {
        Ok(n) => costs(context, &room[..n], work),
        Err(ReadError::TooLong) => Outcome::Refused(TOO_LONG),
        Err(ReadError::Failed(_)) => Outcome::Refused(UNREADABLE),
    }
}

// What comes of a line, of which it was read what it says.
fn answer<R: Files + Eprint>(
    rt: &R,
    line: &[u8],
    said: Option<Listed>,
    room: &mut [u8],
    work: &mut [u64],
) -> Outcome
    requires { Reads line.now said × (length room.old ≡ 65536) × (length work.old ≡ work_words) }
    ensures { Answers (line_of line.now) result }
{
    match said {
        Some(listed) => input(rt, listed.context, &line[listed.path..], room, work),
        None => Outcome::Refused(OTHER_FORM),
    }
}

// Writes to standard output, unless a write has failed before, and answers whether none has; says so where one fails.
fn written<R: Print + Eprint>(rt: &R, text: &[u8], whole: bool) -> bool {
    if whole {
        match rt.write_all(text) {
            Ok(()) => return true,
            Err(e) => files::fail(rt, "standard output", e),
        }
    }
    false
}

// A block with room for so many bytes more: it is written if it is full or has none.
fn with_room<R: Print + Eprint>(rt: &R, most: usize, out: &[u8], b: Block) -> Block
    requires { (b.used ≤ length out.now) × (most ≤ length out.now) }
    ensures { result.used + most ≤ length out.now }
{
    let used = b.used;
    if used < FULL {
        if most <= out.len() - used {
            return b;
        }
    }
    Block {
        used: 0,
        whole: written(rt, &out[..used], b.whole),
    }
}

// Puts the line of the report for a line of the list into a block.
fn show<R: Print + Eprint>(
    rt: &R,
    line: &[u8],
    said: Option<Listed>,
    o: Outcome,
    out: &mut [u8],
    b: Block,
) -> Block
    requires { Reads line.now said × (b.used ≤ length out.old) × (length line.now + 43 ≤ length out.old) }
    ensures { EndsWith (ReportLine (shown_in line.now said) o) out.new result }
{
    let from = shown_from(said);
    let begun = with_room(rt, line.len() + MOST, out, b);
    let whole = begun.whole;
    let used = append_line(&line[from..], o, out, begun.used);
    Block { used, whole }
}

// What comes of a line, and the block with its line of the report.
fn tell<R: Files + Print + Eprint>(
    rt: &R,
    line: &[u8],
    room: &mut [u8],
    work: &mut [u64],
    out: &mut [u8],
    b: Block,
) -> Told
    requires { (length room.old ≡ 65536) × (length work.old ≡ work_words) × (b.used ≤ length out.old) × (length line.now + 43 ≤ length out.old) }
    ensures { Tells line.now out.new result }
{
    let said = read_line(line);
    let outcome = answer(rt, line, said, room, work);
    let block = show(rt, line, said, outcome, out, b);
    Told { outcome, block }
}

// Says on standard error how many lines are done, where that is a terminal.
fn progress(rt: &impl Eprint, terminal: bool, lines: u64) {
    if lines % STEP == 0 {
        if terminal {
            let _ = eprintln!(rt; "witness: {lines} lines");
        }
    }
}

// Puts the lines of a text's lines into blocks, writes those that are full, and counts. What the last block holds is left to be written.
fn lines<R: Files + Print + Eprint>(
    rt: &R,
    terminal: bool,
    text: &[u8],
    room: &mut [u8],
    work: &mut [u64],
    out: &mut [u8],
) -> Ended
    requires { Lent text.now room.old work.old out.old }
    ensures { Reported text.now result.tally × (result.block.used ≤ length out.new) }
{
    let mut tally = Tally {
        inputs: 0,
        none: 0,
        refused: 0,
        smallest: 0,
        largest: 0,
    };
    let mut block = Block {
        used: 0,
        whole: true,
    };
    // A line begins where the one before it ends.
    let mut at = 0;
    while at < text.len() {
        let end = line_end(text, at);
        let told = tell(rt, &text[at..end], room, work, out, block);
        let outcome = told.outcome;
        block = told.block;
        tally = counted(tally, outcome);
        progress(rt, terminal, tally.inputs);
        at = end + 1;
    }
    Ended { tally, block }
}

// Writes the report on a list: a line for each of its lines, then the counts and sums. Where standard error is a terminal it is told how many lines
// are done.
pub fn report<R: Files + Print + Eprint>(
    rt: &R,
    terminal: bool,
    text: &[u8],
    room: &mut [u8],
    work: &mut [u64],
    out: &mut [u8],
)
    requires { Lent text.now room.old work.old out.old }
{
    let ended = lines(rt, terminal, text, room, work, out);
    let tally = ended.tally;
    let begun = with_room(rt, ROWS, out, ended.block);
    let used = append_rows(tally, out, begun.used);
    written(rt, &out[..used], begun.whole);
}
