// One entry of a log of recorded spends: its parts, its limits, its stack loaded, and the verdict on a run that has ended.
//
// Its contracts cite `spend_machine`, specs/Verdicts.antt, of what stands in the log by specs/Places.antt; proofs/Entries.antt shows that this
// is the entry that is read there, and specs/Results.antt says what loading leaves.
#![tactic(auto)]

ghost use Rattle.std.specs.Prelude.{◌≡◌, ◌&&◌, List, [], reverse, ℕ, ◌≤◌, ◌<◌, ltb, length};
ghost use Rattle.contexts.specs.Lists.{all};
ghost use Rattle.script_machine.specs.Numbers.{Stack};
ghost use Rattle.script_machine.specs.Machine.{aborted, state};
ghost use Rattle.script_machine.specs.WorkedRuns.{same_stack};
ghost use Rattle.spend_machine.specs.Recorded.{stands};
ghost use Rattle.spend_machine.specs.Verdicts.{small_bytes, small_stack, small_outcome, small_end, small_entry, judged, verdict_number};
ghost use Rattle.spend_stack.specs.Outcomes.{outcomes_from, outcomes_end};
ghost use Rattle.spend_stack.specs.Machines.{stack_of, run_of, Fits};
ghost use Rattle.spend_judge.specs.Places.{elements_from, elements_end, stack_in, stack_end, outcomes_in, outcomes_past, end_in, end_past};
ghost use Rattle.spend_judge.specs.Places.{entry_at, entry_in, Lie, Stands};
ghost use Rattle.spend_judge.specs.Results.{report_number, Loaded, Begins};

use spend_elements::Element;
use spend_stack::{Machine, Status};

// The bench's own limits: elements on a stack, bytes in an element and in a digest.
const MAX_ELEMENTS: usize = 4096;

const MAX_BYTES: usize = 520;

// The byte in front of a recorded end that is an abort.
const ABORT: u8 = 0;

// What a run comes to against its recorded end.
#[derive(Clone, Copy)]
pub enum Verdict {
    Agrees,
    Differs,
    Mismatched,
    TooLarge,
}

impl Verdict {
    // The number that a report has for it.
    pub fn number(self) -> u32
        ensures { result ≡ report_number self }
    {
        match self {
            Verdict::Agrees => 0,
            Verdict::Differs => 1,
            Verdict::Mismatched => 2,
            Verdict::TooLarge => 3,
        }
    }
}

// An entry's number, where its stack, its outcomes and its recorded end begin, and where it ends.
#[derive(Clone, Copy)]
pub struct EntryAt {
    pub number: u32,
    pub start: usize,
    pub outcomes: usize,
    pub ending: usize,
    pub next: usize,
}

// The parts of the entry that begins at `at`.
pub fn entry_at(log: &[u8], at: usize) -> EntryAt
    requires { Stands log.now at }
    ensures { result ≡ entry_at log.now at }
{
    let number = records::u32_or_zero(log, at);
    let start = at + 4;
    let outcomes = spend_log::stack_end(log, start).unwrap_or(start);
    let ending = spend_log::outcomes_end(log, outcomes).unwrap_or(outcomes);
    let next = spend_log::ending_end(log, ending).unwrap_or(ending);
    EntryAt {
        number,
        start,
        outcomes,
        ending,
        next,
    }
}

// Whether each of n elements that begin at `at` has at most 520 bytes.
fn small_elements(log: &[u8], at: usize, n: usize) -> bool
    requires { elements_end log.now at n ≤ length log.now }
    ensures { result ≡ all small_bytes (elements_from log.now at n) }
{
    let mut to = at;
    for i in 0..n {
        let part = spend_log::element_at(log, to);
        if MAX_BYTES < part.len {
            return false;
        }
        to = part.next;
    }
    true
}

// Whether the stack that begins at `at` is within the limits.
fn small_stack(log: &[u8], at: usize) -> bool
    requires { stack_end log.now at ≤ length log.now }
    ensures { result ≡ small_stack (stack_in log.now at) }
{
    let n = records::u32_or_zero(log, at) as usize;
    n <= MAX_ELEMENTS && small_elements(log, at + 4, n)
}

// Whether each digest of n outcomes that begin at `at` has at most 520 bytes.
fn small_digests(log: &[u8], at: usize, n: usize) -> bool
    requires { outcomes_end log.now at n ≤ length log.now }
    ensures { result ≡ all small_outcome (outcomes_from log.now at n) }
{
    let mut to = at;
    for i in 0..n {
        let o = spend_log::outcome_at(log, to);
        let digest = o.digest;
        if MAX_BYTES < digest.len {
            return false;
        }
        to = o.next;
    }
    true
}

// Whether the outcomes that begin at `at` are within the limits.
fn small_outcomes(log: &[u8], at: usize) -> bool
    requires { outcomes_past log.now at ≤ length log.now }
    ensures { result ≡ all small_outcome (outcomes_in log.now at) }
{
    let n = records::u32_or_zero(log, at) as usize;
    small_digests(log, at + 4, n)
}

// Whether the recorded end that begins at `at` is within the limits.
fn small_end(log: &[u8], at: usize) -> bool
    requires { end_past log.now at ≤ length log.now }
    ensures { result ≡ small_end (end_in log.now at) }
{
    log[at] == ABORT || small_stack(log, at + 1)
}

// Whether an entry is within the limits.
pub fn small_entry(log: &[u8], e: EntryAt) -> bool
    requires { Lie log.now e }
    ensures { result ≡ small_entry (entry_in log.now e) }
{
    if small_stack(log, e.start) {
        if small_outcomes(log, e.outcomes) {
            return small_end(log, e.ending);
        }
    }
    false
}

// Loads n elements that begin at `at`, the bottom one first.
fn load_elements(log: &[u8], at: usize, n: usize, main: &mut [u64])
    requires { (elements_end log.now at n ≤ length log.now) × (n ≤ 4096) × (8192 ≤ length main.old) }
    ensures { Loaded log.now main.old main.new n
        (reverse (elements_from log.now at n)) }
{
    let mut to = at;
    for i in 0..n {
        let part = spend_log::element_at(log, to);
        let e = Element {
            at: part.start,
            len: part.len,
        };
        spend_stack::put(main, i, e);
        to = part.next;
    }
}

// Loads the stack that begins at `at`, and gives how many elements it has.
pub fn load(log: &[u8], at: usize, main: &mut [u64]) -> usize
    requires { (stack_end log.now at ≤ length log.now) × (length (stack_in log.now at) ≤ 4096) × (8192 ≤ length main.old) }
    ensures { Loaded log.now main.old main.new result (stack_in log.now at) }
{
    let n = records::u32_or_zero(log, at) as usize;
    load_elements(log, at + 4, n, main);
    n
}

// A run before its first word: n elements on the main stack, and the outcomes that begin at `at`.
pub fn begin(log: &[u8], main: &[u64], n: usize, at: usize) -> Machine
    requires { (n ≤ 4096) × (8192 ≤ length main.now) × (outcomes_past log.now at ≤ length log.now) }
    ensures { Begins log.now main.now n at result }
{
    let left = records::u32_or_zero(log, at) as usize;
    Machine {
        main: n,
        alt: 0,
        at: at + 4,
        left,
        status: Status::Going,
    }
}

// Whether the lowest n elements of the main stack are the n elements that begin at `at`.
fn same_elements(log: &[u8], main: &[u64], at: usize, n: usize) -> bool
    requires { (elements_end log.now at n ≤ length log.now) × (n ≤ 4096) × (8192 ≤ length main.now) }
    ensures { result ≡ same_stack (stack_of log.now main.now n)
        (reverse (elements_from log.now at n)) }
{
    let mut to = at;
    for i in 0..n {
        let part = spend_log::element_at(log, to);
        let e = Element {
            at: part.start,
            len: part.len,
        };
        let mine = spend_stack::get(main, i);
        if !spend_elements::same(log, mine, e) {
            return false;
        }
        to = part.next;
    }
    true
}

// Whether the lowest n elements of the main stack are the stack that begins at `at`.
fn same_stack(log: &[u8], main: &[u64], n: usize, at: usize) -> bool
    requires { (stack_end log.now at ≤ length log.now) × (n ≤ 4096) × (8192 ≤ length main.now) }
    ensures { result ≡ same_stack (stack_of log.now main.now n) (stack_in log.now at) }
{
    let count = records::u32_or_zero(log, at) as usize;
    count == n && same_elements(log, main, at + 4, n)
}

// Whether outcomes are left that no word took.
fn some_left(m: Machine) -> bool
    ensures { result ≡ ltb 0 m.left }
{
    0 < m.left
}

// The verdict on a run that has aborted with no outcome left, against the recorded end that begins at `at`.
fn judge_abort(log: &[u8], at: usize) -> Verdict
    requires { end_past log.now at ≤ length log.now }
    ensures { report_number result ≡ verdict_number (judged (stands aborted []) (end_in log.now at)) }
{
    if log[at] == ABORT {
        return Verdict::Agrees;
    }
    Verdict::Differs
}

// The same of one that leaves n elements on its main stack.
fn judge_stack(log: &[u8], main: &[u64], n: usize, at: usize) -> Verdict
    requires { (end_past log.now at ≤ length log.now) × (n ≤ 4096) × (8192 ≤ length main.now) }
    ensures { (a : Stack) → report_number result ≡ verdict_number (judged
        (stands (state (stack_of log.now main.now n) a []) []) (end_in log.now at)) }
{
    if log[at] == ABORT {
        return Verdict::Differs;
    }
    if same_stack(log, main, n, at + 1) {
        return Verdict::Agrees;
    }
    Verdict::Differs
}

// The verdict on a run that has ended, against the recorded end that begins at `at`.
pub fn judge(log: &[u8], main: &[u64], m: Machine, at: usize) -> Verdict
    requires { Fits log.now main.now m × (end_past log.now at ≤ length log.now) }
    ensures { (alt : List ℕ) → report_number result ≡ verdict_number (judged (run_of log.now main.now alt m)
        (end_in log.now at)) }
{
    match m.status {
        Status::Going => {
            if some_left(m) {
                return Verdict::Mismatched;
            }
            judge_stack(log, main, m.main, at)
        }
        Status::Aborted => {
            if some_left(m) {
                return Verdict::Mismatched;
            }
            judge_abort(log, at)
        }
        Status::Stuck => Verdict::Mismatched,
        Status::Large => Verdict::TooLarge,
    }
}
