// A log of recorded spends, read where it stands: its head, where each part ends, and how many entries it has.
//
// What a log is stands in specs/Readers.antt and specs/Logs.antt, how one is written and read back in specs/Written.antt, and the contracts
// say it of places in the log by specs/Places.antt. The laws that crates above cite stand in proofs/Passing.antt and proofs/Parts.antt.
#![tactic(auto)]

ghost use Rattle.std.specs.Prelude.{◌≡◌, ◌≤◌, ◌<◌, length, drop};
ghost use Rattle.spend_log.specs.Readers.{several, counted, to_end};
ghost use Rattle.spend_log.specs.Logs.{element, elements, outcome, ending, entry, head};
ghost use Rattle.spend_log.specs.Places.{place_of, element_at, outcome_at, head_answer, count_answer};

// The bytes of a head's numbers: the tree begins behind them.
pub const TREE: usize = 24;

// The bytes that stand in front of outcomes and of recorded ends.
const ABORT: u8 = 0;

const STACK: u8 = 1;

const NO: u8 = 0;

const YES: u8 = 1;

const DIGEST: u8 = 2;

// Some bytes of a log: where they begin, how many they are, and where they end.
#[derive(Clone, Copy)]
pub struct Part {
    pub start: usize,
    pub len: usize,
    pub next: usize,
}

// An outcome: the byte in front, and its digest, no bytes where it has none.
#[derive(Clone, Copy)]
pub struct OutcomeAt {
    pub sort: u8,
    pub digest: Part,
    pub next: usize,
}

// The context of a log, and where its tables and its entries begin.
#[derive(Clone, Copy)]
pub struct Offsets {
    pub context: u32,
    pub keys: usize,
    pub key_hashes: usize,
    pub hashes32: usize,
    pub hashes20: usize,
    pub entries: usize,
}

// The element that begins at `at`.
pub fn element_at(log: &[u8], at: usize) -> Part
    requires { at ≤ length log.now }
    ensures { result ≡ element_at log.now at }
{
    let len = records::u32_or_zero(log, at) as usize;
    let start = at + 4;
    Part {
        start,
        len,
        next: start + len,
    }
}

// Where the element that begins at `at` ends.
pub fn element_end(log: &[u8], at: usize) -> Option<usize>
    requires { at ≤ length log.now }
    ensures { result ≡ place_of element log.now at }
{
    let len = words::u32_at(log, at)?;
    let next = at + 4 + len as usize;
    if next <= log.len() {
        return Some(next);
    }
    None
}

// Where n elements that begin at `at` end.
fn elements_end(log: &[u8], at: usize, n: u32) -> Option<usize>
    requires { at ≤ length log.now }
    ensures { result ≡ place_of (several element n) log.now at }
{
    let mut to = at;
    for i in 0..n {
        to = element_end(log, to)?;
    }
    Some(to)
}

// Where the stack that begins at `at` ends.
pub fn stack_end(log: &[u8], at: usize) -> Option<usize>
    requires { at ≤ length log.now }
    ensures { result ≡ place_of elements log.now at }
{
    let n = words::u32_at(log, at)?;
    elements_end(log, at + 4, n)
}

// Where the outcome that begins at `at` ends.
pub fn outcome_end(log: &[u8], at: usize) -> Option<usize>
    requires { at ≤ length log.now }
    ensures { result ≡ place_of outcome log.now at }
{
    if log.len() <= at {
        return None;
    }
    match log[at] {
        NO => Some(at + 1),
        YES => Some(at + 1),
        DIGEST => element_end(log, at + 1),
        _ => None,
    }
}

// The outcome that begins at `at`.
pub fn outcome_at(log: &[u8], at: usize) -> OutcomeAt
    requires { at < length log.now }
    ensures { result ≡ outcome_at log.now at }
{
    let sort = log[at];
    if sort == DIGEST {
        let digest = element_at(log, at + 1);
        return OutcomeAt {
            sort,
            digest,
            next: digest.next,
        };
    }
    let digest = Part {
        start: at + 1,
        len: 0,
        next: at + 1,
    };
    OutcomeAt {
        sort,
        digest,
        next: at + 1,
    }
}

// Where n outcomes that begin at `at` end.
fn several_outcomes_end(log: &[u8], at: usize, n: u32) -> Option<usize>
    requires { at ≤ length log.now }
    ensures { result ≡ place_of (several outcome n) log.now at }
{
    let mut to = at;
    for i in 0..n {
        to = outcome_end(log, to)?;
    }
    Some(to)
}

// Where the count of outcomes that begins at `at`, and these, end.
pub fn outcomes_end(log: &[u8], at: usize) -> Option<usize>
    requires { at ≤ length log.now }
    ensures { result ≡ place_of (counted outcome) log.now at }
{
    let n = words::u32_at(log, at)?;
    several_outcomes_end(log, at + 4, n)
}

// Where the recorded end that begins at `at` ends.
pub fn ending_end(log: &[u8], at: usize) -> Option<usize>
    requires { at ≤ length log.now }
    ensures { result ≡ place_of ending log.now at }
{
    if log.len() <= at {
        return None;
    }
    match log[at] {
        ABORT => Some(at + 1),
        STACK => stack_end(log, at + 1),
        _ => None,
    }
}

// Where the entry that begins at `at` ends.
pub fn entry_end(log: &[u8], at: usize) -> Option<usize>
    requires { at ≤ length log.now }
    ensures { result ≡ place_of entry log.now at }
{
    if log.len() - at < 4 {
        return None;
    }
    let outcomes = stack_end(log, at + 4)?;
    let end = outcomes_end(log, outcomes)?;
    ending_end(log, end)
}

// How many entries there are from `at` up to the log's end.
pub fn count_entries(log: &[u8], at: usize) -> Option<usize>
    requires { at ≤ length log.now }
    ensures { result ≡ count_answer (to_end entry (drop at log.now)) }
{
    let mut to = at;
    let mut count = 0;
    // Entries are of unequal length.
    while to < log.len() {
        to = entry_end(log, to)?;
        count += 1;
    }
    Some(count)
}

// The context of a log, and where its tables and its entries begin.
pub fn head_of(log: &[u8]) -> Option<Offsets>
    ensures { result ≡ head_answer (head log.now) }
{
    if log.len() < TREE {
        return None;
    }
    let keys = TREE + records::u32_or_zero(log, 4) as usize;
    let key_hashes = keys + records::u32_or_zero(log, 8) as usize;
    let hashes32 = key_hashes + records::u32_or_zero(log, 12) as usize;
    let hashes20 = hashes32 + records::u32_or_zero(log, 16) as usize;
    let entries = hashes20 + records::u32_or_zero(log, 20) as usize;
    if log.len() < entries {
        return None;
    }
    Some(Offsets {
        context: records::u32_or_zero(log, 0),
        keys,
        key_hashes,
        hashes32,
        hashes20,
        entries,
    })
}
