// The replay's stacks in lent memory, and what each word of Script that asks nothing does to them.
//
// A word takes the log, the memory of the main stack (the memory of both stacks, if it moves an element between them) and the machine, and gives
// the machine behind it; where the run goes no further it changes nothing. Its contract cites `spend_machine`, specs/Recorded.antt, through
// specs/Machines.antt, which says what run a machine and its memory stand for; specs/Memory.antt says where the stacks lie.
#![tactic(auto)]

ghost use Rattle.std.specs.Prelude.{◌≡◌, List, ℕ, ◌+◌, ◌<◌, ◌≤◌, length};
ghost use Rattle.script_machine.specs.Words.{DUP, IFDUP, SWAP, SIZE, TOALTSTACK, FROMALTSTACK, VERIFY, 0NOTEQUAL, EQUAL};
ghost use Rattle.spend_elements.specs.Elements.{bytes_in};
ghost use Rattle.spend_elements.specs.Signed.{value_in};
ghost use Rattle.spend_stack.specs.Memory.{work_words, main_in, alt_in, Keeps};
ghost use Rattle.spend_stack.specs.Machines.{element_at, put_element, stack_of, is_going, with_status, with_main, Fits, Over, Does, DoesBoth, Pushes};
ghost use Rattle.spend_stack.specs.Pieces.{Readied, combine, word_of, top_true, Opens};

use contexts::Context;
use spend_elements::{Element, Number};

// Where the alternate stack begins in the replay's memory, behind the main stack, and behind both the places of the tree's records.
pub const ALT: usize = 8192;

pub const STARTS: usize = 16384;

// The one length of that memory, in words.
pub const WORDS: usize = 20480;

// How a run stands: it goes on, has aborted, lacked an outcome or met one of the wrong sort, or left too many elements.
#[derive(Clone, Copy)]
pub enum Status {
    Going,
    Aborted,
    Stuck,
    Large,
}

// A run between two words: how many elements each stack has, where the next outcome begins and how many are left, and how it stands.
#[derive(Clone, Copy)]
pub struct Machine {
    pub main: usize,
    pub alt: usize,
    pub at: usize,
    pub left: usize,
    pub status: Status,
}

// The words that take two numbers.
#[derive(Clone, Copy)]
pub enum Pair {
    NumEqual,
    BoolAnd,
    BoolOr,
    Add,
}

// Element i of a stack, the bottom one being 0.
pub fn get(memory: &[u64], i: usize) -> Element
    requires { (i < 4096) × (8192 ≤ length memory.now) }
    ensures { result ≡ element_at memory.now i }
{
    let at = memory[2 * i] as usize;
    let len = memory[2 * i + 1] as usize;
    Element { at, len }
}

// Makes e element i of a stack.
pub fn put(memory: &mut [u64], i: usize, e: Element)
    requires { (i < 4096) × (8192 ≤ length memory.old) }
    ensures { memory.new ≡ put_element memory.old i e }
{
    memory[2 * i] = e.at as u64;
    memory[2 * i + 1] = e.len as u64;
}

// Whether a run goes on.
pub fn is_going(m: Machine) -> bool
    ensures { result ≡ is_going m }
{
    matches!(m.status, Status::Going)
}

// The same run, standing otherwise.
pub fn with_status(m: Machine, status: Status) -> Machine
    ensures { result ≡ with_status m status }
{
    Machine { status, ..m }
}

// The same run with the lowest n elements of its main stack.
pub fn with_main(m: Machine, n: usize) -> Machine
    ensures { result ≡ with_main m n }
{
    Machine { main: n, ..m }
}

// The same run with e over the lowest n elements of its main stack, or too large with it.
pub fn over(log: &[u8], main: &mut [u64], m: Machine, n: usize, e: Element) -> Machine
    requires { Fits log.now main.old m × (n ≤ m.main) }
    ensures { Over log.now main.old main.new m n e result }
{
    if n + m.alt < 4096 {
        put(main, n, e);
        return with_main(m, n + 1);
    }
    with_status(m, Status::Large)
}

// Whether a run goes on and has n elements at least; else what becomes of it at a word that takes so many.
pub fn ready(m: Machine, n: usize) -> Result<(), Machine>
    ensures { Readied m n result }
{
    if is_going(m) {
        if m.main < n {
            return Err(with_status(m, Status::Aborted));
        }
        return Ok(());
    }
    Err(m)
}

// Pushes an element.
pub fn push(log: &[u8], main: &mut [u64], m: Machine, e: Element) -> Machine
    requires { Fits log.now main.old m }
    ensures { Pushes log.now main.old main.new m e result }
{
    if is_going(m) {
        return over(log, main, m, m.main, e);
    }
    m
}

// DUP.
pub fn dup(log: &[u8], main: &mut [u64], m: Machine) -> Machine
    requires { Fits log.now main.old m }
    ensures { Does DUP log.now main.old main.new m result }
{
    match ready(m, 1) {
        Err(end) => end,
        Ok(()) => over(log, main, m, m.main, get(main, m.main - 1)),
    }
}

// IFDUP.
pub fn if_dup(log: &[u8], main: &mut [u64], m: Machine) -> Machine
    requires { Fits log.now main.old m }
    ensures { Does IFDUP log.now main.old main.new m result }
{
    match ready(m, 1) {
        Err(end) => end,
        Ok(()) => {
            let e = get(main, m.main - 1);
            if spend_elements::is_true(log, e) {
                return over(log, main, m, m.main, e);
            }
            m
        }
    }
}

// SIZE.
pub fn size(log: &[u8], main: &mut [u64], m: Machine) -> Machine
    requires { Fits log.now main.old m }
    ensures { Does SIZE log.now main.old main.new m result }
{
    match ready(m, 1) {
        Err(end) => end,
        Ok(()) => {
            let e = get(main, m.main - 1);
            let w = spend_elements::written(false, spend_elements::length_of(log, e));
            over(log, main, m, m.main, w)
        }
    }
}

// SWAP.
pub fn swap(log: &[u8], main: &mut [u64], m: Machine) -> Machine
    requires { Fits log.now main.old m }
    ensures { Does SWAP log.now main.old main.new m result }
{
    match ready(m, 2) {
        Err(end) => end,
        Ok(()) => {
            let x = get(main, m.main - 1);
            let y = get(main, m.main - 2);
            put(main, m.main - 2, x);
            put(main, m.main - 1, y);
            m
        }
    }
}

// TOALTSTACK.
pub fn to_alt(log: &[u8], work: &mut [u64], m: Machine) -> Machine
    requires { Fits log.now (main_in work.old) m × (length work.old ≡ work_words) }
    ensures does_both { DoesBoth TOALTSTACK log.now (main_in work.old) (alt_in work.old)
        (main_in work.new) (alt_in work.new) m result }
    ensures keeps { Keeps work.old work.new }
{
    match ready(m, 1) {
        Err(end) => end,
        Ok(()) => {
            let e = get(&work[0..ALT], m.main - 1);
            put(&mut work[ALT..STARTS], m.alt, e);
            Machine {
                main: m.main - 1,
                alt: m.alt + 1,
                ..m
            }
        }
    }
}

// FROMALTSTACK.
pub fn from_alt(log: &[u8], work: &mut [u64], m: Machine) -> Machine
    requires { Fits log.now (main_in work.old) m × (length work.old ≡ work_words) }
    ensures does_both { DoesBoth FROMALTSTACK log.now (main_in work.old) (alt_in work.old)
        (main_in work.new) (alt_in work.new) m result }
    ensures keeps { Keeps work.old work.new }
{
    if is_going(m) {
        let a = m.alt;
        if a < 1 {
            return with_status(m, Status::Aborted);
        }
        let e = get(&work[ALT..STARTS], a - 1);
        put(&mut work[0..ALT], m.main, e);
        return Machine {
            main: m.main + 1,
            alt: a - 1,
            ..m
        };
    }
    m
}

// VERIFY.
pub fn verify(log: &[u8], main: &mut [u64], m: Machine) -> Machine
    requires { Fits log.now main.old m }
    ensures { Does VERIFY log.now main.old main.new m result }
{
    match ready(m, 1) {
        Err(end) => end,
        Ok(()) => {
            if spend_elements::is_true(log, get(main, m.main - 1)) {
                return with_main(m, m.main - 1);
            }
            with_status(m, Status::Aborted)
        }
    }
}

// EQUAL.
pub fn equal(log: &[u8], main: &mut [u64], m: Machine) -> Machine
    requires { Fits log.now main.old m }
    ensures { Does EQUAL log.now main.old main.new m result }
{
    match ready(m, 2) {
        Err(end) => end,
        Ok(()) => {
            let x = get(main, m.main - 1);
            let y = get(main, m.main - 2);
            let e = spend_elements::test(spend_elements::same(log, x, y));
            over(log, main, m, m.main - 2, e)
        }
    }
}

// 0NOTEQUAL.
pub fn zero_not_equal(log: &[u8], main: &mut [u64], m: Machine) -> Machine
    requires { Fits log.now main.old m }
    ensures { Does 0NOTEQUAL log.now main.old main.new m result }
{
    match ready(m, 1) {
        Err(end) => end,
        Ok(()) => {
            let Some(x) = spend_elements::number_of(log, get(main, m.main - 1)) else {
                return with_status(m, Status::Aborted);
            };
            let e = spend_elements::test(spend_elements::nonzero(x));
            over(log, main, m, m.main - 1, e)
        }
    }
}

// What NUMEQUAL, BOOLAND, BOOLOR and ADD push.
fn combined(pair: Pair, x: Number, y: Number) -> Element
    requires { (x.size < 2147483648) × (y.size < 2147483648) }
    ensures { (log : List ℕ) → bytes_in log result ≡ combine pair (value_in x) (value_in y) }
{
    match pair {
        Pair::NumEqual => spend_elements::test(spend_elements::equal(x, y)),
        Pair::BoolAnd => spend_elements::test(
            spend_elements::nonzero(x) & spend_elements::nonzero(y),
        ),
        Pair::BoolOr => spend_elements::test(
            spend_elements::nonzero(x) | spend_elements::nonzero(y),
        ),
        Pair::Add => spend_elements::sum(x, y),
    }
}

// NUMEQUAL, BOOLAND, BOOLOR or ADD.
pub fn two_numbers(pair: Pair, log: &[u8], main: &mut [u64], m: Machine) -> Machine
    requires { Fits log.now main.old m }
    ensures { Does (word_of pair) log.now main.old main.new m result }
{
    match ready(m, 2) {
        Err(end) => end,
        Ok(()) => {
            let Some(x) = spend_elements::number_of(log, get(main, m.main - 1)) else {
                return with_status(m, Status::Aborted);
            };
            let Some(y) = spend_elements::number_of(log, get(main, m.main - 2)) else {
                return with_status(m, Status::Aborted);
            };
            over(log, main, m, m.main - 2, combined(pair, x, y))
        }
    }
}

// Whether IF would take the top element for true; false where there is none.
pub fn top_true(log: &[u8], main: &[u64], m: Machine) -> bool
    requires { Fits log.now main.now m }
    ensures { result ≡ top_true (stack_of log.now main.now m.main) }
{
    let n = m.main;
    if n < 1 {
        return false;
    }
    spend_elements::is_true(log, get(main, n - 1))
}

// IF and NOTIF take the top element, if they may.
pub fn open(context: Context, log: &[u8], main: &[u64], m: Machine) -> Machine
    requires { Fits log.now main.now m }
    ensures { Opens context log.now main.now m result }
{
    match ready(m, 1) {
        Err(end) => end,
        Ok(()) => {
            if spend_elements::may_branch(context, log, get(main, m.main - 1)) {
                return with_main(m, m.main - 1);
            }
            with_status(m, Status::Aborted)
        }
    }
}
