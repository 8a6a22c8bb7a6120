// The words of Script that ask for an outcome, over the replay's stacks in lent memory: hashes, signatures and time checks.
//
// The outcomes are read in the log where they stand. As in `spend_stack`, a word's contract cites `spend_machine`, specs/Recorded.antt, through
// specs/Machines.antt of that crate; specs/Answers.antt here says what the functions between them answer.
#![tactic(auto)]

ghost use Rattle.std.specs.Prelude.{◌≡◌, List, ℕ, ◌<◌, ◌≤◌, length};
ghost use Rattle.contexts.specs.Leaves.{LockKind, HashKind};
ghost use Rattle.script_machine.specs.Numbers.{write};
ghost use Rattle.script_machine.specs.Machine.{one_more};
ghost use Rattle.script_machine.specs.Words.{HASH, CHECKSIG, CHECKSIGADD, CHECKMULTISIG};
ghost use Rattle.spend_machine.specs.Playing.{time_word};
ghost use Rattle.spend_elements.specs.Elements.{bytes_in};
ghost use Rattle.spend_elements.specs.Signed.{value_in};
ghost use Rattle.spend_stack.specs.Machines.{stack_of, left_of, after_one, Asks, Fits, Does};
ghost use Rattle.spend_asks.specs.Answers.{answered, first_of, said_of, SaysOver, Grouped, dummy_on, ChecksSignatures};

use spend_elements::{Element, Number};
use spend_stack::{Machine, Status};

// The next outcome, where yes or no is asked for.
#[derive(Clone, Copy)]
pub enum Said {
    Neither,
    No,
    Yes,
}

// The next outcome.
#[derive(Clone, Copy)]
pub enum Answer {
    Missing,
    No,
    Yes,
    Digest(Element),
}

// The outcome that is asked for next.
fn ask(log: &[u8], m: Machine) -> Answer
    requires { Asks log.now m }
    ensures { answered log.now result ≡ first_of (left_of log.now m) }
{
    if m.left == 0 {
        return Answer::Missing;
    }
    let o = spend_log::outcome_at(log, m.at);
    let digest = o.digest;
    let sort = o.sort;
    if sort == 2 {
        return Answer::Digest(Element {
            at: digest.start,
            len: digest.len,
        });
    }
    if sort == 1 {
        return Answer::Yes;
    }
    Answer::No
}

// The same run behind the outcome that was asked for.
fn taken(log: &[u8], m: Machine) -> Machine
    requires { Asks log.now m × (0 < m.left) }
    ensures { result ≡ after_one log.now m }
{
    let o = spend_log::outcome_at(log, m.at);
    Machine {
        at: o.next,
        left: m.left - 1,
        ..m
    }
}

// The outcome that is asked for next, where it is to be yes or no.
fn say(log: &[u8], m: Machine) -> Said
    requires { Asks log.now m }
    ensures { result ≡ said_of (left_of log.now m) }
{
    let a = ask(log, m);
    match a {
        Answer::Missing => Said::Neither,
        Answer::No => Said::No,
        Answer::Yes => Said::Yes,
        Answer::Digest(_e) => Said::Neither,
    }
}

// Hashes: what is pushed is the next outcome's digest.
pub fn hash(log: &[u8], main: &mut [u64], m: Machine) -> Machine
    requires { Fits log.now main.old m }
    ensures { (kind : HashKind) → Does (HASH kind) log.now main.old main.new m result }
{
    match spend_stack::ready(m, 1) {
        Err(end) => end,
        Ok(()) => {
            let a = ask(log, m);
            match a {
                Answer::Missing => spend_stack::with_status(m, Status::Stuck),
                Answer::No => spend_stack::with_status(m, Status::Stuck),
                Answer::Yes => spend_stack::with_status(m, Status::Stuck),
                Answer::Digest(e) => spend_stack::over(log, main, taken(log, m), m.main - 1, e),
            }
        }
    }
}

// The test that the next outcome says, over the lowest n elements of the main stack.
fn say_over(log: &[u8], main: &mut [u64], m: Machine, n: usize) -> Machine
    requires { Fits log.now main.old m × (n ≤ m.main) }
    ensures { SaysOver log.now main.old main.new m n result }
{
    let s = say(log, m);
    match s {
        Said::Neither => spend_stack::with_status(m, Status::Stuck),
        Said::No => spend_stack::over(log, main, taken(log, m), n, spend_elements::test(false)),
        Said::Yes => spend_stack::over(log, main, taken(log, m), n, spend_elements::test(true)),
    }
}

// CHECKSIG.
pub fn check_sig(log: &[u8], main: &mut [u64], m: Machine) -> Machine
    requires { Fits log.now main.old m }
    ensures { Does CHECKSIG log.now main.old main.new m result }
{
    match spend_stack::ready(m, 2) {
        Err(end) => end,
        Ok(()) => say_over(log, main, m, m.main - 2),
    }
}

// A number, and one more where that is said.
fn one_more(x: Number, more: bool) -> Element
    requires { x.size < 2147483648 }
    ensures { (log : List ℕ) → bytes_in log result ≡ write (one_more more (value_in x)) }
{
    if more {
        let one = Number {
            negative: false,
            size: 1,
        };
        return spend_elements::sum(x, one);
    }
    spend_elements::written(x.negative, x.size)
}

// CHECKSIGADD.
pub fn check_sig_add(log: &[u8], main: &mut [u64], m: Machine) -> Machine
    requires { Fits log.now main.old m }
    ensures { Does CHECKSIGADD log.now main.old main.new m result }
{
    match spend_stack::ready(m, 3) {
        Err(end) => end,
        Ok(()) => {
            let e = spend_stack::get(main, m.main - 2);
            let Some(x) = spend_elements::number_of(log, e) else {
                return spend_stack::with_status(m, Status::Aborted);
            };
            let n = m.main - 3;
            let s = say(log, m);
            match s {
                Said::Neither => spend_stack::with_status(m, Status::Stuck),
                Said::No => spend_stack::over(log, main, taken(log, m), n, one_more(x, false)),
                Said::Yes => spend_stack::over(log, main, taken(log, m), n, one_more(x, true)),
            }
        }
    }
}

// CHECKLOCKTIMEVERIFY and CHECKSEQUENCEVERIFY.
pub fn check_time(log: &[u8], main: &mut [u64], m: Machine) -> Machine
    requires { Fits log.now main.old m }
    ensures { (kind : LockKind) → Does (time_word kind) log.now main.old main.new m result }
{
    match spend_stack::ready(m, 1) {
        Err(end) => end,
        Ok(()) => {
            let e = spend_stack::get(main, m.main - 1);
            let Some(_x) = spend_elements::number_of(log, e) else {
                return spend_stack::with_status(m, Status::Aborted);
            };
            let s = say(log, m);
            match s {
                Said::Neither => spend_stack::with_status(m, Status::Stuck),
                Said::No => spend_stack::with_status(taken(log, m), Status::Aborted),
                Said::Yes => taken(log, m),
            }
        }
    }
}

// A count on top of the lowest n elements of a stack, and so many elements below it.
fn group_below(log: &[u8], main: &[u64], n: usize) -> Option<usize>
    requires { (n ≤ 4096) × (8192 ≤ length main.now) }
    ensures { Grouped log.now main.now n result }
{
    if n < 1 {
        return None;
    }
    let x = spend_elements::number_of(log, spend_stack::get(main, n - 1))?;
    let below_zero = x.negative & spend_elements::nonzero(x);
    if below_zero {
        return None;
    }
    let rest = n - 1;
    if rest < x.size {
        return None;
    }
    Some(rest - x.size)
}

// Whether element n - 1 of a stack is the empty dummy of CHECKMULTISIG.
fn is_dummy(log: &[u8], main: &[u64], n: usize) -> bool
    requires { (n ≤ 4096) × (8192 ≤ length main.now) }
    ensures { result ≡ dummy_on (stack_of log.now main.now n) }
{
    if n < 1 {
        return false;
    }
    spend_elements::length_of(log, spend_stack::get(main, n - 1)) == 0
}

// CHECKMULTISIG.
pub fn check_multi_sig(log: &[u8], main: &mut [u64], m: Machine) -> Machine
    requires { Fits log.now main.old m }
    ensures { Does CHECKMULTISIG log.now main.old main.new m result }
{
    if spend_stack::is_going(m) {
        let Some(n) = group_below(log, main, m.main) else {
            return spend_stack::with_status(m, Status::Aborted);
        };
        return check_signatures(log, main, m, n);
    }
    m
}

// What CHECKMULTISIG does behind its keys, over the lowest n elements.
fn check_signatures(log: &[u8], main: &mut [u64], m: Machine, n: usize) -> Machine
    requires { Fits log.now main.old m × (n ≤ m.main) }
    ensures { ChecksSignatures log.now main.old main.new m n result }
{
    let Some(d) = group_below(log, main, n) else {
        return spend_stack::with_status(m, Status::Aborted);
    };
    if is_dummy(log, main, d) {
        return say_over(log, main, m, d - 1);
    }
    spend_stack::with_status(m, Status::Aborted)
}
