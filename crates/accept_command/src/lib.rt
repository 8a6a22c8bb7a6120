// The command that tells whether a fragment tree from elsewhere stands for a policy.
#![tactic(auto)]

use command_line::{INPUT_WORD, PROPOSED_WORD};
use counterexample::Told;
use record_files::{ROOM, load_records};
use refusals::Refusal;
use report::say;
use std::io;
use std::rt::{Env, Files};
use variables::Var;

// The words of work memory that it takes.
const WORK_WORDS: usize = 65_536;

// Writes what a variable is besides its number.
fn say_class(rt: &impl Print, class: u64) -> io::Result<()> {
    match class {
        0 => say(rt, b"Key"),
        1 => say(rt, b"After"),
        2 => say(rt, b"Older"),
        3 => say(rt, b"Sha256"),
        4 => say(rt, b"Hash256"),
        5 => say(rt, b"Ripemd160"),
        _ => say(rt, b"Hash160"),
    }
}

// The line of a variable and of its value.
fn say_variable(rt: &impl Print, x: Var, value: bool) -> io::Result<()> {
    say_class(rt, x.class)?;
    report::say_number(rt, x.number)?;
    if value {
        return say(rt, b" true\n");
    }
    say(rt, b" false\n")
}

// A line for each variable, with its value.
fn say_variables(rt: &impl Print, told: Told) -> io::Result<()> {
    let vars = told.vars;
    for i in 0..vars.len.min(vars.list.len()) {
        say_variable(rt, vars.list[i], counterexample::value_of(told.example, i))?;
    }
    Ok(())
}

// The line that says which of the two holds.
fn say_which(rt: &impl Print, holds: bool) -> io::Result<()> {
    if holds {
        return say(rt, b"the policy holds and the tree does not with\n");
    }
    say(rt, b"the tree holds and the policy does not with\n")
}

// The lines of an assignment under which a policy and a tree differ.
fn say_example(rt: &impl Print, told: Told) -> io::Result<()> {
    say_which(rt, told.example.holds)?;
    say_variables(rt, told)
}

// The lines of a tree that is accepted.
fn say_accepted(rt: &impl Print) -> io::Result<()> {
    report::show_number(rt, 0)?;
    say(rt, b"accepted: the tree means what the policy means\n")
}

// Shows that a tree is accepted.
fn show_accepted<R: Print + Eprint>(rt: &R) {
    report::say_unless(rt, say_accepted(rt));
}

// Tells whether a tree stands for a policy.
fn accept_of<R: Print + Eprint>(rt: &R, context: u32, policy: &[u8], tree: &[u8]) {
    let mut work = [0u64; WORK_WORDS];
    let number = accept_entry::claspwillow_accept(context, policy, tree, &mut work);
    if number == 0 {
        show_accepted(rt);
        return;
    }
    report::show_refusal(rt, number);
    if number == Refusal::OtherMeaning.number() {
        if let Some(told) = counterexample::example_of(context, policy, tree, &mut work) {
            report::say_unless(rt, say_example(rt, told));
        }
    }
}

// Tells whether the tree that the words name stands for the policy that they name.
pub fn accept<R: Env + Files + Input + Print + Eprint>(rt: &R, context: u32) {
    let mut policy = [0u8; ROOM];
    let Some(p) = load_records(rt, INPUT_WORD, &mut policy) else {
        return;
    };
    let mut tree = [0u8; ROOM];
    let Some(t) = load_records(rt, PROPOSED_WORD, &mut tree) else {
        return;
    };
    accept_of(rt, context, &policy[..p], &tree[..t]);
}
