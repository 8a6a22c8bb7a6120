// The program that reports what a spend of each tree of a list costs: docs/WITNESS.md.
//
//     witness LIST
//
// What it computes stands in the crates `witness_lines` and `witness_report`, whose definitions their contracts cite.
#![tactic(auto)]

ghost use Rattle.std.specs.Prelude.{◌≡◌, ◌≤◌, length};

use std::io::IsTerminal;
use std::rt::{Env, Files};

// Lends a text what it needs: room for a file, work memory, and a block that has room for its longest line.
fn run<R: Files + Print + Eprint>(rt: &R, terminal: bool, text: &[u8])
    requires { length text.now ≤ 2097152 }
{
    let mut room = [0u8; 65_536];
    let mut work = [0u64; 8_192];
    let mut out = [0u8; 2_162_688];
    witness_report::report(rt, terminal, text, &mut room, &mut work, &mut out);
}

// Reads the list into a room of one byte more than it may have, and reports.
fn run_in<R: Env + Files + Input + Print + Eprint>(rt: &R, terminal: bool, room: &mut [u8])
    requires { length room.old ≡ 2097153 }
{
    let Some(n) = files::load_word(
        rt,
        1,
        b"LIST",
        false,
        b": longer than 2097152 bytes\n",
        room,
    ) else {
        return;
    };
    run(rt, terminal, &room[..n]);
}

// Reports on the list that the words name.
fn run_list<R: Env + Files + Input + Print + Eprint>(rt: &R, terminal: bool) {
    let mut room = [0u8; 2_097_153];
    run_in(rt, terminal, &mut room);
}

// Says what is wrong with the words, and which are right.
fn usage(rt: &impl Eprint, wrong: &str) {
    files::say(rt, "witness: ");
    files::say(rt, wrong);
    files::say(
        rt,
        "\nusage: witness LIST\nLIST is a file of lines CONTEXT PATH: CONTEXT is 0 for SegWit v0, 1 for Tapscript, and PATH a file of records.\n",
    );
}

fn main(rt: HostRuntime) {
    let words = files::word_count(&rt);
    if words == 2 {
        run_list(&rt, rt.stderr().is_terminal());
        return;
    }
    if words < 2 {
        usage(&rt, "no list");
    } else {
        usage(&rt, "too many words");
    }
}
