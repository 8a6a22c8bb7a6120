// Runs a stored list of the Rust's answers against the port and counts the lines that agree, that differ and that are broken.
//
// What a line says and what comes of it stand in the crates `oracle_lines` and `oracle_verdicts`, whose definitions the contracts cite. No contract can say what
// is written to standard output.
#![tactic(auto)]

mod showing;

ghost use Rattle.std.specs.Prelude.{◌≡◌, ◌≤◌, length};
ghost use Rattle.oracle_verdicts.specs.Verdicts.{Lent, tally_of};

use oracle_lines::end_of;
use oracle_verdicts::{Tally, counted, judge_line};
use showing::{show, show_tally};
use std::rt::{Env, Files};

const NEWLINE: u8 = 10;

// Runs every line of a text, shows those that differ or are broken, and counts.
fn replay(
    rt: &impl Print,
    text: &[u8],
    policy: &mut [u8],
    stored: &mut [u8],
    out: &mut [u8],
    work: &mut [u64],
) -> Tally
    requires { Lent text.now policy.old stored.old work.old }
    ensures { result ≡ tally_of (length out.old) text.now }
{
    let mut t = Tally {
        agree: 0,
        differ: 0,
        broken: 0,
    };
    let mut at = 0;
    let mut n = 1;
    loop {
        let end = end_of(text, at, NEWLINE);
        let v = judge_line(&text[at..end], policy, stored, out, work);
        show(rt, n, v, out);
        t = counted(t, v);
        if end == text.len() {
            return t;
        }
        at = end + 1;
        n += 1;
    }
}

// Lends a text what it needs: room for every policy and output that it can hold, room for an output of 4,096 records, and work memory.
fn run(rt: &impl Print, text: &[u8])
    requires { length text.now ≤ 524288 }
{
    let mut policy = [0u8; 262_144];
    let mut stored = [0u8; 262_144];
    let mut out = [0u8; 557_056];
    let mut work = [0u64; 612_360];
    show_tally(
        rt,
        replay(rt, text, &mut policy, &mut stored, &mut out, &mut work),
    );
}

// Reads the list into a room of one byte more than it may have, and runs it.
fn run_in<R: Env + Files + Input + Print + Eprint>(rt: &R, room: &mut [u8])
    requires { length room.old ≡ 524289 }
{
    let Some(n) = files::load_word(
        rt,
        1,
        b"LIST",
        false,
        b": longer than 524,288 bytes\n",
        room,
    ) else {
        return;
    };
    run(rt, &room[..n]);
}

// Runs the list that the words name.
fn run_list<R: Env + Files + Input + Print + Eprint>(rt: &R) {
    let mut room = [0u8; 524_289];
    run_in(rt, &mut room);
}

fn main(rt: HostRuntime) {
    if files::word_count(&rt) == 2 {
        run_list(&rt);
    } else {
        files::say(&rt, "usage: replay LIST\n");
    }
}
