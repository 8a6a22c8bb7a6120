// The command that tells what differs between two trees.
//
// Its contract cites specs/Sides.antt.
#![tactic(auto)]

ghost use Rattle.std.specs.Prelude.{◌≡◌, length};
ghost use Rattle.trees.specs.Reading.{max_records};
ghost use Rattle.differ_command.specs.Sides.{Refuses, Accuses};

use command_line::{INPUT_WORD, RIGHT_WORD};
use record_files::{ROOM, load_records};
use report::Side;
use std::rt::{Env, Files};

// Document 01's number of a tree that is none: no lower one is about a tree.
const BAD_TREE: u32 = 14;

// The most bytes of differences: each of 4,096 records of a tree is one place at most, of eight bytes.
const TOLD_ROOM: usize = 32_768;

// The words of work memory that the differences take, and the tree check.
const WORK_WORDS: usize = 8_192;

const CHECK_WORDS: usize = 4_096;

// The tree that a refusal of the differences is about, if it is about one: the left one unless that one passes the check.
fn side_of(context: u32, left: &[u8], right: &[u8], number: u32, work: &mut [u64]) -> Option<Side>
    requires { (length work.old ≡ max_records) × Refuses context left.now right.now number }
    ensures { Accuses context left.now right.now number result }
{
    if number < BAD_TREE {
        return None;
    }
    let mut ty = 0;
    if claspwillow::claspwillow_check(context, left, work, &mut ty) == 0 {
        return Some(Side::Right);
    }
    Some(Side::Left)
}

// Shows what differs between two trees, or why one is refused.
fn differ_of<R: Print + Eprint>(rt: &R, context: u32, left: &[u8], right: &[u8]) {
    let mut told = [0u8; TOLD_ROOM];
    let mut work = [0u64; WORK_WORDS];
    let mut count = 0;
    let number = differ::claspwillow_differ(context, left, right, &mut told, &mut work, &mut count);
    if number != 0 {
        let side = side_of(context, left, right, number, &mut work[0..CHECK_WORDS]);
        report::show_refusal_of(rt, number, side);
        return;
    }
    report::show_differences(rt, left, right, &told[..8 * (count as usize)]);
}

// Shows what differs between the two trees that the words name.
pub fn differ_trees<R: Env + Files + Input + Print + Eprint>(rt: &R, context: u32) {
    let mut left = [0u8; ROOM];
    let Some(l) = load_records(rt, INPUT_WORD, &mut left) else {
        return;
    };
    let mut right = [0u8; ROOM];
    let Some(r) = load_records(rt, RIGHT_WORD, &mut right) else {
        return;
    };
    differ_of(rt, context, &left[..l], &right[..r]);
}
