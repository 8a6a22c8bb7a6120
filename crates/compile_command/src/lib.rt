// The commands that compile a policy, that tell how large its tree is, and that check a fragment tree.
#![tactic(auto)]

ghost use Rattle.std.specs.Prelude.{◌≤◌, length};

use command_line::{INPUT_WORD, OUTPUT_WORD};
use record_files::{ROOM, load_records};
use std::rt::{Env, Files};

// The most bytes that a tree has.
const TREE_ROOM: usize = 557_056;

// The words of work memory that compile and the choice take, and those of the tree check.
const WORK_WORDS: usize = 612_360;

const CHECK_WORDS: usize = 4_096;

// Shows the answer to a policy that is compiled, and writes its tree to the new file that the words name, if they do.
fn show_and_save<R: Env + Files + Print + Eprint>(
    rt: &R,
    bytes: usize,
    cost: u64,
    never: u32,
    nodes: u64,
    tree: &[u8],
)
    requires { bytes ≤ length tree.now }
{
    report::show_compiled(rt, cost, never, nodes, &tree[..bytes]);
    if OUTPUT_WORD < files::word_count(rt) {
        files::save_word(rt, OUTPUT_WORD, b"the path", &tree[..bytes]);
    }
}

// Compiles the policy that the words name and shows the answer.
pub fn compile<R: Env + Files + Input + Print + Eprint>(rt: &R, context: u32) {
    let mut policy = [0u8; ROOM];
    let Some(n) = load_records(rt, INPUT_WORD, &mut policy) else {
        return;
    };
    let mut tree = [0u8; TREE_ROOM];
    let mut work = [0u64; WORK_WORDS];
    let mut bytes = 0;
    let mut cost = 0;
    let mut never = 0;
    let mut nodes = 0;
    let number = claspwillow::claspwillow_compile(
        context,
        &policy[..n],
        &mut tree,
        &mut work,
        &mut bytes,
        &mut cost,
        &mut never,
        &mut nodes,
    );
    if number != 0 {
        report::show_refusal(rt, number);
        return;
    }
    show_and_save(rt, bytes as usize, cost, never, nodes, &tree);
}

// Chooses the tree of the policy that the words name, as compile does, and shows the answer but for the tree. Nothing is written, and the work memory
// that holds the tree goes out of use.
pub fn size<R: Env + Files + Input + Print + Eprint>(rt: &R, context: u32) {
    let mut policy = [0u8; ROOM];
    let Some(n) = load_records(rt, INPUT_WORD, &mut policy) else {
        return;
    };
    let mut work = [0u64; WORK_WORDS];
    let mut bytes = 0;
    let mut cost = 0;
    let mut never = 0;
    let mut nodes = 0;
    let number = claspwillow::claspwillow_choose(
        context,
        &policy[..n],
        &mut work,
        &mut bytes,
        &mut cost,
        &mut never,
        &mut nodes,
    );
    if number != 0 {
        report::show_refusal(rt, number);
        return;
    }
    report::show_chosen(rt, bytes, cost, never, nodes);
}

// Checks the tree that the words name and shows the answer.
pub fn check_tree<R: Env + Files + Input + Print + Eprint>(rt: &R, context: u32) {
    let mut tree = [0u8; ROOM];
    let Some(n) = load_records(rt, INPUT_WORD, &mut tree) else {
        return;
    };
    let mut work = [0u64; CHECK_WORDS];
    let mut ty = 0;
    let number = claspwillow::claspwillow_check(context, &tree[..n], &mut work, &mut ty);
    if number != 0 {
        report::show_refusal(rt, number);
        return;
    }
    report::show_checked(rt, ty);
}
