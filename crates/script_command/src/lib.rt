// The commands that write a script, as it is or word by word: the tree and the four tables come from files.
#![tactic(auto)]

ghost use Rattle.std.specs.Prelude.{◌≤◌, length, IfSome};
ghost use Rattle.files.specs.Rooms.{Held};

use command_line::{
    Asked, Command, HASHES20_AFTER, HASHES32_AFTER, INPUT_WORD, KEY_HASHES_AFTER, KEYS_AFTER,
    SCRIPT_AFTER, WORDS_INPUT_WORD,
};
use record_files::{ROOM, load_records};
use report::show_refusal;
use std::rt::{Env, Files};

// The most bytes that are read, 8,192 keys of 33 and 4,096 hashes of 32, and one more, by which a longer file is told.
const KEYS_ROOM: usize = 270_337;

const HASHES_ROOM: usize = 131_073;

// The most bytes that a script has: 4,096 records of at most 547, which 16 keys of 33 bytes take.
const SCRIPT_ROOM: usize = 2_240_512;

// The most bytes that the index of a tree has, 4,096 entries of 16.
const INDEX_ROOM: usize = 65_536;

// The words of work memory that the script takes, and the index.
const WORK_WORDS: usize = 4_096;

const INDEX_WORDS: usize = 16_384;

// Reads the table of keys that the words name. Here and below `input` is the place of TREE among them, which is one later where the script is shown
// word by word.
fn load_keys<R: Env + Files + Input + Eprint>(
    rt: &R,
    input: usize,
    room: &mut [u8],
) -> Option<usize>
    requires { input ≤ 4 }
    ensures { Held (length room.new) result }
{
    files::load_word(
        rt,
        input + KEYS_AFTER,
        b"the path",
        true,
        b": longer than 270336 bytes, 8192 keys of 33 bytes\n",
        room,
    )
}

// Reads the table of hashes that word i names.
fn load_hashes<R: Env + Files + Input + Eprint>(rt: &R, i: usize, room: &mut [u8]) -> Option<usize>
    ensures { Held (length room.new) result }
{
    files::load_word(
        rt,
        i,
        b"the path",
        true,
        b": longer than 131072 bytes, 4096 hashes of 32 bytes\n",
        room,
    )
}

// Shows a script word by word, with the records that the words belong to.
fn show_by_index<R: Print + Eprint>(rt: &R, context: u32, tree: &[u8], script: &[u8]) {
    let mut index = [0u8; INDEX_ROOM];
    let mut work = [0u64; INDEX_WORDS];
    let mut bytes = 0;
    let number = index_entry::claspwillow_index(context, tree, &mut index, &mut work, &mut bytes);
    if number != 0 {
        show_refusal(rt, number);
        return;
    }
    script_view::show_words(rt, tree, &index[..bytes as usize], script);
}

// Shows a script, and writes it to the new file that the words name, if they do.
fn show_and_save<R: Env + Files + Print + Eprint>(
    rt: &R,
    context: u32,
    tree: &[u8],
    script: &[u8],
    input: usize,
)
    requires { input ≤ 4 }
{
    if input == WORDS_INPUT_WORD {
        show_by_index(rt, context, tree, script);
    } else {
        report::show_script(rt, script);
    }
    let output = input + SCRIPT_AFTER;
    if output < files::word_count(rt) {
        files::save_word(rt, output, b"the path", script);
    }
}

// Writes the script of a tree with these tables and shows the answer.
fn script_of<R: Env + Files + Print + Eprint>(
    rt: &R,
    context: u32,
    tree: &[u8],
    keys: &[u8],
    key_hashes: &[u8],
    hashes32: &[u8],
    hashes20: &[u8],
    input: usize,
)
    requires { input ≤ 4 }
{
    let mut script = [0u8; SCRIPT_ROOM];
    let mut work = [0u64; WORK_WORDS];
    let mut bytes = 0;
    let number = script_entry::claspwillow_script(
        context,
        tree,
        keys,
        key_hashes,
        hashes32,
        hashes20,
        &mut script,
        &mut work,
        &mut bytes,
    );
    if number != 0 {
        show_refusal(rt, number);
        return;
    }
    show_and_save(rt, context, tree, &script[..bytes as usize], input);
}

// The same with the tables of hashes that the words name.
fn script_with_keys<R: Env + Files + Input + Print + Eprint>(
    rt: &R,
    context: u32,
    tree: &[u8],
    keys: &[u8],
    input: usize,
)
    requires { input ≤ 4 }
{
    let mut key_hashes = [0u8; HASHES_ROOM];
    let Some(h) = load_hashes(rt, input + KEY_HASHES_AFTER, &mut key_hashes) else {
        return;
    };
    let mut hashes32 = [0u8; HASHES_ROOM];
    let Some(l) = load_hashes(rt, input + HASHES32_AFTER, &mut hashes32) else {
        return;
    };
    let mut hashes20 = [0u8; HASHES_ROOM];
    let Some(s) = load_hashes(rt, input + HASHES20_AFTER, &mut hashes20) else {
        return;
    };
    script_of(
        rt,
        context,
        tree,
        keys,
        &key_hashes[..h],
        &hashes32[..l],
        &hashes20[..s],
        input,
    );
}

// Writes the script of the tree at this place of the words, with the tables that follow it there, and shows the answer.
fn script_from<R: Env + Files + Input + Print + Eprint>(rt: &R, context: u32, input: usize)
    requires { input ≤ 4 }
{
    let mut tree = [0u8; ROOM];
    let Some(t) = load_records(rt, input, &mut tree) else {
        return;
    };
    let mut keys = [0u8; KEYS_ROOM];
    let Some(k) = load_keys(rt, input, &mut keys) else {
        return;
    };
    script_with_keys(rt, context, &tree[..t], &keys[..k], input);
}

// The place of TREE among the words that ask for a script, if they do.
fn tree_place(command: Command) -> Option<usize>
    ensures { IfSome result (λ input. input ≤ 4) }
{
    match command {
        Command::Script => Some(INPUT_WORD),
        Command::Words => Some(WORDS_INPUT_WORD),
        _ => None,
    }
}

// Writes the script that the words ask for, if they do, and shows its bytes, or its words. The two commands share one call, so that the rooms of a
// script lie where those of the other commands do.
pub fn write_script<R: Env + Files + Input + Print + Eprint>(rt: &R, asked: Asked) {
    if let Some(input) = tree_place(asked.command) {
        script_from(rt, asked.context, input);
    }
}
