// The commands that build the index of a fragment tree and that look a byte of its script up.
#![tactic(auto)]

ghost use Rattle.std.specs.Prelude.{length};
ghost use Rattle.files.specs.Rooms.{Held};

use command_line::{INDEX_WORD, INPUT_WORD, OUTPUT_WORD};
use record_files::{ROOM, load_records};
use std::rt::{Env, Files};

// The most bytes that an index has, 4,096 entries of 16; a file is read with one more, by which a longer one is told.
const INDEX_ROOM: usize = 65_536;

const INDEX_FILE_ROOM: usize = 65_537;

// The words of work memory that the index takes, and looking a byte up.
const WORK_WORDS: usize = 16_384;

// Shows the index of a tree, and writes it to the new file that the words name, if they do.
fn show_and_save<R: Env + Files + Print + Eprint>(rt: &R, tree: &[u8], index: &[u8]) {
    script_view::show_index(rt, tree, index);
    if OUTPUT_WORD < files::word_count(rt) {
        files::save_word(rt, OUTPUT_WORD, b"the path", index);
    }
}

// Builds the index of a tree and shows the answer.
fn index_of<R: Env + Files + Print + Eprint>(rt: &R, context: u32, tree: &[u8]) {
    let mut index = [0u8; INDEX_ROOM];
    let mut work = [0u64; WORK_WORDS];
    let mut bytes = 0;
    let number = index_entry::claspwillow_index(context, tree, &mut index, &mut work, &mut bytes);
    if number != 0 {
        report::show_refusal(rt, number);
        return;
    }
    show_and_save(rt, tree, &index[..bytes as usize]);
}

// Builds the index of the tree that the words name and shows the answer.
pub fn index_tree<R: Env + Files + Input + Print + Eprint>(rt: &R, context: u32) {
    let mut tree = [0u8; ROOM];
    let Some(n) = load_records(rt, INPUT_WORD, &mut tree) else {
        return;
    };
    index_of(rt, context, &tree[..n]);
}

// Reads the index that the words name.
fn load_index<R: Env + Files + Input + Eprint>(rt: &R, room: &mut [u8]) -> Option<usize>
    ensures { Held (length room.new) result }
{
    files::load_word(
        rt,
        INDEX_WORD,
        b"the path",
        true,
        b": longer than 65536 bytes, 4096 entries of 16 bytes: no tree's index is\n",
        room,
    )
}

// Shows the record that was found, if one was.
fn show_answer<R: Print + Eprint>(rt: &R, tree: &[u8], index: &[u8], found: u32, it: u32) {
    if found == 1 {
        script_view::show_found(rt, tree, index, it as usize);
        return;
    }
    script_view::show_none(rt);
}

// Looks a byte of a tree's script up in an index and shows the answer.
fn find_in<R: Print + Eprint>(rt: &R, context: u32, tree: &[u8], index: &[u8], byte: u32) {
    let mut work = [0u64; WORK_WORDS];
    let mut found = 0;
    let mut it = 0;
    let number = index_entry::claspwillow_find(
        context,
        tree,
        index,
        byte as u64,
        &mut work,
        &mut found,
        &mut it,
    );
    if number != 0 {
        report::show_refusal(rt, number);
        return;
    }
    show_answer(rt, tree, index, found, it);
}

// Looks a byte up in the index that the words name.
fn find_by_index<R: Env + Files + Input + Print + Eprint>(
    rt: &R,
    context: u32,
    tree: &[u8],
    byte: u32,
) {
    let mut index = [0u8; INDEX_FILE_ROOM];
    let Some(n) = load_index(rt, &mut index) else {
        return;
    };
    find_in(rt, context, tree, &index[..n], byte);
}

// Looks a byte up in the script of the tree that the words name.
fn find_in_tree<R: Env + Files + Input + Print + Eprint>(rt: &R, context: u32, byte: u32) {
    let mut tree = [0u8; ROOM];
    let Some(n) = load_records(rt, INPUT_WORD, &mut tree) else {
        return;
    };
    find_by_index(rt, context, &tree[..n], byte);
}

// Looks the byte up that the words name and shows the answer.
pub fn find_byte<R: Env + Files + Input + Print + Eprint>(rt: &R, context: u32) {
    if let Some(byte) = command_line::byte_given(rt) {
        find_in_tree(rt, context, byte);
    }
}
