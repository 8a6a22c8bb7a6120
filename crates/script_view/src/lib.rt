// A script word by word, and the index of a tree as a table, on standard output. What says something ends at the first write that fails, with its
// error; what shows an answer says so on standard error.
//
// The contracts cite specs/Lines.antt. No contract can say what is written to a file or a terminal.
#![tactic(auto)]

ghost use Rattle.std.specs.Prelude.{◌≡◌, ◌<◌, ◌≤◌, length};
ghost use Rattle.index_view.specs.View.{count};
ghost use Rattle.script_view.specs.Lines.{pushed, word_end};

use columns::{say_left, say_letters, say_right, say_spaces};
use report::say;
use std::io;
use types::Type;

// The places of a byte's number in a script; of the numbers that follow a push's name and a small number's; of a type's letters; of a height; of a
// number of bytes.
const OFFSET_PLACES: usize = 7;

const PUSH_PLACES: usize = 9;

const NUMBER_PLACES: usize = 19;

const CORRECTNESS_PLACES: usize = 5;

const MALLEABILITY_PLACES: usize = 4;

const HEIGHT_PLACES: usize = 8;

const BYTES_PLACES: usize = 9;

// How many bytes follow an opcode as what it pushes.
fn pushed(opcode: u8) -> usize
    ensures value { result ≡ pushed opcode }
    ensures upper_bound { result ≤ 75 }
{
    match opcode {
        1..=75 => opcode as usize,
        _ => 0,
    }
}

// Where the opcode or push that begins at a byte of a script ends.
fn word_end(script: &[u8], at: usize) -> usize
    requires { at < length script.now }
    ensures value { result ≡ word_end script.now at }
    ensures lower_bound { (at < result) × (result ≤ length script.now) }
{
    let n = pushed(script[at]);
    if n < script.len() - at {
        return at + 1 + n;
    }
    script.len()
}

// Writes an opcode's name in 22 places.
fn say_name(rt: &impl Print, opcode: u8) -> io::Result<()> {
    match opcode {
        1..=75 => {
            say(rt, b"OP_PUSHBYTES_")?;
            say_left(rt, opcode as u64, PUSH_PLACES)
        }
        81..=96 => {
            say(rt, b"OP_")?;
            say_left(rt, (opcode - 80) as u64, NUMBER_PLACES)
        }
        _ => {
            let name = opcode_names::word_name(opcode);
            say(rt, &name)
        }
    }
}

// Writes record i of a tree, two spaces further right for each record above it. `at` is a byte of the script that it holds.
fn say_indented(rt: &impl Print, tree: &[u8], index: &[u8], i: usize, at: u64) -> io::Result<()>
    requires { i < count index.now }
{
    let deep = index_view::depth(index, i, at);
    say_spaces(rt, deep)?;
    say_spaces(rt, deep)?;
    report::say_record_at(rt, tree, i)
}

// Writes the record that a byte of the script belongs to, indented.
fn say_owner(rt: &impl Print, tree: &[u8], index: &[u8], at: u64) -> io::Result<()> {
    let i = index_view::innermost(index, at);
    if i < index_view::entries(index) {
        return say_indented(rt, tree, index, i, at);
    }
    Ok(())
}

// Writes what is pushed after a bar, if anything is, and ends the line.
fn say_data(rt: &impl Print, data: &[u8]) -> io::Result<()> {
    if data.len() == 0 {
        return say(rt, b"\n");
    }
    say(rt, b" | ")?;
    report::say_hex(rt, data)?;
    say(rt, b"\n")
}

// Writes a byte's number and the opcode there, in hexadecimal and by its name.
fn say_opcode(rt: &impl Print, at: usize, opcode: u8) -> io::Result<()> {
    say_right(rt, at as u64, OFFSET_PLACES)?;
    say(rt, b"  ")?;
    report::say_byte(rt, opcode)?;
    say(rt, b"  ")?;
    say_name(rt, opcode)?;
    say(rt, b"  ")
}

// The line of an opcode or push, of which the bytes are given: where it begins, the opcode, the record that it belongs to, and what it pushes.
fn say_word(rt: &impl Print, tree: &[u8], index: &[u8], at: usize, bytes: &[u8]) -> io::Result<()>
    requires { 0 < length bytes.now }
{
    say_opcode(rt, at, bytes[0])?;
    say_owner(rt, tree, index, at as u64)?;
    say_data(rt, &bytes[1..])
}

// A line for each opcode or push of a script.
fn say_words(rt: &impl Print, tree: &[u8], index: &[u8], script: &[u8]) -> io::Result<()> {
    say(rt, b" offset  op  word                    record\n")?;
    let mut at = 0;
    // A `while`, since words are of unequal length.
    while at < script.len() {
        let end = word_end(script, at);
        say_word(rt, tree, index, at, &script[at..end])?;
        at = end;
    }
    Ok(())
}

// The lines of a script that is shown word by word.
fn say_script(rt: &impl Print, tree: &[u8], index: &[u8], script: &[u8]) -> io::Result<()> {
    report::show_number(rt, 0)?;
    report::say_line(rt, b"bytes", script.len() as u64)?;
    say_words(rt, tree, index, script)
}

// Shows a script word by word: how many bytes it has, and a line for each opcode or push, with the record of the tree that it belongs to by the index.
pub fn show_words<R: Print + Eprint>(rt: &R, tree: &[u8], index: &[u8], script: &[u8]) {
    report::say_unless(rt, say_script(rt, tree, index, script));
}

// Writes the letters of a packed type.
fn say_type(rt: &impl Print, packed: u32) -> io::Result<()> {
    match Type::unpack(packed) {
        Some(t) => {
            let mut corr = names::correctness_letters(t.corr);
            let mut mall = names::malleability_letters(t.mall);
            say_letters(rt, &mut corr, CORRECTNESS_PLACES)?;
            say(rt, b" ")?;
            say_letters(rt, &mut mall, MALLEABILITY_PLACES)
        }
        None => Ok(()),
    }
}

// Writes the height of record i, its first byte and its length in the script.
fn say_numbers(rt: &impl Print, index: &[u8], i: usize) -> io::Result<()>
    requires { i < count index.now }
{
    say_right(rt, index_view::height_of(index, i) as u64, HEIGHT_PLACES)?;
    say_right(rt, index_view::first_of(index, i) as u64, BYTES_PLACES)?;
    say_right(rt, index_view::length_of(index, i) as u64, BYTES_PLACES)
}

// The line of record i: what stands in its entry, and the record, indented.
fn say_entry(rt: &impl Print, tree: &[u8], index: &[u8], i: usize) -> io::Result<()>
    requires { i < count index.now }
{
    say_type(rt, index_view::type_of(index, i))?;
    say_numbers(rt, index, i)?;
    say(rt, b"  ")?;
    let at = index_view::first_of(index, i) as u64;
    say_indented(rt, tree, index, i, at)?;
    say(rt, b"\n")
}

// A line for each entry of an index.
fn say_entries(rt: &impl Print, tree: &[u8], index: &[u8]) -> io::Result<()> {
    say(rt, b"type        height    first   length  record\n")?;
    let n = index_view::entries(index);
    for i in 0..n {
        say_entry(rt, tree, index, i)?;
    }
    Ok(())
}

// The lines of the index of a tree.
fn say_index(rt: &impl Print, tree: &[u8], index: &[u8]) -> io::Result<()> {
    report::show_number(rt, 0)?;
    report::say_line(rt, b"bytes", index.len() as u64)?;
    say_entries(rt, tree, index)
}

// Shows the index of a tree: how many bytes it has, and a line for each record.
pub fn show_index<R: Print + Eprint>(rt: &R, tree: &[u8], index: &[u8]) {
    report::say_unless(rt, say_index(rt, tree, index));
}

// The lines of a record that was found.
fn say_found(rt: &impl Print, tree: &[u8], index: &[u8], i: usize) -> io::Result<()> {
    report::show_number(rt, 0)?;
    say(rt, b"record ")?;
    report::say_record_at(rt, tree, i)?;
    say(rt, b"\n")?;
    say_range(rt, index, i)
}

// Shows the record of an index that holds the byte that was looked up, with its first byte and its length in the script.
pub fn show_found<R: Print + Eprint>(rt: &R, tree: &[u8], index: &[u8], i: usize) {
    report::say_unless(rt, say_found(rt, tree, index, i));
}

// The lines of the first byte and of the length of record i, if the index has it.
fn say_range(rt: &impl Print, index: &[u8], i: usize) -> io::Result<()> {
    if i < index_view::entries(index) {
        report::say_line(rt, b"first", index_view::first_of(index, i) as u64)?;
        return report::say_line(rt, b"length", index_view::length_of(index, i) as u64);
    }
    Ok(())
}

// The lines that say that the script ends before a byte.
fn say_none(rt: &impl Print) -> io::Result<()> {
    report::show_number(rt, 0)?;
    say(rt, b"record none\n")
}

// Shows that the script ends before the byte that was looked up.
pub fn show_none<R: Print + Eprint>(rt: &R) {
    report::say_unless(rt, say_none(rt));
}
