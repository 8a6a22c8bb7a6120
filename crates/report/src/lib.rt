// The answers of the entries as lines of standard output. What says something ends at the first write that fails, with its error; what shows an
// answer says so on standard error.
//
// Every function is safe and ends. No contract can say what is written to a file or a terminal.
#![tactic(auto)]

use names::{answer_name, close_up, correctness_letters, kind_name, malleability_letters};
use records::{Parts, Shape};
use std::io;
use types::Type;

mod amounts;
mod differences;

// A tree that a refusal is about, of two.
#[derive(Clone, Copy)]
pub enum Side {
    Left,
    Right,
}

// Writes a text.
pub fn say(rt: &impl Print, text: &[u8]) -> io::Result<()> {
    rt.write_all(text)
}

// Writes a space and a number.
pub fn say_number(rt: &impl Print, n: u64) -> io::Result<()> {
    print!(rt; " {n}")
}

// Writes a word and a number as a line.
pub fn say_line(rt: &impl Print, word: &[u8], n: u64) -> io::Result<()> {
    say(rt, word)?;
    say_number(rt, n)?;
    say(rt, b"\n")
}

// Writes what stands in the places of a row.
pub fn say_places(rt: &impl Print, places: &mut [u8]) -> io::Result<()> {
    let n = close_up(places);
    say(rt, &places[..n])
}

// The line of an answer: document 01's number and its name.
pub fn show_number(rt: &impl Print, number: u32) -> io::Result<()> {
    let mut name = answer_name(number);
    print!(rt; "{number} ")?;
    say_places(rt, &mut name)?;
    say(rt, b"\n")
}

// The line that says what a refusal means. The entries give their refusals as numbers.
fn show_meaning(rt: &impl Print, number: u32) -> io::Result<()> {
    match number {
        1 => say(
            rt,
            b"the context is neither 0, SegWit v0, nor 1, Tapscript\n",
        ),
        2 => say(rt, b"the work memory has another length\n"),
        3 => say(rt, b"the policy has no record, or one breaks the form\n"),
        4 => say(rt, b"a weight of an Or is 0\n"),
        5 => say(
            rt,
            b"the policy has more than 64 records, or is deeper than 16\n",
        ),
        6 => say(rt, b"the search accepts a 65535th candidate\n"),
        7 => say(rt, b"a table of the search would have 129 entries\n"),
        8 => say(rt, b"the search would remember a 2049th table\n"),
        9 => say(rt, b"one closure of casts would take a 4097th element\n"),
        10 => say(
            rt,
            b"a cost to be compared is not a number or has its sign bit set, or a needed one is missing\n",
        ),
        11 => say(
            rt,
            b"a table of the search is empty, or none of its entries suits\n",
        ),
        12 => say(
            rt,
            b"the chosen fragment is not safe: it can be satisfied without a signature\n",
        ),
        13 => say(
            rt,
            b"the records of the tree do not fit, or are more than 4096\n",
        ),
        14 => say(rt, b"the tree has no record, or one breaks the form\n"),
        15 => say(
            rt,
            b"the tree breaks a type rule, or has Multi in context 1 or MultiA in context 0\n",
        ),
        16 => say(rt, b"the tree has more than 4096 records\n"),
        17 => say(
            rt,
            b"a number of the tree has no whole entry in its table\n",
        ),
        18 => say(
            rt,
            b"a key's number is over 4294967295, more than the old form holds\n",
        ),
        19 => say(rt, b"the tree is more than 128 high\n"),
        _ => show_later_meaning(rt, number),
    }
}

// The same of a number from 20 on.
fn show_later_meaning(rt: &impl Print, number: u32) -> io::Result<()> {
    match number {
        20 => say(rt, b"the index is not the one that is built for the tree\n"),
        21 => say(
            rt,
            b"policy and tree have more than 12 keys, hashes and locks together\n",
        ),
        22 => say(rt, b"the tree is not of base B\n"),
        23 => say(
            rt,
            b"the tree is not safe: it can be satisfied without a signature\n",
        ),
        24 => say(rt, b"the tree is malleable\n"),
        25 => say(rt, b"a fragment of the tree is not locally valid\n"),
        26 => say(rt, b"the tree does not mean what the policy means\n"),
        _ => Ok(()),
    }
}

// The line that says which of two trees a refusal is about, if it is about one.
fn show_side(rt: &impl Print, side: Option<Side>) -> io::Result<()> {
    match side {
        Some(Side::Left) => say(rt, b"the left tree is refused\n"),
        Some(Side::Right) => say(rt, b"the right tree is refused\n"),
        None => Ok(()),
    }
}

// The line of a cost: `never`, or its bits and its number.
fn show_cost(rt: &impl Print, cost: u64, never: u32) -> io::Result<()> {
    if never == 1 {
        return say(rt, b"cost never\n");
    }
    print!(rt; "cost {cost:016x}")?;
    amounts::say_amount(rt, cost)?;
    say(rt, b"\n")
}

// The lines of what a compilation gives, but for the tree.
fn show_given(rt: &impl Print, bytes: u64, cost: u64, never: u32, nodes: u64) -> io::Result<()> {
    say_line(rt, b"bytes", bytes)?;
    show_cost(rt, cost, never)?;
    say_line(rt, b"nodes", nodes)
}

// Writes the letters of a type.
fn say_type(rt: &impl Print, t: Type) -> io::Result<()> {
    let mut corr = correctness_letters(t.corr);
    let mut mall = malleability_letters(t.mall);
    say_places(rt, &mut corr)?;
    say(rt, b" ")?;
    say_places(rt, &mut mall)
}

// The line of a type.
fn show_type(rt: &impl Print, t: Type) -> io::Result<()> {
    say(rt, b"type ")?;
    say_type(rt, t)?;
    say(rt, b"\n")
}

// The first `count` of a record's children.
fn show_children(rt: &impl Print, children: [u16; 16], count: usize) -> io::Result<()> {
    for child in &children[..count.min(16)] {
        say_number(rt, *child as u64)?;
    }
    Ok(())
}

// The first `count` of a record's keys.
fn show_keys(rt: &impl Print, bytes: &[u8], count: usize) -> io::Result<()> {
    for i in 0..count.min(16) {
        say_number(rt, records::key_at(bytes, i as u16))?;
    }
    Ok(())
}

// A threshold's k and n.
fn show_k_and_n(rt: &impl Print, parts: Parts) -> io::Result<()> {
    say_number(rt, parts.k as u64)?;
    say_number(rt, parts.count as u64)
}

// The numbers of a record of a shape.
fn show_parts(rt: &impl Print, shape: Shape, bytes: &[u8]) -> io::Result<()> {
    let parts = records::parts_of(shape, bytes);
    let children = parts.children;
    match shape {
        Shape::Nothing => Ok(()),
        Shape::Number | Shape::Lock => say_number(rt, parts.number),
        Shape::OneChild | Shape::TwoChildren | Shape::ThreeChildren | Shape::Weighted => {
            show_children(rt, children, parts.count)
        }
        Shape::Threshold => {
            show_k_and_n(rt, parts)?;
            show_children(rt, children, parts.count)
        }
        Shape::Keys => {
            show_k_and_n(rt, parts)?;
            show_keys(rt, bytes, parts.count)
        }
    }
}

// The numbers of a record of a kind.
fn show_payload(rt: &impl Print, kind: u16, bytes: &[u8]) -> io::Result<()> {
    match records::shape_of(kind) {
        Some(shape) => show_parts(rt, shape, bytes),
        None => Ok(()),
    }
}

// A record: its number, its kind's name, its numbers.
fn say_record(rt: &impl Print, number: usize, bytes: &[u8]) -> io::Result<()> {
    let kind = records::kind_of(bytes);
    let mut name = kind_name(kind);
    print!(rt; "{number} ")?;
    say_places(rt, &mut name)?;
    show_payload(rt, kind, bytes)
}

// The line of a record.
fn show_record(rt: &impl Print, number: usize, bytes: &[u8]) -> io::Result<()> {
    say_record(rt, number, bytes)?;
    say(rt, b"\n")
}

// A line for each record of a tree, in order.
fn show_tree(rt: &impl Print, tree: &[u8]) -> io::Result<()> {
    // Records differ in length: each begins where the one before it ends.
    let mut number = 0;
    let mut at = 0;
    while at < tree.len() {
        let Some(n) = records::length_at(tree, at) else {
            return Ok(());
        };
        show_record(rt, number, &tree[at..at + n])?;
        number += 1;
        at += n;
    }
    Ok(())
}

// Writes a byte in two hexadecimal digits.
pub fn say_byte(rt: &impl Print, b: u8) -> io::Result<()> {
    print!(rt; "{b:02x}")
}

// Writes bytes in hexadecimal.
pub fn say_hex(rt: &impl Print, bytes: &[u8]) -> io::Result<()> {
    for b in bytes {
        say_byte(rt, *b)?;
    }
    Ok(())
}

// The line of a script's bytes.
fn show_bytes(rt: &impl Print, script: &[u8]) -> io::Result<()> {
    say(rt, b"script ")?;
    say_hex(rt, script)?;
    say(rt, b"\n")
}

// Says so where not all of an answer was written.
pub fn say_unless(rt: &impl Eprint, written: io::Result<()>) {
    if let Err(e) = written {
        files::fail(rt, "standard output", e);
    }
}

// The lines of a refusal: its number, and what it means.
fn say_refusal(rt: &impl Print, number: u32) -> io::Result<()> {
    show_number(rt, number)?;
    show_meaning(rt, number)
}

// Shows a refusal: its number, and what it means.
pub fn show_refusal<R: Print + Eprint>(rt: &R, number: u32) {
    say_unless(rt, say_refusal(rt, number));
}

// The lines of a refusal of two trees.
fn say_refusal_of(rt: &impl Print, number: u32, side: Option<Side>) -> io::Result<()> {
    say_refusal(rt, number)?;
    show_side(rt, side)
}

// Shows a refusal of two trees: its number, what it means, and which of the trees it is about.
pub fn show_refusal_of<R: Print + Eprint>(rt: &R, number: u32, side: Option<Side>) {
    say_unless(rt, say_refusal_of(rt, number, side));
}

// The lines of a policy that is compiled.
fn say_compiled(rt: &impl Print, cost: u64, never: u32, nodes: u64, tree: &[u8]) -> io::Result<()> {
    show_number(rt, 0)?;
    show_given(rt, tree.len() as u64, cost, never, nodes)?;
    show_tree(rt, tree)
}

// Shows the answer to a policy that is compiled: what it gives, and its tree.
pub fn show_compiled<R: Print + Eprint>(rt: &R, cost: u64, never: u32, nodes: u64, tree: &[u8]) {
    say_unless(rt, say_compiled(rt, cost, never, nodes, tree));
}

// The lines of a policy whose tree is chosen and not written.
fn say_chosen(rt: &impl Print, bytes: u64, cost: u64, never: u32, nodes: u64) -> io::Result<()> {
    show_number(rt, 0)?;
    show_given(rt, bytes, cost, never, nodes)
}

// Shows the answer to a policy whose tree is chosen and not written: what compiling gives, but for the tree.
pub fn show_chosen<R: Print + Eprint>(rt: &R, bytes: u64, cost: u64, never: u32, nodes: u64) {
    say_unless(rt, say_chosen(rt, bytes, cost, never, nodes));
}

// The lines of a tree that passes.
fn say_checked(rt: &impl Print, packed: u32) -> io::Result<()> {
    show_number(rt, 0)?;
    match Type::unpack(packed) {
        Some(t) => show_type(rt, t),
        None => Ok(()),
    }
}

// Shows the answer to a tree that passes: its type, of which the packed number is given.
pub fn show_checked<R: Print + Eprint>(rt: &R, packed: u32) {
    say_unless(rt, say_checked(rt, packed));
}

// The lines of a tree whose script is written.
fn say_script(rt: &impl Print, script: &[u8]) -> io::Result<()> {
    show_number(rt, 0)?;
    say_line(rt, b"bytes", script.len() as u64)?;
    show_bytes(rt, script)
}

// Shows the answer to a tree whose script is written: how many bytes it has, and the bytes.
pub fn show_script<R: Print + Eprint>(rt: &R, script: &[u8]) {
    say_unless(rt, say_script(rt, script));
}

// The lines of a policy that was moved.
fn say_moved(rt: &impl Print, bytes: u64) -> io::Result<()> {
    show_number(rt, 0)?;
    say_line(rt, b"bytes", bytes)
}

// Shows the answer to a policy that was moved: how many bytes it has.
pub fn show_moved<R: Print + Eprint>(rt: &R, bytes: u64) {
    say_unless(rt, say_moved(rt, bytes));
}

// Writes record i of a tree as in the lines of a tree that was compiled.
pub fn say_record_at(rt: &impl Print, tree: &[u8], i: usize) -> io::Result<()> {
    differences::say_record_at(rt, tree, i)
}

// The lines of the differences of two trees.
fn say_differences(rt: &impl Print, left: &[u8], right: &[u8], told: &[u8]) -> io::Result<()> {
    show_number(rt, 0)?;
    differences::show_all(rt, left, right, told)
}

// Shows the differences of two trees, of which the entry has told both record numbers in eight bytes each: how many there are, and each as a line.
pub fn show_differences<R: Print + Eprint>(rt: &R, left: &[u8], right: &[u8], told: &[u8]) {
    say_unless(rt, say_differences(rt, left, right, told));
}
