// Writing the tree that a node of work memory stands for as document 01's records: post-order, children left to right, a shared node written
// at each occurrence.
//
// Its contracts cite `specs/Records.antt` (the record that a node writes), `specs/Answers.antt` (what measuring and writing answer) and, inside,
// `specs/Inside.antt` (what the parts of writing ask and answer). The laws that they rest on stand in `proofs/`.
#![tactic(auto)]

ghost use Rattle.std.specs.Prelude.{◌≡◌, ◌+◌, ◌*◌, ◌<◌, ◌≤◌, length, take};
ghost use Rattle.std.proofs.lemmas.List.Edits.{sets};
ghost use Rattle.words.specs.Bytes.{bytes_of};
ghost use Rattle.trees.specs.Reading.{max_records};
ghost use Rattle.writing.specs.Writing.{in_row, k_and_n, node_of};
ghost use Rattle.writing.specs.WellFormed.{WellFormed};
ghost use Rattle.memory.specs.Layout.{work_words, node_count};
ghost use Rattle.policies.specs.Array.{Good, policy_at};
ghost use Rattle.nodes.specs.Views.{keys_of};
ghost use Rattle.nodes.specs.Answers.{Holds};
ghost use Rattle.output.specs.Records.{tree_at, kind_at, fragment_kind, number_width, front_at, front_length, arity_at, named_child, child_at, length_at};
ghost use Rattle.output.specs.Answers.{Readable, Measured, Wrote};
ghost use Rattle.output.specs.Inside.{FrontLength, RecordLength, Keyed, Place, Placed, Room, Ended};

use nodes::{node, row_child};
use policies::{child, head_of};
use words::{put_u16, put_u32, put_u64};

// The kind of Thresh.
const THRESH: u16 = 56;

// The most records that are written.
const MAX_RECORDS: usize = 4096;

// How many records a tree has, and how many bytes they are.
#[derive(Clone, Copy)]
pub struct Extent {
    pub records: usize,
    pub bytes: usize,
}

// The place after what is written, and how many records stand before it.
#[derive(Clone, Copy)]
struct End {
    at: usize,
    records: usize,
}

// The number of the kind that is written: those with keys are of 64 bits. A kind that is no fragment's stands for False.
fn fragment_kind(kind: u16) -> u16
    ensures { result ≡ fragment_kind kind }
{
    // A kind stays a number: a record or a node holds one, and the contract answers on every number.
    match kind {
        32..=33 => kind,
        34..=35 => kind + 50,
        36..=56 => kind,
        57..=58 => kind + 50,
        _ => 32,
    }
}

// How many bytes the number of a record of a kind has.
fn number_width(kind: u16) -> usize
    ensures { result ≡ number_width kind }
{
    if kind <= 35 {
        return 8;
    }
    4
}

// The kind of the record that node e writes.
fn kind_of(work: &[u64], e: u16) -> u16
    requires { length work.now ≡ work_words }
    ensures { result ≡ kind_at work.now e }
{
    fragment_kind(node(work, e).kind)
}

// How many bytes of a record of a kind stand before its children, n being the number of children or keys.
fn front_length(kind: u16, n: usize) -> usize
    requires { n ≤ 16 }
    ensures { result ≡ front_length kind n }
{
    // A kind stays a number: a record or a node holds one, and the contract answers on every number.
    match kind {
        56 => 4,
        34..=41 => number_width(kind),
        57..=58 => 4 + 8 * n,
        _ => 0,
    }
}

// How many children node e has.
pub fn arity_of(pol: &[u64], work: &[u64], e: u16) -> usize
    requires { length work.now ≡ work_words }
    ensures { result ≡ arity_at pol.now work.now e }
{
    let x = node(work, e);
    let head = head_of(pol, x.first as usize);
    records::arity(x.kind, head.count)
}

// The number that node e holds for its child j.
fn named_child(work: &[u64], e: u16, j: usize) -> u16
    requires { Holds work.now × (e < node_count work.now) }
    ensures { result ≡ named_child work.now e j }
{
    let x = node(work, e);
    if x.kind == THRESH {
        return row_child(work, x.second, j);
    }
    match j {
        0 => x.first,
        1 => x.second,
        _ => x.third,
    }
}

// The number of the node that child j of node e is: a node before e, or False.
pub fn child_of(work: &[u64], e: u16, j: usize) -> u16
    requires { Holds work.now × (e < node_count work.now) }
    ensures { result ≡ child_at work.now e j }
{
    let named = named_child(work, e, j);
    if named < e {
        return named;
    }
    0
}

// How many bytes of the record of node e stand before its children.
fn front_of(pol: &[u64], work: &[u64], e: u16) -> usize
    requires { (length work.now ≡ work_words) × Good pol.now }
    ensures { FrontLength pol.now work.now e result }
{
    let x = node(work, e);
    let head = head_of(pol, x.first as usize);
    front_length(x.kind, head.count)
}

// How many bytes the record of node e has.
fn length_of(pol: &[u64], work: &[u64], e: u16) -> usize
    requires { (length work.now ≡ work_words) × Good pol.now }
    ensures { RecordLength pol.now work.now e result }
{
    let front = front_of(pol, work, e);
    let n = arity_of(pol, work, e);
    4 + front + 2 * n
}

// How many records the tree of node e has, and how many bytes, if it has at most `left` records. It visits at most one node more than that.
pub fn measure(pol: &[u64], work: &[u64], e: u16, left: usize) -> Option<Extent>
    requires { Readable pol.now work.now e × (left ≤ max_records) }
    ensures { Measured (tree_at pol.now work.now e) left result }
{
    if left == 0 {
        return None;
    }
    let n = arity_of(pol, work, e);
    let mut records = 1;
    let mut bytes = length_of(pol, work, e);
    for j in 0..n {
        let c = child_of(work, e, j);
        let more = measure(pol, work, c, left - records)?;
        records += more.records;
        bytes += more.bytes;
    }
    Some(Extent { records, bytes })
}

// Writes a u16 at a place.
fn put_2(out: &mut [u8], at: usize, v: u16)
    requires { at + 2 ≤ length out.old }
    ensures { out.new ≡ sets out.old at (bytes_of 2 v) }
{
    put_u16(out, at, v);
}

// Writes a u32 at a place.
fn put_4(out: &mut [u8], at: usize, v: u64)
    requires { at + 4 ≤ length out.old }
    ensures { out.new ≡ sets out.old at (bytes_of 4 v) }
{
    put_u32(out, at, (v % 0x1_0000_0000) as u32);
}

// Writes a u64 at a place.
fn put_8(out: &mut [u8], at: usize, v: u64)
    requires { at + 8 ≤ length out.old }
    ensures { out.new ≡ sets out.old at (bytes_of 8 v) }
{
    put_u64(out, at, v);
}

// Writes the number of a record of a kind at a place.
fn put_number(out: &mut [u8], at: usize, kind: u16, v: u64)
    requires { at + number_width kind ≤ length out.old }
    ensures { out.new ≡ sets out.old at (bytes_of (number_width kind) v) }
{
    if kind <= 35 {
        put_8(out, at, v);
        return;
    }
    put_4(out, at, v);
}

// Writes k and n at a place.
fn put_k_and_n(out: &mut [u8], at: usize, k: u64, n: usize)
    requires { (at + 4 ≤ length out.old) × (n ≤ 16) }
    ensures { out.new ≡ sets out.old at (k_and_n k n) }
{
    put_2(out, at, (k % 0x1_0000) as u16);
    put_2(out, at + 2, n as u16);
}

// Writes the numbers of the n children of record r of the policy, from a place on.
fn put_keys(pol: &[u64], r: usize, n: usize, out: &mut [u8], at: usize)
    requires { Keyed pol.now r n × (at + 8 * n ≤ length out.old) }
    ensures { out.new ≡ sets out.old at (in_row 8 (keys_of (policy_at pol.now r))) }
{
    for j in 0..n {
        let c = child(pol, r, j);
        let head = head_of(pol, c);
        put_8(out, at + 8 * j, head.number);
    }
}

// Writes what stands before the children in the record of node e.
fn put_front(pol: &[u64], work: &[u64], e: u16, out: &mut [u8], at: usize)
    requires { Place pol.now work.now e out.old at (length (front_at pol.now work.now e)) }
    ensures { out.new ≡ sets out.old at (front_at pol.now work.now e) }
{
    let x = node(work, e);
    let r = x.first as usize;
    let head = head_of(pol, r);
    let kind = x.kind;
    // A kind stays a number: a record or a node holds one, and the contract answers on every number.
    match kind {
        34..=41 => {
            put_number(out, at, kind, head.number);
        }
        56 => {
            put_k_and_n(out, at, head.k, head.count);
        }
        57..=58 => {
            let keys_at = at + 4;
            put_k_and_n(out, at, head.k, head.count);
            put_keys(pol, r, head.count, out, keys_at);
        }
        _ => {}
    }
}

// Writes the numbers of children, from a place on.
fn put_children(out: &mut [u8], at: usize, children: &[u16])
    requires { (length children.now ≤ 16) × (at + 2 * length children.now ≤ length out.old) }
    ensures { out.new ≡ sets out.old at (in_row 2 children.now) }
{
    for (j, c) in children.iter().enumerate() {
        put_2(out, at + 2 * j, *c);
    }
}

// Writes the record of node e, whose children have the numbers of a row, and says where it ends.
fn put_record(pol: &[u64], work: &[u64], e: u16, out: &mut [u8], at: usize, row: [u16; 16]) -> usize
    requires { Place pol.now work.now e out.old at (length_at pol.now work.now e) }
    ensures { Placed pol.now work.now e row at out.old out.new result }
{
    let front = front_of(pol, work, e);
    let n = arity_of(pol, work, e);
    let length = 4 + front + 2 * n;
    let end = at + length;
    put_2(out, at, length as u16);
    put_2(out, at + 2, kind_of(work, e));
    put_front(pol, work, e, out, at + 4);
    put_children(out, at + 4 + front, &row[..n]);
    end
}

// Writes the records of node e's tree from a place on, where n records stand before them.
fn write_node(pol: &[u64], work: &[u64], e: u16, out: &mut [u8], at: usize, n: usize) -> End
    requires { Room pol.now work.now e out.old at n }
    ensures { Ended (node_of (tree_at pol.now work.now e)) at n out.old out.new result }
{
    let arity = arity_of(pol, work, e);
    let mut row = [0; 16];
    let mut to = at;
    let mut records = n;
    for j in 0..arity {
        let c = child_of(work, e, j);
        let end = write_node(pol, work, c, out, to, records);
        to = end.at;
        records = end.records;
        row[j] = (records - 1) as u16;
    }
    let last = put_record(pol, work, e, out, to, row);
    End {
        at: last,
        records: records + 1,
    }
}

// Writes the records of node e's tree, if there are at most 4,096 of them and they fit; otherwise it writes nothing.
pub fn write(pol: &[u64], work: &[u64], e: u16, out: &mut [u8]) -> Option<usize>
    requires { Readable pol.now work.now e × WellFormed (tree_at pol.now work.now e) }
    ensures { Wrote (tree_at pol.now work.now e) out.old out.new result }
{
    let bytes = measure(pol, work, e, MAX_RECORDS)?.bytes;
    if out.len() < bytes {
        return None;
    }
    write_node(pol, work, e, out, 0, 0);
    Some(bytes)
}
