// Nodes in work memory: the candidates that the search accepted, each packed into eight words, and the rows of children that a Thresh has.
//
// Its contracts cite `specs/Words.antt` (the words of a node), `specs/Views.antt` (the candidates of the definition that nodes stand for),
// `specs/Answers.antt` (what holds of the nodes, and how they grow) and, inside, `specs/Stored.antt` (what storing a node or a row asks). Crate
// `memory` says where everything stands. The laws that crates above cite stand in `proofs/`.
#![tactic(auto)]

ghost use Rattle.std.specs.Prelude.{◌≡◌, ◌+◌, ◌/◌, ◌%◌, ◌^◌, ◌<◌, ◌≤◌, length};
ghost use Rattle.std.proofs.lemmas.List.Edits.{sets};
ghost use Rattle.contexts.specs.Bools.{bool_rank};
ghost use Rattle.memory.specs.Layout.{work_words, max_rows, node_count, row_count};
ghost use Rattle.nodes.specs.Words.{type_in, sat_in, dissat_in, ext_in, cost_in, candidate_in, head_in, head_of, node_at, row_child};
ghost use Rattle.nodes.specs.Words.{has_sat, has_dissat_cost, script_word, witness_word, stack_word};
ghost use Rattle.nodes.specs.Answers.{Holds, Fresh, Adds, OneRow, Begun};
ghost use Rattle.nodes.specs.Stored.{FitSat, FitExt, ShapeIs, FloatIs, DissatIs, WordsAre, FourIs, RowWordIs, RowWordsAre};

use candidates::Candidate;
use costs::Cost;
use figures::{ExtData, SatData};
use types::Type;
use words::{float_of_word, word_of_float};

// The most nodes, and where the rows begin.
const MAX_NODES: usize = 65536;

const ROWS_FROM: usize = 524296;

// What dissatisfying costs, if a node has such a cost.
fn dissat_in(has: u64, word: u64) -> Option<f64>
    ensures { result ≡ dissat_in has word }
{
    if has == 1 {
        Some(float_of_word(word))
    } else {
        None
    }
}

// The worst case of a node's two words, if it has one.
fn sat_in(has: u64, witness: u64, stack: u64) -> Option<SatData>
    ensures { result ≡ sat_in has witness stack }
{
    if has == 1 {
        Some(SatData {
            max_witness_stack_size: witness % 0x200_0000,
            max_witness_stack_count: witness / 0x200_0000 % 0x40_0000,
            max_script_sig_size: stack % 0x200_0000,
            max_exec_stack_count: stack / 0x200_0000 % 0x40_0000,
            max_exec_op_count: witness / 0x8000_0000_0000 % 0x800
                + stack / 0x8000_0000_0000 % 0x800 * 0x800,
        })
    } else {
        None
    }
}

// The type of a node's first word.
fn type_in(shape: u64) -> Type
    ensures { result ≡ type_in shape }
{
    match Type::unpack((shape / 0x40_0000_0000_0000 % 0x400) as u32) {
        Some(ty) => ty,
        None => Type::of_false(),
    }
}

// The figures of a node's words.
fn ext_in(script: u64, witness: u64, stack: u64, witness_0: u64, stack_0: u64) -> ExtData
    ensures { result ≡ ext_in script witness stack witness_0 stack_0 }
{
    ExtData {
        pk_cost: script % 0x40_0000,
        has_free_verify: script / 0x1000_0000_0000_0000 % 2 == 1,
        static_ops: script / 0x40_0000 % 0x40_0000,
        sat_data: sat_in(script / 0x2000_0000_0000_0000 % 2, witness, stack),
        dissat_data: sat_in(script / 0x4000_0000_0000_0000 % 2, witness_0, stack_0),
        tree_height: script / 0x1000_0000_0000 % 0x1_0000,
    }
}

// The cost of a node's words.
fn cost_in(script: u64, sat: u64, dissat: u64) -> Cost
    ensures { result ≡ cost_in script sat dissat }
{
    Cost {
        sat_cost: float_of_word(sat),
        dissat_cost: dissat_in(script / 0x8000_0000_0000_0000 % 2, dissat),
    }
}

// The candidate of eight words.
fn candidate_in(
    shape: u64,
    script: u64,
    witness: u64,
    stack: u64,
    witness_0: u64,
    stack_0: u64,
    sat: u64,
    dissat: u64,
) -> Candidate
    ensures { result ≡ candidate_in shape script witness stack witness_0 stack_0 sat dissat }
{
    Candidate {
        kind: (shape % 0x40) as u16,
        first: (shape / 0x40 % 0x1_0000) as u16,
        second: (shape / 0x40_0000 % 0x1_0000) as u16,
        third: (shape / 0x40_0000_0000 % 0x1_0000) as u16,
        ty: type_in(shape),
        ext: ext_in(script, witness, stack, witness_0, stack_0),
        cost: cost_in(script, sat, dissat),
    }
}

// The candidate that node i holds.
pub fn node(work: &[u64], i: u16) -> Candidate
    requires { length work.now ≡ work_words }
    ensures { result ≡ node_at work.now i }
{
    let at = 8 * (i as usize);
    candidate_in(
        work[at + 8],
        work[at + 9],
        work[at + 10],
        work[at + 11],
        work[at + 12],
        work[at + 13],
        work[at + 14],
        work[at + 15],
    )
}

// What a table compares of a node besides its type: whether verifying it is free, the bytes of its script, and its cost.
#[derive(Clone, Copy)]
pub struct Head {
    pub free_verify: bool,
    pub pk_cost: u32,
    pub cost: Cost,
}

// The head of a node's words.
fn head_in(script: u64, sat: u64, dissat: u64) -> Head
    ensures { result ≡ head_in script sat dissat }
{
    Head {
        free_verify: script / 0x1000_0000_0000_0000 % 2 == 1,
        pk_cost: (script % 0x40_0000) as u32,
        cost: cost_in(script, sat, dissat),
    }
}

// The head of node i.
pub fn head_at(work: &[u64], i: u16) -> Head
    requires { length work.now ≡ work_words }
    ensures { result ≡ head_of (node_at work.now i) }
{
    let at = 8 * (i as usize);
    head_in(work[at + 9], work[at + 14], work[at + 15])
}

// The type of node i.
pub fn type_at(work: &[u64], i: u16) -> Type
    requires { length work.now ≡ work_words }
    ensures { result ≡ (node_at work.now i).ty }
{
    let at = 8 * (i as usize);
    type_in(work[at + 8])
}

// How many nodes there are.
pub fn count(work: &[u64]) -> usize
    requires { length work.now ≡ work_words }
    ensures { result ≡ node_count work.now }
{
    work[0] as usize
}

// The digit of a bool.
fn bit(b: bool) -> u64
    ensures { (result ≡ bool_rank b) × (result < 2) }
{
    b as u64
}

// Whether there is a worst case, as a digit.
fn has_sat(x: Option<SatData>) -> u64
    ensures { (result ≡ has_sat x) × (result < 2) }
{
    x.is_some() as u64
}

// Whether dissatisfying has a cost, as a digit.
fn has_dissat_cost(x: Option<f64>) -> u64
    ensures { (result ≡ has_dissat_cost x) × (result < 2) }
{
    x.is_some() as u64
}

// The first word of a node.
fn shape_word(x: Candidate) -> u64
    requires { x.kind < 0x40 }
    ensures { ShapeIs x result }
{
    let packed = x.ty.pack() as u64;
    (x.kind as u64)
        + (x.first as u64) * 0x40
        + (x.second as u64) * 0x40_0000
        + (x.third as u64) * 0x40_0000_0000
        + packed * 0x40_0000_0000_0000
}

// The second word of a node.
fn script_word(x: Candidate) -> u64
    requires { FitExt x.ext }
    ensures { result ≡ script_word x }
{
    let ext = x.ext;
    let free = bit(ext.has_free_verify);
    let sat = has_sat(ext.sat_data);
    let dissat = has_sat(ext.dissat_data);
    let costed = has_dissat_cost(x.cost.dissat_cost);
    ext.pk_cost
        + ext.static_ops * 0x40_0000
        + ext.tree_height * 0x1000_0000_0000
        + free * 0x1000_0000_0000_0000
        + sat * 0x2000_0000_0000_0000
        + dissat * 0x4000_0000_0000_0000
        + costed * 0x8000_0000_0000_0000
}

// The first word of a worst case.
fn witness_word(x: Option<SatData>) -> u64
    requires { FitSat x }
    ensures { result ≡ witness_word x }
{
    match x {
        Some(d) => d.max_witness_stack_size
            + d.max_witness_stack_count * 0x200_0000
            + d.max_exec_op_count % 0x800 * 0x8000_0000_0000,
        None => 0,
    }
}

// The second word of a worst case.
fn stack_word(x: Option<SatData>) -> u64
    requires { FitSat x }
    ensures { result ≡ stack_word x }
{
    match x {
        Some(d) => d.max_script_sig_size
            + d.max_exec_stack_count * 0x200_0000
            + d.max_exec_op_count / 0x800 * 0x8000_0000_0000,
        None => 0,
    }
}

// The word of a cost.
fn cost_word(x: f64) -> u64
    ensures { FloatIs x result }
{
    word_of_float(x)
}

// The word of what dissatisfying costs.
fn dissat_word(x: Option<f64>) -> u64
    ensures { DissatIs x result }
{
    match x {
        Some(cost) => cost_word(cost),
        None => 0,
    }
}

// The eight words of a node.
fn words_of(x: Candidate) -> [u64; 8]
    requires { (x.kind < 0x40) × FitExt x.ext }
    ensures { WordsAre x result }
{
    let ext = x.ext;
    [
        shape_word(x),
        script_word(x),
        witness_word(ext.sat_data),
        stack_word(ext.sat_data),
        witness_word(ext.dissat_data),
        stack_word(ext.dissat_data),
        cost_word(x.cost.sat_cost),
        dissat_word(x.cost.dissat_cost),
    ]
}

// Writes words from a place on.
fn put_words(work: &mut [u64], at: usize, words: &[u64])
    requires { at + length words.now ≤ length work.old }
    ensures { work.new ≡ sets work.old at words.now }
{
    work[at..at + words.len()].copy_from_slice(words);
}

// Adds a candidate as the next node, if there is room for one.
pub fn add(work: &mut [u64], x: Candidate) -> Option<u16>
    requires { Holds work.old × Fresh work.old x }
    ensures { Adds work.old work.new x result }
{
    let n = work[0] as usize;
    if n == MAX_NODES {
        return None;
    }
    let words = words_of(x);
    put_words(work, 8 * n + 8, &words);
    work[0] = (n + 1) as u64;
    Some(n as u16)
}

// Four numbers in a word.
fn four(a: u16, b: u16, c: u16, d: u16) -> u64
    ensures { FourIs a b c d result }
{
    (a as u64)
        + (b as u64) * 0x1_0000
        + (c as u64) * 0x1_0000_0000
        + (d as u64) * 0x1_0000_0000_0000
}

// Word q of a row.
fn row_word(row: [u16; 16], q: usize) -> u64
    requires { q < 4 }
    ensures { RowWordIs row q result }
{
    let at = 4 * q;
    four(row[at], row[at + 1], row[at + 2], row[at + 3])
}

// The four words of a row.
fn row_words(row: [u16; 16]) -> [u64; 4]
    ensures { RowWordsAre row result }
{
    [
        row_word(row, 0),
        row_word(row, 1),
        row_word(row, 2),
        row_word(row, 3),
    ]
}

// Adds a row, and says its number.
pub fn add_row(work: &mut [u64], row: [u16; 16]) -> u16
    requires { Holds work.old × (row_count work.old < max_rows) }
    ensures { OneRow work.old work.new row result }
{
    let n = work[2] as usize;
    let words = row_words(row);
    put_words(work, ROWS_FROM + 4 * n, &words);
    work[2] = (n + 1) as u64;
    n as u16
}

// The number at a place of a word.
fn digit(w: u64, place: usize) -> u16
    requires { place < 4 }
    ensures { result ≡ w / (0x1_0000 ^ place) % 0x1_0000 }
{
    match place {
        0 => (w % 0x1_0000) as u16,
        1 => (w / 0x1_0000 % 0x1_0000) as u16,
        2 => (w / 0x1_0000_0000 % 0x1_0000) as u16,
        _ => (w / 0x1_0000_0000_0000 % 0x1_0000) as u16,
    }
}

// Child j of a row, and 0 where a row has no such place.
pub fn row_child(work: &[u64], row: u16, j: usize) -> u16
    requires { (length work.now ≡ work_words) × (row < max_rows) }
    ensures { result ≡ row_child work.now row j }
{
    if j < 16 {
        let at = ROWS_FROM + 4 * (row as usize) + j / 4;
        return digit(work[at], j % 4);
    }
    0
}

// Makes False and True the only nodes, with no rows and no tables.
pub fn begin(work: &mut [u64])
    requires { length work.old ≡ work_words }
    ensures { Begun work.new }
{
    let no = words_of(Candidate::of_false());
    let yes = words_of(Candidate::of_true());
    work[0] = 2;
    work[1] = 0;
    work[2] = 0;
    put_words(work, 8, &no);
    put_words(work, 16, &yes);
}
