// The figures of every record of a fragment tree, children first, and whether every fragment of it is locally valid.
//
// specs/LocallyValid.antt says when a tree is. Inner contracts cite specs/Memory.antt: the figures of records in work memory.
#![tactic(auto)]

ghost use Rattle.std.specs.Prelude.{◌≡◌, ℕ, ◌+◌, ◌*◌, ◌≤◌, ◌<◌, length, get_or};
ghost use Rattle.figures.specs.Bounds.{Candidate};
ghost use Rattle.figures.specs.Validity.{check_local_validity};
ghost use Rattle.records.specs.RecordForm.{kind_of};
ghost use Rattle.trees.specs.Fragment.{Fragment};
ghost use Rattle.walk.specs.TreeRecords.{TreeRecords, Written};
ghost use Rattle.figure_rules.specs.ByKind.{blank};
ghost use Rattle.tree_figures.specs.LocallyValid.{all_valid};
ghost use Rattle.tree_figures.specs.Memory.{sat_words, figure_words, sat_in, figures_in, figures_at, put_figures, Loaded, figures_here, Stands};

use contexts::Context;
use figures::{ExtData, SatData};

// What stands for a child that is not there.
fn blank() -> ExtData
    ensures { result ≡ blank }
{
    let zeros = Some(SatData {
        max_witness_stack_size: 0,
        max_witness_stack_count: 0,
        max_script_sig_size: 0,
        max_exec_stack_count: 0,
        max_exec_op_count: 0,
    });
    ExtData {
        pk_cost: 0,
        has_free_verify: false,
        static_ops: 0,
        sat_data: zeros,
        dissat_data: zeros,
        tree_height: 0,
    }
}

// A worst case as words.
fn sat_words(x: Option<SatData>) -> [u64; 6]
    ensures { result ≡ sat_words x }
{
    match x {
        Some(d) => [
            1,
            d.max_witness_stack_size,
            d.max_witness_stack_count,
            d.max_script_sig_size,
            d.max_exec_stack_count,
            d.max_exec_op_count,
        ],
        None => [0, 0, 0, 0, 0, 0],
    }
}

// Figures as words.
fn words_of(x: ExtData) -> [u64; 16]
    ensures { result ≡ figure_words x }
{
    let s = sat_words(x.sat_data);
    let d = sat_words(x.dissat_data);
    [
        x.pk_cost,
        u64::from(x.has_free_verify),
        x.static_ops,
        x.tree_height,
        s[0],
        s[1],
        s[2],
        s[3],
        s[4],
        s[5],
        d[0],
        d[1],
        d[2],
        d[3],
        d[4],
        d[5],
    ]
}

// The worst case that stands at a place of some words.
fn sat_in(words: &[u64], at: usize) -> Option<SatData>
    requires { (at ≤ 10) × (length words.now ≡ 16) }
    ensures { result ≡ sat_in words.now at }
{
    if words[at] == 1 {
        return Some(SatData {
            max_witness_stack_size: words[at + 1],
            max_witness_stack_count: words[at + 2],
            max_script_sig_size: words[at + 3],
            max_exec_stack_count: words[at + 4],
            max_exec_op_count: words[at + 5],
        });
    }
    None
}

// The figures that some words hold.
fn figures_in(words: &[u64]) -> ExtData
    requires { length words.now ≡ 16 }
    ensures { result ≡ figures_in words.now }
{
    ExtData {
        pk_cost: words[0],
        has_free_verify: words[1] == 1,
        static_ops: words[2],
        sat_data: sat_in(words, 4),
        dissat_data: sat_in(words, 10),
        tree_height: words[3],
    }
}

// The figures of record i.
fn figures_at(work: &[u64], i: usize) -> ExtData
    requires { (i < 4096) × (length work.now ≡ 65536) }
    ensures { result ≡ figures_at work.now i }
{
    let from = 16 * i;
    figures_in(&work[from..from + 16])
}

// The figures of the first n of some records.
fn load(work: &[u64], numbers: [u16; 16], n: usize) -> [ExtData; 16]
    requires { (n ≤ 16) × ((length work.now ≡ 65536) × ((j : ℕ) → j < n → get_or numbers j 0 < 4096)) }
    ensures { Loaded work.now numbers n result }
{
    let none = blank();
    let mut out = [none; 16];
    for j in 0..n {
        let number = numbers[j] as usize;
        out[j] = figures_at(work, number);
    }
    out
}

// The figures of record i, where work memory has those of the records before it.
fn figures_here(context: Context, bytes: &[u8], work: &[u64], i: usize) -> ExtData
    requires { Stands bytes.now work.now i }
    ensures value { result ≡ figures_here context bytes.now work.now }
    ensures candidate { Candidate (i + 1) result }
{
    let parts = records::fragment_parts(bytes);
    let kind = records::kind_of(bytes);
    let count = parts.count;
    let n = records::arity(kind, count);
    let numbers = parts.children;
    let children = load(work, numbers, n);
    figure_rules::figures_of(context, kind, parts.number, parts.k, count as u16, children)
}

// Stores the figures of record i, and says whether its fragment is locally valid.
fn valid_here(context: Context, bytes: &[u8], work: &mut [u64], i: usize) -> bool
    requires { Stands bytes.now work.old i }
    ensures value { result ≡ check_local_validity context (kind_of bytes.now) (figures_here context bytes.now work.old) }
    ensures candidate { Candidate (i + 1) (figures_here context bytes.now work.old) }
    ensures work_after { work.new ≡ put_figures work.old i (figures_here context bytes.now work.old) }
{
    let ext = figures_here(context, bytes, work, i);
    let words = words_of(ext);
    let from = 16 * i;
    work[from..from + 16].copy_from_slice(&words);
    figures::check_local_validity(context, records::kind_of(bytes), ext)
}

// Whether every fragment of a tree is locally valid.
pub fn all_valid(context: Context, tree: &[u8], work: &mut [u64]) -> bool
    requires { Written tree.now × (length work.old ≡ 65536) }
    ensures value { (f : Fragment) → TreeRecords tree.now f → result ≡ all_valid context f }
    ensures work_len_unchanged { length work.new ≡ length work.old }
{
    // Records are of unequal length.
    let mut at = 0;
    let mut i = 0;
    while at < tree.len() {
        let end = walk::record_end(tree, at);
        if !valid_here(context, &tree[at..end], work, i) {
            return false;
        }
        at = end;
        i += 1;
    }
    true
}
