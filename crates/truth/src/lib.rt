// Whether a fragment tree means what a policy means, by truth tables over the variables of both: 64 blocks of 64 assignments, a word for each
// record in each block.
//
// specs/Alike.antt says what is decided. Contracts cite specs/Words.antt (words of 64 assignments, and counts in planes of them) and
// specs/Gates.antt (each record as 'at least so many of these places').
#![tactic(auto)]

ghost use Rattle.std.specs.Prelude.{cond, List, map, ◌≡◌, ℕ, ◌+◌, ◌%◌, ◌≤◌, ◌<◌, eqb, leb, length, get_or, take};
ghost use Rattle.records.specs.Numbers.{between};
ghost use Rattle.policies.specs.Reading.{max_records};
ghost use Rattle.policies.specs.Array.{policy_at, Good};
ghost use Rattle.trees.specs.Fragment.{Fragment};
ghost use Rattle.walk.specs.TreeRecords.{TreeRecords, Written};
ghost use Rattle.meaning.specs.Meaning.{count_true, policy_means, tree_means};
ghost use Rattle.contexts.specs.Lists.{one};
ghost use Rattle.variables.specs.Gathering.{row_of, Roomy, Found};
ghost use Rattle.truth.specs.Words.{bit_at, full_if, word_for, assigned, block_words, Planes, OneMore};
ghost use Rattle.truth.specs.Gates.{tree_gate, policy_gate, bits_at, own_bits, Stands, RecordWord};
ghost use Rattle.truth.specs.Alike.{BlockSays, Says};

use variables::{Own, Var, Vars};

const ALL: u64 = 0xffff_ffff_ffff_ffff;

// How many blocks there are.
const BLOCKS: u64 = 64;

// Places counted: plane t has the assignments under which at least t of them hold.
#[derive(Clone, Copy)]
pub struct Counted {
    pub planes: [u64; 17],
}

// No place counted.
fn no_places() -> Counted
    ensures { Planes result.planes (λ j. 0) }
{
    let mut planes = [0; 17];
    planes[0] = ALL;
    Counted { planes }
}

// One more place counted.
fn one_more(c: Counted, x: u64) -> Counted
    requires { length c.planes ≡ 17 }
    ensures { OneMore c.planes x result.planes }
{
    let planes = c.planes;
    let mut next = planes;
    for t in 1..17 {
        next[t] = planes[t] | (planes[t - 1] & x);
    }
    Counted { planes: next }
}

// The word of a variable.
fn word_for(t: Vars, words: [u64; 12], x: Var) -> u64
    requires { Roomy t }
    ensures { result ≡ word_for (row_of t) words x }
{
    for i in 0..t.len {
        let y = t.list[i];
        if x == y {
            return words[i];
        }
    }
    0
}

// The variables of a record counted.
fn count_own(c: Counted, own: Own, t: Vars, words: [u64; 12]) -> Counted
    requires { (length c.planes ≡ 17) × (Roomy t × ((own.n ≤ 16) × (length own.list ≡ 16))) }
    ensures planes_len { length result.planes ≡ 17 }
    ensures by_index { (count : ℕ → ℕ) → Planes c.planes count
        → Planes result.planes (λ j. count_true (own_bits (row_of t) words j (take own.n own.list)) + count j) }
{
    let list = own.list;
    let n = own.n;
    let mut all = c;
    for i in 0..n {
        let word = word_for(t, words, list[i]);
        all = one_more(all, word);
    }
    all
}

// The word of record i.
fn word_at(work: &[u64], i: usize) -> u64
    requires { i < length work.now }
    ensures { result ≡ get_or work.now i 0 }
{
    work[i]
}

// The children of a record counted.
fn count_children(c: Counted, work: &[u64], numbers: [u16; 16], n: usize) -> Counted
    requires { (length c.planes ≡ 17) × ((n ≤ 16) × ((i : ℕ) → i < n → get_or numbers i 0 < length work.now)) }
    ensures planes_len { length result.planes ≡ 17 }
    ensures by_index { (count : ℕ → ℕ) → Planes c.planes count
        → Planes result.planes (λ j. count_true (bits_at work.now j (take n numbers)) + count j) }
{
    let mut all = c;
    for i in 0..n {
        let number = numbers[i] as usize;
        let word = word_at(work, number);
        all = one_more(all, word);
    }
    all
}

// How many places of a tree's record must hold.
#[tactic(auto, unfolding(trees::specs::Tree::find))]
fn tree_gate(kind: u16, k: u16) -> usize
    ensures { result ≡ tree_gate kind k }
{
    // A kind stays a number: a record or a node holds one, and the contract answers on every number.
    match kind {
        33 => 0,
        49 | 50 | 55 => 2,
        56..=58 => usize::from(k),
        _ => 1,
    }
}

// How many places of a policy's record must hold.
#[tactic(auto, unfolding(trees::specs::Tree::find))]
fn policy_gate(kind: u64, k: u64) -> usize
    ensures { result ≡ policy_gate kind k }
{
    // A kind stays a number: a record or a node holds one, and the contract answers on every number.
    match kind {
        2 => 0,
        10 => 2,
        12 => k as usize,
        _ => 1,
    }
}

// The third child of an AndOr counted again.
fn count_again(c: Counted, work: &[u64], numbers: [u16; 16], kind: u16) -> Counted
    requires { (length c.planes ≡ 17) × (kind ≡ 55 → get_or numbers 2 0 < length work.now) }
    ensures { (count : ℕ → ℕ) → Planes c.planes count
        → Planes result.planes (λ j. cond (eqb kind 55) (one (bit_at (get_or work.now (get_or numbers 2 0) 0) j)) 0 + count j) }
{
    if kind == 55 {
        let number = numbers[2] as usize;
        let word = word_at(work, number);
        return one_more(c, word);
    }
    c
}

// The word of a record, where work memory has those of the records before it.
fn record_word(bytes: &[u8], work: &[u64], t: Vars, words: [u64; 12]) -> u64
    requires { Stands bytes.now work.now × Roomy t }
    ensures { RecordWord bytes.now work.now (row_of t) words result }
{
    let parts = records::fragment_parts(bytes);
    let kind = records::kind_of(bytes);
    let n = records::arity(kind, parts.count);
    let numbers = parts.children;
    let own = variables::own_of(bytes);
    let first = count_own(no_places(), own, t, words);
    let second = count_children(first, work, numbers, n);
    let counted = count_again(second, work, numbers, kind);
    let gate = tree_gate(kind, parts.k);
    counted.planes[gate]
}

// The word of a tree: its records, children first.
pub fn tree_word(tree: &[u8], work: &mut [u64], t: Vars, words: [u64; 12]) -> u64
    requires { Written tree.now × ((length work.old ≡ 65536) × Roomy t) }
    ensures j_value { (f : Fragment) → TreeRecords tree.now f → (j : ℕ) → j < 64 → bit_at result j ≡ tree_means (assigned (row_of t) words j) f }
    ensures work_len_unchanged { length work.new ≡ length work.old }
{
    // Records are of unequal length.
    let mut at = 0;
    let mut i = 0;
    while at < tree.len() {
        let end = walk::record_end(tree, at);
        work[i] = record_word(&tree[at..end], work, t, words);
        at = end;
        i += 1;
    }
    work[i - 1]
}

// Whether a policy of this kind is a key, a lock or a hash.
fn is_leaf(kind: u64) -> bool
    ensures { result ≡ between 3 9 kind }
{
    matches!(kind, 3..=9)
}

// The word of record i of a policy.
pub fn policy_word(pol: &[u64], i: usize, t: Vars, words: [u64; 12]) -> u64
    requires { Good pol.now × ((i < max_records) × Roomy t) }
    ensures { (j : ℕ) → j < 64 → bit_at result j ≡ policy_means (assigned (row_of t) words j) (policy_at pol.now i) }
{
    let head = policies::head_of(pol, i);
    let kind = head.kind;
    if is_leaf(kind) {
        let x = Var {
            class: kind - 3,
            number: head.number,
        };
        return word_for(t, words, x);
    }
    let n = head.count;
    let mut all = no_places();
    for j in 0..n {
        let c = policies::child(pol, i, j);
        let x = policy_word(pol, c, t, words);
        all = one_more(all, x);
    }
    let gate = policy_gate(kind, head.k);
    all.planes[gate]
}

// All bits where a number is odd, else none.
fn full(b: u64) -> u64
    ensures { result ≡ full_if (eqb (b % 2) 1) }
{
    if b % 2 == 1 { ALL } else { 0 }
}

// The words of the variables in a block.
pub fn block_words(block: u64) -> [u64; 12]
    ensures { result ≡ block_words block }
{
    [
        0xaaaa_aaaa_aaaa_aaaa,
        0xcccc_cccc_cccc_cccc,
        0xf0f0_f0f0_f0f0_f0f0,
        0xff00_ff00_ff00_ff00,
        0xffff_0000_ffff_0000,
        0xffff_ffff_0000_0000,
        full(block),
        full(block / 2),
        full(block / 4),
        full(block / 8),
        full(block / 16),
        full(block / 32),
    ]
}

// Whether tree and policy agree in a block.
fn block_alike(pol: &[u64], root: usize, tree: &[u8], work: &mut [u64], t: Vars, block: u64) -> bool
    requires { (Good pol.now × (root < max_records)) × (Written tree.now × ((length work.old ≡ 65536) × Roomy t)) }
    ensures block_says { BlockSays pol.now root tree.now (row_of t) (block_words block) result }
    ensures work_len_unchanged { length work.new ≡ length work.old }
{
    let words = block_words(block);
    let left = policy_word(pol, root, t, words);
    let right = tree_word(tree, work, t, words);
    left == right
}

// Whether a tree means what a policy means, where the row has the variables of both.
pub fn alike(pol: &[u64], root: usize, tree: &[u8], work: &mut [u64], t: Vars) -> bool
    requires { (Good pol.now × (root < max_records)) × (Written tree.now × ((length work.old ≡ 65536) × Roomy t)) }
    ensures says { (f : Fragment) → TreeRecords tree.now f → Found t (policy_at pol.now root) f
        → Says result (policy_at pol.now root) f }
    ensures work_len_unchanged { length work.new ≡ length work.old }
{
    for block in 0..BLOCKS {
        if !block_alike(pol, root, tree, work, t, block) {
            return false;
        }
    }
    true
}
