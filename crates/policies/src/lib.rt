// Policies: a policy's records are read into an array of numbers that the search borrows, and what the search asks of a policy is
// read from that array: the head and the children of what a number stands for, what a Thresh folds to, the depth and the weighted size.
//
// Its contracts cite `specs/Reading.antt` (when bytes are a policy, and which refusal they get) and `specs/Array.antt` (the policies that
// the array's numbers stand for), and say them as answers by `specs/Heads.antt` and `specs/Answers.antt`. `specs/Policy.antt` has the
// policies themselves. The laws that crates above cite stand in `proofs/Weights.antt`, `proofs/Forms.antt`, `proofs/Views.antt` and
// `proofs/Heaviest.antt`.
#![tactic(auto)]

ghost use Rattle.std.specs.Prelude.{◌≡◌, List, ◌<◌, ◌≤◌, ◌&&◌, ◌||◌, eqb, length, drop};
ghost use Rattle.policies.specs.Policy.{Policy, depth, weight};
ghost use Rattle.policies.specs.Forms.{made, or_kind};
ghost use Rattle.policies.specs.Array.{max_children, row_words, array_words, arity, word_at, policy_at, slots_at, Rows, Good};
ghost use Rattle.policies.specs.Array.{row_child, child_number, fold_number, put_head, put_children};
ghost use Rattle.policies.specs.Answers.{Took, put_row, Stepped, AllRead, Rooted, Read, PolicyRead};
ghost use Rattle.policies.specs.Reading.{max_records, max_weight, read_whole, read_record, read_policy, finish};
ghost use Rattle.policies.specs.Heads.{head_of, leaf_head, pair_head};

use records::Parts;
use refusals::Refusal;

// The most records that a policy has, the most children that a record has, and the greatest depth.
const MAX_RECORDS: usize = 64;

const MAX_CHILDREN: usize = 16;

const MAX_DEPTH: usize = 16;

// The words of the array and of a row, and the places of a row's first child and of its mark.
const ARRAY_WORDS: usize = 2560;

const ROW_WORDS: usize = 40;

const FIRST_CHILD: usize = 6;

const TAKEN: usize = 22;

// The kinds And, Or and Thresh.
const AND: u64 = 10;

const OR: u16 = 11;

const THRESH: u64 = 12;

// What a policy is besides its children: 0 where it has no such part. `count` is the number of its children.
#[derive(Clone, Copy)]
pub struct Head {
    pub kind: u64,
    pub number: u64,
    pub k: u64,
    pub count: usize,
    pub left_weight: u64,
    pub right_weight: u64,
}

// The head of a policy with no children.
fn leaf(kind: u64, number: u64) -> Head
    ensures { result ≡ leaf_head kind number }
{
    Head {
        kind,
        number,
        k: 0,
        count: 0,
        left_weight: 0,
        right_weight: 0,
    }
}

// The head of a policy with two children.
fn pair(kind: u64, left_weight: u64, right_weight: u64) -> Head
    ensures { result ≡ pair_head kind left_weight right_weight }
{
    Head {
        kind,
        number: 0,
        k: 0,
        count: 2,
        left_weight,
        right_weight,
    }
}

// The head of the policy that a row's words make.
fn head_from(kind: u64, number: u64, k: u64, n: u64, left_weight: u64, right_weight: u64) -> Head
    ensures { (cs : List Policy) → length cs ≡ arity kind n → result ≡ head_of (made kind number k left_weight right_weight cs) }
{
    // A kind stays a number: a record or a node holds one, and the contract answers on every number.
    match kind {
        2..=2 => leaf(2, 0),
        3..=9 => leaf(kind, number),
        10..=10 => pair(AND, 0, 0),
        11..=11 => pair(11, left_weight, right_weight),
        12..=12 => Head {
            kind: 12,
            number: 0,
            k,
            count: n as usize,
            left_weight: 0,
            right_weight: 0,
        },
        _ => leaf(1, 0),
    }
}

// Word f of row i, and 0 where the array ends before it.
fn word(pol: &[u64], i: usize, f: usize) -> u64
    requires { (i < max_records) × (f < row_words) }
    ensures { result ≡ word_at pol.now i f }
{
    let at = ROW_WORDS * i + f;
    if at < pol.len() {
        return pol[at];
    }
    0
}

// The head of the policy that number r stands for.
pub fn head_of(pol: &[u64], r: usize) -> Head
    ensures { result ≡ head_of (policy_at pol.now r) }
{
    if MAX_RECORDS <= r {
        return pair(AND, 0, 0);
    }
    let kind = word(pol, r, 0);
    let number = word(pol, r, 1);
    let k = word(pol, r, 2);
    let n = word(pol, r, 3);
    let left_weight = word(pol, r, 4);
    let right_weight = word(pol, r, 5);
    head_from(kind, number, k, n, left_weight, right_weight)
}

// The number of child j of row i, and 0 where there is none.
fn row_child(pol: &[u64], i: usize, j: usize) -> usize
    ensures { result ≡ row_child pol.now i j }
{
    if i < MAX_RECORDS {
        if j < MAX_CHILDREN {
            return word(pol, i, FIRST_CHILD + j) as usize;
        }
    }
    0
}

// The number of child j of what number r stands for.
pub fn child(pol: &[u64], r: usize, j: usize) -> usize
    ensures { result ≡ child_number pol.now r j }
{
    if r < MAX_RECORDS {
        return row_child(pol, r, j);
    }
    let i = (r - MAX_RECORDS) / MAX_CHILDREN;
    let place = (r - MAX_RECORDS) % MAX_CHILDREN;
    if j == 1 {
        return row_child(pol, i, place + 1);
    }
    if place == 0 {
        return row_child(pol, i, 0);
    }
    r - 1
}

// The number of what the n children of record i fold to.
pub fn folded_of(pol: &[u64], i: usize, n: usize) -> usize
    requires { (i < max_records) × (n ≤ max_children) }
    ensures { result ≡ fold_number pol.now i n }
{
    if n < 2 {
        return row_child(pol, i, 0);
    }
    MAX_RECORDS + MAX_CHILDREN * i + (n - 2)
}

// The depth of record i.
pub fn depth(pol: &[u64], i: usize) -> usize
    requires { Good pol.now × (i < max_records) }
    ensures { result ≡ depth (policy_at pol.now i) }
{
    let n = head_of(pol, i).count;
    let mut deepest = 0usize;
    for j in 0..n {
        let c = child(pol, i, j);
        deepest = deepest.max(depth(pol, c));
    }
    deepest + 1
}

// The weighted size of record i: 1, what its children weigh, and for a Thresh 2 more for each child.
pub fn weight(pol: &[u64], i: usize) -> u64
    requires { Good pol.now × ((i < max_records) × (weight (policy_at pol.now i) ≤ max_weight)) }
    ensures { result ≡ weight (policy_at pol.now i) }
{
    let head = head_of(pol, i);
    let kind = head.kind;
    let n = head.count;
    let mut sum = 1;
    for j in 0..n {
        let c = child(pol, i, j);
        sum += weight(pol, c);
    }
    if kind == THRESH {
        return sum + 2 * n as u64;
    }
    sum
}

// Writes the head of row i, which no record has taken.
fn put_head(
    pol: &mut [u64],
    i: usize,
    kind: u64,
    number: u64,
    k: u64,
    n: u64,
    left_weight: u64,
    right_weight: u64,
)
    requires { (length pol.old ≡ array_words) × (i < max_records) }
    ensures { pol.new ≡ put_head pol.old i kind number k n left_weight right_weight }
{
    let at = ROW_WORDS * i;
    pol[at] = kind;
    pol[at + 1] = number;
    pol[at + 2] = k;
    pol[at + 3] = n;
    pol[at + 4] = left_weight;
    pol[at + 5] = right_weight;
    pol[at + TAKEN] = 0;
}

// Writes the children of row i.
fn put_children(pol: &mut [u64], i: usize, children: [u16; 16])
    requires { (length pol.old ≡ array_words) × (i < max_records) }
    ensures { pol.new ≡ put_children pol.old i children }
{
    let at = ROW_WORDS * i + FIRST_CHILD;
    for (j, child) in children.iter().enumerate() {
        pol[at + j] = *child as u64;
    }
}

// Takes the n children of row i, from left to right, and says whether each was there.
fn take_children(pol: &mut [u64], i: usize, n: usize) -> bool
    requires { Rows pol.old × ((i < max_records) × (n ≤ max_children)) }
    ensures { Took i n pol.old pol.new result }
{
    for j in 0..n {
        let c = word(pol, i, FIRST_CHILD + j) as usize;
        if i <= c {
            return false;
        }
        if word(pol, c, TAKEN) != 0 {
            return false;
        }
        pol[ROW_WORDS * c + TAKEN] = 1;
    }
    true
}

// Writes row i: a record's kind and the parts of its payload.
fn put_row(pol: &mut [u64], i: usize, kind: u16, parts: Parts)
    requires { (length pol.old ≡ array_words) × (i < max_records) }
    ensures { pol.new ≡ put_row pol.old i kind parts }
{
    put_head(
        pol,
        i,
        kind as u64,
        parts.number,
        parts.k as u64,
        parts.count as u64,
        parts.left_weight as u64,
        parts.right_weight as u64,
    );
    put_children(pol, i, parts.children);
}

// Whether either weight of an Or is 0.
fn weighs_nothing(kind: u16, left_weight: u32, right_weight: u32) -> bool
    ensures { result ≡ (eqb kind or_kind && (eqb left_weight 0 || eqb right_weight 0)) }
{
    kind == OR && (left_weight == 0 || right_weight == 0)
}

// Reads one whole record, whose number is i.
fn read_whole(whole: &[u8], pol: &mut [u64], i: usize) -> Result<usize, Refusal>
    requires { Good pol.old × (i < max_records) }
    ensures { Stepped (read_whole (slots_at pol.old i) (length whole.now) whole.now) result pol.new i }
{
    let parts = records::policy_parts(whole);
    if !parts.fits {
        return Err(Refusal::BadPolicy);
    }
    let kind = records::kind_of(whole);
    put_row(pol, i, kind, parts);
    if !take_children(pol, i, parts.count) {
        return Err(Refusal::BadPolicy);
    }
    if weighs_nothing(kind, parts.left_weight, parts.right_weight) {
        return Err(Refusal::ZeroWeight);
    }
    Ok(whole.len())
}

// Reads the record that begins at `at`, whose number is i.
fn read_record(bytes: &[u8], at: usize, pol: &mut [u64], i: usize) -> Result<usize, Refusal>
    requires { Good pol.old × ((i < max_records) × (at ≤ length bytes.now)) }
    ensures { Stepped (read_record (slots_at pol.old i) (drop at bytes.now)) result pol.new i }
{
    let Some(len) = records::length_at(bytes, at) else {
        return Err(Refusal::BadPolicy);
    };
    read_whole(&bytes[at..at + len], pol, i)
}

// Reads all records, from the first on.
fn read_records(bytes: &[u8], pol: &mut [u64]) -> Result<usize, Refusal>
    requires { Good pol.old }
    ensures { AllRead (read_policy bytes.now) result pol.new }
{
    let mut at = 0;
    let mut i = 0;
    // A `while`, since records are of unequal length.
    while at < bytes.len() {
        if i == MAX_RECORDS {
            return Err(Refusal::PolicyTooLarge);
        }
        let len = read_record(bytes, at, pol, i)?;
        at += len;
        i += 1;
    }
    Ok(i)
}

// Whether the last of the rows is taken by no record, and every other by one.
fn one_root(pol: &[u64], last: usize) -> bool
    requires { last < max_records }
    ensures { Rooted pol.now last result }
{
    for i in 0..last {
        if word(pol, i, TAKEN) == 0 {
            return false;
        }
    }
    word(pol, last, TAKEN) == 0
}

// The policy of so many records, its depth being the last thing to check.
fn finish(pol: &[u64], count: usize) -> Result<usize, Refusal>
    requires { Good pol.now × (count ≤ max_records) }
    ensures { Read (finish (slots_at pol.now count)) result pol.now }
{
    if count == 0 {
        return Err(Refusal::BadPolicy);
    }
    let last = count - 1;
    if !one_root(pol, last) {
        return Err(Refusal::BadPolicy);
    }
    if MAX_DEPTH < depth(pol, last) {
        return Err(Refusal::PolicyTooLarge);
    }
    Ok(last)
}

// Reads a policy into the array that is lent.
pub fn read_policy(bytes: &[u8], pol: &mut [u64]) -> Result<usize, Refusal>
    ensures { PolicyRead bytes.now pol.old result pol.new }
{
    if pol.len() != ARRAY_WORDS {
        return Err(Refusal::BadWork);
    }
    words::clear(pol);
    let count = read_records(bytes, pol)?;
    finish(pol, count)
}
