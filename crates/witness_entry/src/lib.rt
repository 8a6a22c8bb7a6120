// What a spend of a fragment tree costs, in whole bytes: the entry, which claspwillow_c exports to C. It asks nothing of its caller.
//
// The entry's promise stands in specs/Witness.antt, and proofs/Determined.antt shows that it determines the outcome. The inner contracts cite
// specs/Memory.antt (extremes in work memory) and specs/Records.antt (those of a record from those of its children).
#![tactic(auto)]

ghost use Rattle.std.specs.Prelude.{◌≡◌, ℕ, ◌+◌, ◌*◌, ◌≤◌, ◌<◌, length, get_or};
ghost use Rattle.contexts.specs.declared.Context.{Context};
ghost use Rattle.trees.specs.Fragment.{Fragment};
ghost use Rattle.walk.specs.TreeRecords.{TreeRecords, Written};
ghost use Rattle.witness_ways.specs.Extremes.{sat, extremes};
ghost use Rattle.witness_rules.specs.Bounds.{Below, BothBelow, small};
ghost use Rattle.witness_entry.specs.Witness.{work_words, WitnessPromise};
ghost use Rattle.witness_entry.specs.Memory.{word_of, extremes_in, both_in, put_both, Loaded};
ghost use Rattle.witness_entry.specs.Records.{ways_in, Stands, Filled, Answered};

use contexts::Context;
use refusals::Refusal;
use witness_ways::{Both, Bytes};

// The one length of work memory: two words a record. The tree check takes the first half of it.
const WORK_WORDS: usize = 8192;

const HALF: usize = 4096;

// Extremes as a word.
fn word_of(e: Option<Bytes>) -> u64
    requires { Below 2147483648 e }
    ensures { result ≡ word_of e }
{
    match e {
        Some(x) => 1 + (x.fewest + x.most * 4294967296),
        None => 0,
    }
}

// The extremes that a word holds; neither is over 2^32.
fn extremes_in(word: u64) -> Option<Bytes>
    ensures value { result ≡ extremes_in word }
    ensures below { Below small result }
{
    if word == 0 {
        return None;
    }
    let rest = word - 1;
    Some(Bytes {
        fewest: rest % 4294967296,
        most: rest / 4294967296,
    })
}

// The extremes of record i.
fn both_at(work: &[u64], i: usize) -> Both
    requires { 2 * i + 1 < length work.now }
    ensures value { result ≡ both_in work.now i }
    ensures both_below { BothBelow small result }
{
    Both {
        satisfied: extremes_in(work[2 * i]),
        dissatisfied: extremes_in(work[2 * i + 1]),
    }
}

// Stores those of record i.
fn put_both(work: &mut [u64], i: usize, x: Both)
    requires { (2 * i + 1 < length work.old) × BothBelow 2147483648 x }
    ensures { work.new ≡ put_both work.old i x }
{
    work[2 * i] = word_of(x.satisfied);
    work[2 * i + 1] = word_of(x.dissatisfied);
}

// The extremes of the first n of some records.
fn load(work: &[u64], numbers: [u16; 16], n: usize) -> [Both; 16]
    requires { (n ≤ 16) × ((j : ℕ) → j < n → 2 * get_or numbers j 0 + 1 < length work.now) }
    ensures { Loaded work.now numbers n result }
{
    let none = Both {
        satisfied: None,
        dissatisfied: None,
    };
    let mut out = [none; 16];
    for j in 0..n {
        out[j] = both_at(work, numbers[j] as usize);
    }
    out
}

// The extremes of a record, where work memory has those of the records before it.
fn ways_in(context: Context, bytes: &[u8], work: &[u64]) -> Both
    requires { Stands bytes.now work.now }
    ensures { result ≡ ways_in context bytes.now work.now }
{
    let parts = records::fragment_parts(bytes);
    let kind = records::kind_of(bytes);
    let n = records::arity(kind, parts.count);
    let children = load(work, parts.children, n);
    witness_rules::ways_of(context, kind, parts.k, parts.count, children)
}

// Stores the extremes of every record of a tree, children first, and counts the records.
fn fill(context: Context, tree: &[u8], work: &mut [u64]) -> usize
    requires { Written tree.now × (length work.old ≡ work_words) }
    ensures filled { Filled context tree.now work.new result }
    ensures work_len_unchanged { length work.new ≡ length work.old }
{
    let mut at = 0;
    let mut count = 0;
    // Records have unequal lengths.
    while at < tree.len() {
        let end = walk::record_end(tree, at);
        let ways = ways_in(context, &tree[at..end], work);
        put_both(work, count, ways);
        at = end;
        count += 1;
    }
    count
}

// The extremes of the ways to satisfy a tree that the check passed.
fn root_extremes(context: Context, tree: &[u8], work: &mut [u64]) -> Option<Bytes>
    requires { Written tree.now × (length work.old ≡ work_words) }
    ensures value { (f : Fragment) → TreeRecords tree.now f → result ≡ sat (extremes context f) }
    ensures work_len_unchanged { length work.new ≡ length work.old }
{
    let count = fill(context, tree, work);
    both_at(work, count - 1).satisfied
}

// What a spend of a tree costs, where there is a way to satisfy it.
fn witness(context: u32, tree: &[u8], work: &mut [u64]) -> Result<Option<Bytes>, Refusal>
    ensures answered { Answered context tree.now work.old result }
    ensures work_len_unchanged { length work.new ≡ length work.old }
{
    if 2 <= context {
        return Err(Refusal::BadContext);
    }
    if work.len() != WORK_WORDS {
        return Err(Refusal::BadWork);
    }
    trees::check(context, tree, &mut work[0..HALF])?;
    Ok(root_extremes(claspwillow::context_of(context), tree, work))
}

// What a spend of a tree costs: the number of document 02, in `found` whether there is a way to satisfy the tree, and in `smallest` and
// `largest` the fewest and the most bytes of a witness that does; zeros on a refusal. Work memory is zero afterwards.
pub fn claspwillow_witness(
    context: u32,
    tree: &[u8],
    work: &mut [u64],
    found: &mut u32,
    smallest: &mut u64,
    largest: &mut u64,
) -> u32
    ensures { WitnessPromise context tree.now work.old result
        found.new smallest.new largest.new work.new }
{
    let r = witness(context, tree, work);
    words::clear(work);
    *found = 0;
    *smallest = 0;
    *largest = 0;
    match r {
        Ok(Some(x)) => {
            *found = 1;
            *smallest = x.fewest;
            *largest = x.most;
            0
        }
        Ok(None) => 0,
        Err(e) => e.number(),
    }
}

// The one length of work memory that the entry takes, in words.
pub fn claspwillow_witness_work() -> usize
    ensures { result ≡ work_words }
{
    WORK_WORDS
}
