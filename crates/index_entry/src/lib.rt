// Where each fragment of a tree stands in its script, for a viewer: the entries that build the index of a tree and that look a byte up, which
// claspwillow_c exports to C. They ask nothing of their caller.
//
// The entries' promises stand in specs/Index.antt, over the places of the crate `index_places`; proofs/Determined.antt shows that they determine the
// outcome. The inner contracts cite specs/Memory.antt and specs/Building.antt, over
// the index in work memory of the crate `index_memory`; leaves and the pieces around children have the sizes of the crate `index_sizes`.
#![tactic(auto)]

ghost use Rattle.std.specs.Prelude.{map, ◌≡◌, ℕ, ◌+◌, ◌-◌, ◌*◌, ◌≤◌, ◌<◌, length, get_or, set, take};
ghost use Rattle.contexts.specs.declared.Context.{Context};
ghost use Rattle.index_places.specs.Places.{ahead};
ghost use Rattle.index_memory.specs.Memory.{work_words, size_in, subtree_in};
ghost use Rattle.index_entry.specs.Index.{IndexPromise, FindPromise};
ghost use Rattle.index_entry.specs.Memory.{Readable, size_from, fill_one};
ghost use Rattle.trees.specs.Height.{max_height};
ghost use Rattle.index_entry.specs.Building.{Children, Ruled, Fill, Scanned, Filling, Gives, Gave, Rooted, Giving, Checked, Passing, Built, Outcome, Answered};
ghost use Rattle.index_entry.specs.Looking.{FindOutcome, FindAnswered};

use contexts::Context;
use refusals::Refusal;
use trees::Subtree;
use types::Type;

// The one length of work memory: four words a record, in four parts. The first has where the records begin; the tree check takes it before.
const WORK_WORDS: usize = 16384;

// The bytes of a record ahead of its child number n in the script, from the sizes of its children.
fn ahead(work: &[u64], kind: u16, children: [u16; 16], verified: bool, n: usize) -> u64
    requires { Children work.now kind children n }
    ensures { (result ≡ ahead kind verified (λ w m. size_in work.now w (get_or children m 0)) n) × (result ≤ 3 + n * 4294967297) }
{
    let mut at = index_sizes::front_size(kind);
    for j in 0..n {
        let child = children[script_entry::place(kind, j)] as usize;
        let size = index_memory::size_at(
            work,
            child,
            script_entry::child_verified(kind, j, verified),
        );
        at += size + index_sizes::after_size(kind, j);
    }
    at
}

// The size of a record, where work memory has those of the records before it.
fn record_size(context: Context, bytes: &[u8], work: &[u64], verified: bool) -> u64
    requires { Readable bytes.now work.now }
    ensures { result ≡ size_from context bytes.now work.now verified }
{
    let node = walk::node_of(bytes);
    let n = node.n;
    if n == 0 {
        return index_sizes::leaf_size(context, bytes, verified);
    }
    let kind = node.kind;
    let children = node.children;
    ahead(work, kind, children, verified, n) + index_sizes::last_size(kind, node.k, verified)
}

// Those of the first n of some records.
fn load(work: &[u64], numbers: [u16; 16], n: usize) -> [Subtree; 16]
    requires { (length work.now ≡ work_words) × (n ≤ 16) × ((j : ℕ) → j < n → get_or numbers j 0 < 4096) }
    ensures { take n result ≡ map (subtree_in work.now) (take n numbers) }
{
    let none = Subtree {
        ty: Type::of_false(),
        height: 0,
    };
    let mut out = [none; 16];
    for j in 0..n {
        out[j] = index_memory::subtree_at(work, numbers[j] as usize);
    }
    out
}

// The type and the height of a record, where work memory has those of the records before it.
fn record_subtree(context: Context, bytes: &[u8], work: &[u64]) -> Subtree
    requires { Readable bytes.now work.now }
    ensures ruled { Ruled context bytes.now work.now result }
    ensures height_le_max_height { result.height ≤ max_height }
{
    let parts = records::fragment_parts(bytes);
    let kind = records::kind_of(bytes);
    let count = parts.count;
    let n = records::arity(kind, count);
    let numbers = parts.children;
    let children = load(work, numbers, n);
    let k = parts.k as usize;
    let none = Subtree {
        ty: Type::of_false(),
        height: 0,
    };
    let Ok(ty) = trees::rule_of(context, kind, k, count, trees::types_of(children)) else {
        return none;
    };
    let below = trees::tallest(children, n);
    if below >= trees::MAX_HEIGHT {
        return none;
    }
    Subtree {
        ty,
        height: below + 1,
    }
}

// Stores the sizes, the type and the height of record i.
fn fill_record(context: Context, tree: &[u8], work: &mut [u64], i: usize)
    requires { Fill context tree.now work.old i }
    ensures { work.new ≡ fill_one context tree.now work.old i }
{
    let start = work[i] as usize;
    let end = walk::record_end(tree, start);
    let alone = record_size(context, &tree[start..end], work, false);
    let before = record_size(context, &tree[start..end], work, true);
    let x = record_subtree(context, &tree[start..end], work);
    let ty = x.ty;
    work[index_memory::SIZES + i] = alone + before * 4294967296;
    work[index_memory::TYPES + i] = (ty.pack() as u64) + 1 + x.height * 1024;
}

// Stores those of every record, children first.
fn fill(context: Context, tree: &[u8], work: &mut [u64], count: usize)
    requires { Scanned context tree.now work.old count }
    ensures { Filling context tree.now work.old work.new count }
{
    for i in 0..count {
        fill_record(context, tree, work, i);
    }
}

// Stores where the children of record i stand.
fn give_places(tree: &[u8], work: &mut [u64], i: usize)
    requires { Gives tree.now work.old i }
    ensures { Gave tree.now work.old work.new i }
{
    let node = walk::node_at(tree, work, i);
    let at = index_memory::first_at(work, i);
    let kind = node.kind;
    let n = node.n;
    let children = node.children;
    for j in 0..n {
        let child = children[script_entry::place(kind, j)] as usize;
        let before = ahead(work, kind, children, false, j);
        work[index_memory::PLACES + child] = at + before;
    }
}

// Stores that the root begins the script.
fn give_root(work: &mut [u64], root: usize)
    requires { (length work.old ≡ work_words) × (root < 4096) }
    ensures { work.new ≡ set work.old (8192 + root) 0 }
{
    work[index_memory::PLACES + root] = 0;
}

// Stores where every other record stands, parents first.
fn give_all(tree: &[u8], work: &mut [u64], count: usize)
    requires { Rooted tree.now work.old count }
    ensures { Giving tree.now work.old work.new count 0 }
{
    for i in (0..count).rev() {
        give_places(tree, work, i);
    }
}

// Builds the entry of every record of a tree that the check passed, and counts the records.
fn build(context: Context, tree: &[u8], work: &mut [u64]) -> usize
    requires { Checked context tree.now × (length work.old ≡ work_words) }
    ensures { Built context tree.now work.new result }
{
    let count = walk::scan(tree, work);
    fill(context, tree, work, count);
    give_root(work, count - 1);
    give_all(tree, work, count);
    count
}

// The context that has the number, where the tree passes the check in it.
fn checked(context: u32, tree: &[u8], work: &mut [u64]) -> Result<Context, Refusal>
    ensures passing { Passing context tree.now work.old result }
    ensures work_len_unchanged { length work.new ≡ length work.old }
{
    if 2 <= context {
        return Err(Refusal::BadContext);
    }
    if work.len() != WORK_WORDS {
        return Err(Refusal::BadWork);
    }
    trees::check(context, tree, &mut work[0..index_memory::SIZES])?;
    Ok(claspwillow::context_of(context))
}

// The index of a tree that the check passed.
fn index_in(
    context: Context,
    tree: &[u8],
    out: &mut [u8],
    work: &mut [u64],
) -> Result<usize, Refusal>
    requires { Checked context tree.now × (length work.old ≡ work_words) }
    ensures outcome { Outcome context tree.now out.old out.new result }
    ensures work_len_unchanged { length work.new ≡ length work.old }
{
    let count = build(context, tree, work);
    let bytes = 16 * count;
    if out.len() < bytes {
        return Err(Refusal::OutputTooSmall);
    }
    index_memory::write_index(out, work, count);
    Ok(bytes)
}

// The index of a tree.
fn index(context: u32, tree: &[u8], out: &mut [u8], work: &mut [u64]) -> Result<usize, Refusal>
    ensures answered { Answered context tree.now out.old work.old out.new result }
    ensures work_len_unchanged { length work.new ≡ length work.old }
{
    let c = checked(context, tree, work)?;
    index_in(c, tree, out, work)
}

// The index of a tree: the number of document 02, the index in `out`, 16 bytes for each record, and in `bytes` how many it has, 0 on a refusal. Work memory
// is zero afterwards.
pub fn claspwillow_index(
    context: u32,
    tree: &[u8],
    out: &mut [u8],
    work: &mut [u64],
    bytes: &mut u64,
) -> u32
    ensures { IndexPromise context tree.now out.old work.old result
        out.new bytes.new work.new }
{
    let r = index(context, tree, out, work);
    words::clear(work);
    match r {
        Ok(n) => {
            *bytes = n as u64;
            0
        }
        Err(e) => {
            *bytes = 0;
            e.number()
        }
    }
}

// The one length of work memory that the entry takes, in words.
pub fn claspwillow_index_work() -> usize
    ensures { result ≡ work_words }
{
    WORK_WORDS
}

// Looks byte `at` of the script up, where the tree passed the check.
fn find_in(
    context: Context,
    tree: &[u8],
    index: &[u8],
    at: u64,
    work: &mut [u64],
) -> Result<Option<u32>, Refusal>
    requires { Checked context tree.now × (length work.old ≡ work_words) }
    ensures find_outcome { FindOutcome context tree.now index.now at result }
    ensures work_len_unchanged { length work.new ≡ length work.old }
{
    let count = build(context, tree, work);
    let same = index_memory::same_index(index, work, count);
    if !same {
        return Err(Refusal::NotItsIndex);
    }
    Ok(index_memory::first_holding(work, count, at))
}

// Looks byte `at` of the script up.
fn find(
    context: u32,
    tree: &[u8],
    index: &[u8],
    at: u64,
    work: &mut [u64],
) -> Result<Option<u32>, Refusal>
    ensures find_answered { FindAnswered context tree.now index.now at work.old result }
    ensures work_len_unchanged { length work.new ≡ length work.old }
{
    let c = checked(context, tree, work)?;
    find_in(c, tree, index, at, work)
}

// Looks byte `at` of the script up in the index of a tree: the number of document 02, in `found` whether the script has that byte, and in `it` the
// innermost fragment that holds it, by its record; zeros where there is none and on a refusal. Work memory is zero afterwards.
pub fn claspwillow_find(
    context: u32,
    tree: &[u8],
    index: &[u8],
    at: u64,
    work: &mut [u64],
    found: &mut u32,
    it: &mut u32,
) -> u32
    ensures { FindPromise context tree.now index.now at work.old result
        found.new it.new work.new }
{
    let r = find(context, tree, index, at, work);
    words::clear(work);
    *found = 0;
    *it = 0;
    match r {
        Ok(Some(i)) => {
            *found = 1;
            *it = i;
            0
        }
        Ok(None) => 0,
        Err(e) => e.number(),
    }
}

// The one length of work memory that the entry takes, in words.
pub fn claspwillow_find_work() -> usize
    ensures { result ≡ work_words }
{
    WORK_WORDS
}
