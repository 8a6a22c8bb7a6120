// The script of a fragment tree in bytes, and the entry that gives it, which claspwillow_c exports to C. It asks nothing of its caller.
//
// The entry's promise stands in `script_bytes`, specs/ScriptOf.antt; proofs/Determined.antt there shows that it determines the outcome. The
// inner contracts cite specs/Pieces.antt (a fragment's bytes, piece by piece) and specs/Outcomes.antt; the crate
// `walk` has the records.
#![tactic(auto)]

ghost use Rattle.std.specs.Prelude.{◌≡◌, true, ◌-◌, ◌≤◌, length};
ghost use Rattle.trees.specs.Fragment.{Fragment};
ghost use Rattle.trees.specs.Reading.{max_records};
ghost use Rattle.records.specs.Payloads.{keys_in};
ghost use Rattle.walk.specs.TreeRecords.{TreeRecords, Written, record_at, fragment_at};
ghost use Rattle.walk.specs.Nodes.{Placed, AllPlaced};
ghost use Rattle.script_bytes.specs.Tables.{tables, key_size, whole};
ghost use Rattle.script_bytes.specs.ScriptOf.{has_keys, has_entries, fitting, script_in, ScriptPromise};
ghost use Rattle.script_bytes.specs.Encoding.{script_bytes};
ghost use Rattle.script_bytes.specs.Layout.{bytes_of};
ghost use Rattle.script_bytes.specs.Entries.{entries_below};
ghost use Rattle.script_leaves.specs.Laying.{Lays, only_keys};
ghost use Rattle.script_leaves.specs.Lent.{lent};
ghost use Rattle.script_leaves.specs.Leaves.{leaf_of};
ghost use Rattle.script_entry.specs.Pieces.{front, after, closing, last, child_verified, place};
ghost use Rattle.script_entry.specs.Outcomes.{Ready, Gives};

use contexts::Context;
use refusals::Refusal;
use script_leaves::Tables;

// Bitcoin's numbers of the opcodes that stand around children.
const IF: u8 = 0x63;

const NOTIF: u8 = 0x64;

const ELSE: u8 = 0x67;

const ENDIF: u8 = 0x68;

const TOALTSTACK: u8 = 0x6b;

const FROMALTSTACK: u8 = 0x6c;

const IFDUP: u8 = 0x73;

const DUP: u8 = 0x76;

const SWAP: u8 = 0x7c;

const SIZE: u8 = 0x82;

const EQUAL: u8 = 0x87;

const ZERO_NOT_EQUAL: u8 = 0x92;

const ADD: u8 = 0x93;

const BOOLAND: u8 = 0x9a;

const BOOLOR: u8 = 0x9b;

const CHECKSIG: u8 = 0xac;

// Lays what stands before the first child.
#[tactic(auto, unfolding(trees::specs::Tree::find))]
fn put_front(out: &mut [u8], at: usize, kind: u16) -> usize
    ensures { Lays out.old out.new at (front kind) result }
{
    // A kind stays a number: a record or a node holds one, and the contract answers on every number.
    match kind {
        42 => script_leaves::put(out, at, TOALTSTACK),
        43 => script_leaves::put(out, at, SWAP),
        45 => script_leaves::put_2(out, at, DUP, IF),
        47 => {
            let to = script_leaves::put_2(out, at, SIZE, ZERO_NOT_EQUAL);
            script_leaves::put(out, to, IF)
        }
        54 => script_leaves::put(out, at, IF),
        _ => at,
    }
}

// Lays what follows child number j.
#[tactic(auto, unfolding(trees::specs::Tree::find))]
fn put_after(out: &mut [u8], at: usize, kind: u16, j: usize) -> usize
    ensures { Lays out.old out.new at (after kind j) result }
{
    if j == 0 {
        return put_after_first(out, at, kind);
    }
    // A kind stays a number: a record or a node holds one, and the contract answers on every number.
    match kind {
        55 if j == 1 => script_leaves::put(out, at, ELSE),
        56 => script_leaves::put(out, at, ADD),
        _ => at,
    }
}

// Lays what follows the first child.
#[tactic(auto, unfolding(trees::specs::Tree::find))]
fn put_after_first(out: &mut [u8], at: usize, kind: u16) -> usize
    ensures { Lays out.old out.new at (after kind 0) result }
{
    // A kind stays a number: a record or a node holds one, and the contract answers on every number.
    match kind {
        52 => script_leaves::put_2(out, at, IFDUP, NOTIF),
        53 => script_leaves::put(out, at, NOTIF),
        54 => script_leaves::put(out, at, ELSE),
        55 => script_leaves::put(out, at, NOTIF),
        _ => at,
    }
}

// The opcode at the end of most fragments.
#[tactic(auto, unfolding(trees::specs::Tree::find))]
fn closing(kind: u16) -> u8
    ensures { result ≡ closing kind }
{
    // A kind stays a number: a record or a node holds one, and the contract answers on every number.
    match kind {
        42 => FROMALTSTACK,
        48 => ZERO_NOT_EQUAL,
        49 => BOOLAND,
        51 => BOOLOR,
        _ => ENDIF,
    }
}

// Lays what stands last.
#[tactic(auto, unfolding(trees::specs::Tree::find))]
fn put_last(out: &mut [u8], at: usize, kind: u16, k: u16, verified: bool) -> usize
    ensures { Lays out.old out.new at (last kind k verified) result }
{
    // A kind stays a number: a record or a node holds one, and the contract answers on every number.
    match kind {
        43 => at,
        44 => script_leaves::put_test(out, at, CHECKSIG, verified),
        46 => script_leaves::put_verify(out, at, verified),
        50 => at,
        56 => script_leaves::put_counted(out, at, k as u32, EQUAL, verified),
        _ => script_leaves::put_op(out, at, closing(kind), verified),
    }
}

// Whether a VERIFY follows child number j.
#[tactic(auto, unfolding(trees::specs::Tree::find))]
pub fn child_verified(kind: u16, j: usize, verified: bool) -> bool
    ensures { result ≡ child_verified kind j verified }
{
    // A kind stays a number: a record or a node holds one, and the contract answers on every number.
    match kind {
        43 => verified,
        46 => true,
        50 => j == 1 && verified,
        _ => false,
    }
}

// Which child comes as number j: an AndOr of x, y and z has z before y.
pub fn place(kind: u16, j: usize) -> usize
    ensures { result ≡ place kind j }
{
    // A kind stays a number: a record or a node holds one, and the contract answers on every number.
    match (kind, j) {
        (55, 1) => 2,
        (55, 2) => 1,
        _ => j,
    }
}

// Lays the leaf of record i.
fn lay_leaf_at(
    out: &mut [u8],
    at: usize,
    context: Context,
    tree: &[u8],
    tables: Tables<'_>,
    starts: &[u64],
    i: usize,
    verified: bool,
) -> usize
    requires { Placed tree.now starts.now i
        × (has_entries context (lent tables) (leaf_of (record_at tree.now i)) ≡ true) }
    ensures { Lays out.old out.new at
        (bytes_of context (lent tables.entry) verified (leaf_of (record_at tree.now i))) result }
{
    let start = starts[i] as usize;
    let end = walk::record_end(tree, start);
    script_leaves::lay_leaf(out, at, context, &tree[start..end], tables, verified)
}

// Lays the fragment of record i.
fn lay_record(
    out: &mut [u8],
    at: usize,
    context: Context,
    tree: &[u8],
    tables: Tables<'_>,
    starts: &[u64],
    i: usize,
    verified: bool,
) -> usize
    requires { Ready context (lent tables) tree.now starts.now i }
    ensures { Lays out.old out.new at (bytes_of context (lent tables.entry) verified (fragment_at tree.now i)) result }
{
    let node = walk::node_at(tree, starts, i);
    let kind = node.kind;
    let n = node.n;
    if n == 0 {
        return lay_leaf_at(out, at, context, tree, tables, starts, i, verified);
    }
    let children = node.children;
    let mut to = put_front(out, at, kind);
    for j in 0..n {
        let child = children[place(kind, j)] as usize;
        let end = lay_record(
            out,
            to,
            context,
            tree,
            tables,
            starts,
            child,
            child_verified(kind, j, verified),
        );
        to = put_after(out, end, kind, j);
    }
    put_last(out, to, kind, node.k, verified)
}

// Whether a table with entries of `size` bytes has all of entry i.
fn has_entry(table: &[u8], size: usize, i: u64) -> bool
    requires { 1 ≤ size }
    ensures { result ≡ whole size table.now i }
{
    (i as usize) < table.len() / size
}

// Whether key i is there.
fn has_key(context: Context, keys: &[u8], i: u64) -> bool
    ensures { result ≡ whole (key_size context) keys.now i }
{
    match context {
        Context::Segwitv0 => has_entry(keys, 33, i),
        Context::Tap => has_entry(keys, 32, i),
    }
}

// Whether all keys of a Multi's or a MultiA's record are there.
fn has_keys(context: Context, keys: &[u8], bytes: &[u8]) -> bool
    ensures { result ≡ has_keys context (only_keys keys.now) (keys_in bytes.now) }
{
    let count = records::count_of(bytes);
    for j in 0..count {
        let i = records::key_at(bytes, j);
        if !has_key(context, keys, i) {
            return false;
        }
    }
    true
}

// Whether the numbers that stand in a record itself have whole entries.
#[tactic(auto, unfolding(trees::specs::Tree::find, script_leaves::specs::Leaves::numbered, script_leaves::specs::Leaves::leaf_of, script_bytes::specs::ScriptOf::has_entries,))]
fn own_entries(context: Context, bytes: &[u8], tables: Tables<'_>) -> bool
    ensures { result ≡ has_entries context (lent tables.entry) (leaf_of bytes.now) }
{
    let n = records::number_of(bytes);
    // A kind stays a number: a record or a node holds one, and the contract answers on every number.
    match records::kind_of(bytes) {
        34 => has_key(context, tables.keys, n),
        35 => has_entry(tables.key_hashes, 20, n),
        38..=39 => has_entry(tables.hashes32, 32, n),
        40..=41 => has_entry(tables.hashes20, 20, n),
        57 => has_keys(context, tables.keys, bytes),
        58 => has_keys(context, tables.keys, bytes),
        _ => true,
    }
}

// Whether the numbers that stand in record i have whole entries.
fn entries_at(context: Context, tree: &[u8], tables: Tables<'_>, starts: &[u64], i: usize) -> bool
    requires { Placed tree.now starts.now i }
    ensures { result ≡ has_entries context (lent tables.entry) (leaf_of (record_at tree.now i)) }
{
    let start = starts[i] as usize;
    let end = walk::record_end(tree, start);
    own_entries(context, &tree[start..end], tables)
}

// Whether the numbers of each of `count` records have whole entries.
pub fn all_entries(
    context: Context,
    tree: &[u8],
    tables: Tables<'_>,
    starts: &[u64],
    count: usize,
) -> bool
    requires { AllPlaced tree.now starts.now (count - 1) }
    ensures { result ≡ entries_below context (lent tables.entry) tree.now count }
{
    for i in 0..count {
        let own = entries_at(context, tree, tables, starts, i);
        if !own {
            return false;
        }
    }
    true
}

// Lays the script of record `root` if it fits: a run over no output measures it first.
fn lay_root(
    out: &mut [u8],
    context: Context,
    tree: &[u8],
    tables: Tables<'_>,
    starts: &[u64],
    root: usize,
) -> Result<usize, Refusal>
    requires { Ready context (lent tables) tree.now starts.now root }
    ensures { Gives (fitting (length out.old) (script_bytes context (lent tables.entry) (fragment_at tree.now root)))
        out.old out.new result }
{
    let n = lay_record(
        &mut out[0..0],
        0,
        context,
        tree,
        tables,
        starts,
        root,
        false,
    );
    if out.len() < n {
        return Err(Refusal::OutputTooSmall);
    }
    lay_record(out, 0, context, tree, tables, starts, root, false);
    Ok(n)
}

// The script of a tree that the check passed.
fn script_in(
    context: Context,
    tree: &[u8],
    tables: Tables<'_>,
    out: &mut [u8],
    work: &mut [u64],
) -> Result<usize, Refusal>
    requires { Written tree.now × (length work.old ≡ max_records) }
    ensures gives { (f : Fragment) → TreeRecords tree.now f
        → Gives (script_in context (lent tables.entry) (length out.old) f) out.old out.new result }
    ensures work_len_unchanged { length work.new ≡ length work.old }
{
    let count = walk::scan(tree, work);
    let all = all_entries(context, tree, tables, work, count);
    if !all {
        return Err(Refusal::NoEntry);
    }
    let root = count - 1;
    lay_root(out, context, tree, tables, work, root)
}

// The script of a tree: the number of document 02, the script in `out`, and in `bytes` how many bytes it has, 0 on a refusal. Work memory is zero
// afterwards.
pub fn claspwillow_script(
    context: u32,
    tree: &[u8],
    keys: &[u8],
    key_hashes: &[u8],
    hashes32: &[u8],
    hashes20: &[u8],
    out: &mut [u8],
    work: &mut [u64],
    bytes: &mut u64,
) -> u32
    ensures { ScriptPromise context tree.now
        (tables keys.now key_hashes.now hashes32.now hashes20.now)
        out.old work.old result out.new bytes.new work.new }
{
    let mut ty = 0;
    let number = claspwillow::claspwillow_check(context, tree, work, &mut ty);
    if number != 0 {
        *bytes = 0;
        return number;
    }
    let tables = Tables {
        keys,
        key_hashes,
        hashes32,
        hashes20,
    };
    let r = script_in(claspwillow::context_of(context), tree, tables, out, work);
    words::clear(work);
    match r {
        Ok(n) => {
            *bytes = n as u64;
            0
        }
        Err(e) => {
            *bytes = 0;
            e.number()
        }
    }
}

// The one length of work memory that the script's entry takes, in words.
pub fn claspwillow_script_work() -> usize
    ensures { result ≡ max_records }
{
    trees::MAX_RECORDS
}
