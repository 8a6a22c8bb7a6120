// Laying the bytes of a script in an output: one byte, an opcode with the VERIFY that follows it, pushes of numbers and of table entries,
// and every fragment that has no children.
//
// Its contracts cite `specs/Laying.antt` (where bytes are laid and end), `specs/Lent.antt` (what the tables lent hold) and
// `specs/Leaves.antt` (the fragment of a record), and from `script_bytes` the bytes themselves. The laws that compose them stand in `proofs/Laws.antt`.
#![tactic(auto)]

ghost use Rattle.std.specs.Prelude.{◌≡◌, true, [], ◌∷◌, ◌++◌, ◌+◌, ◌<◌};
ghost use Rattle.words.specs.Bytes as Little;
ghost use Rattle.records.specs.Payloads.{first_keys, keys_in};
ghost use Rattle.script_bytes.specs.Tables.{entry, whole, key_size, key_hash_size};
ghost use Rattle.script_bytes.specs.Encoding.{push_bytes};
ghost use Rattle.script_bytes.specs.ScriptOf.{has_keys, has_entries};
ghost use Rattle.script_bytes.specs.Layout.{verify_byte, test_byte, number_bytes, bytes_of, keys_bytes, sig_sum_bytes};
ghost use Rattle.script_leaves.specs.Laying.{clip, Lays, EntrySize, only_keys};
ghost use Rattle.script_leaves.specs.Lent.{lent};
ghost use Rattle.script_leaves.specs.Leaves.{numbered, leaf_of, multi_of, multi_a_of};

use contexts::Context;
use records::{count_of, k_of, key_at, kind_of, number_of};

// Bitcoin's numbers of the opcodes that are laid here.
const OP_0: u8 = 0x00;

const OP_1: u8 = 0x51;

const VERIFY: u8 = 0x69;

const DUP: u8 = 0x76;

const SIZE: u8 = 0x82;

const EQUAL: u8 = 0x87;

const EQUALVERIFY: u8 = 0x88;

const NUMEQUAL: u8 = 0x9c;

const RIPEMD160: u8 = 0xa6;

const SHA256: u8 = 0xa8;

const HASH160: u8 = 0xa9;

const HASH256: u8 = 0xaa;

const CHECKSIG: u8 = 0xac;

const CHECKMULTISIG: u8 = 0xae;

const CHECKLOCKTIMEVERIFY: u8 = 0xb1;

const CHECKSEQUENCEVERIFY: u8 = 0xb2;

const CHECKSIGADD: u8 = 0xba;

// The tables that a caller lends: its keys, the keys' hashes, and hashes of 32 and of 20 bytes.
#[derive(Clone, Copy)]
pub struct Tables<'a> {
    pub keys: &'a [u8],
    pub key_hashes: &'a [u8],
    pub hashes32: &'a [u8],
    pub hashes20: &'a [u8],
}

// Lays one byte. The largest position is the largest number.
pub fn put(out: &mut [u8], at: usize, b: u8) -> usize
    ensures { Lays out.old out.new at (b ∷ []) result }
{
    if at < out.len() {
        out[at] = b;
    }
    at.saturating_add(1)
}

// Lays two bytes.
pub fn put_2(out: &mut [u8], at: usize, a: u8, b: u8) -> usize
    ensures { Lays out.old out.new at (a ∷ b ∷ []) result }
{
    let to = put(out, at, a);
    put(out, to, b)
}

// Lays the VERIFY that an opcode without a VERIFY form needs.
pub fn put_verify(out: &mut [u8], at: usize, verified: bool) -> usize
    ensures { Lays out.old out.new at (verify_byte verified) result }
{
    if verified {
        return put(out, at, VERIFY);
    }
    at
}

// Lays an opcode that has no VERIFY form.
pub fn put_op(out: &mut [u8], at: usize, n: u8, verified: bool) -> usize
    ensures { Lays out.old out.new at (n ∷ verify_byte verified) result }
{
    let to = put(out, at, n);
    put_verify(out, to, verified)
}

// Lays one of the four tests, whose VERIFY form has the next number.
pub fn put_test(out: &mut [u8], at: usize, n: u8, verified: bool) -> usize
    requires { n < 255 }
    ensures { Lays out.old out.new at (test_byte n verified) result }
{
    if verified {
        return put(out, at, n + 1);
    }
    put(out, at, n)
}

// Lays the bytes of a number, the least significant first.
fn put_little(out: &mut [u8], at: usize, n: u32, width: usize) -> usize
    ensures { Lays out.old out.new at (Little.bytes_of width n) result }
{
    let mut to = at;
    let mut rest = n;
    for i in 0..width {
        to = put(out, to, (rest % 256) as u8);
        rest /= 256;
    }
    to
}

// How many bytes hold a number above 16 and its sign.
pub fn width_of(n: u32) -> u8
    requires { 16 < n }
    ensures { number_bytes n ≡ result ∷ Little.bytes_of result n }
{
    if n < 128 {
        return 1;
    }
    if n < 32768 {
        return 2;
    }
    if n < 8388608 {
        return 3;
    }
    if n < 2147483648 {
        return 4;
    }
    5
}

// Lays the push of a number.
pub fn put_number(out: &mut [u8], at: usize, n: u32) -> usize
    ensures { Lays out.old out.new at (number_bytes n) result }
{
    if n == 0 {
        return put(out, at, OP_0);
    }
    if n <= 16 {
        return put(out, at, 0x50 + n as u8);
    }
    let width = width_of(n);
    let to = put(out, at, width);
    put_little(out, to, n, width as usize)
}

// Lays the push of a number and the test that follows it.
pub fn put_counted(out: &mut [u8], at: usize, k: u32, n: u8, verified: bool) -> usize
    requires { n < 255 }
    ensures { Lays out.old out.new at (number_bytes k ++ test_byte n verified) result }
{
    let to = put_number(out, at, k);
    put_test(out, to, n, verified)
}

// Lays bytes as they are.
pub fn put_bytes(out: &mut [u8], at: usize, bytes: &[u8]) -> usize
    ensures { Lays out.old out.new at bytes.now result }
{
    let mut to = at;
    for byte in bytes {
        to = put(out, to, *byte);
    }
    to
}

// Lays the push of entry i of a table.
pub fn put_entry(out: &mut [u8], at: usize, size: usize, table: &[u8], i: u64) -> usize
    requires { EntrySize size × (whole size table.now i ≡ true) }
    ensures { Lays out.old out.new at (push_bytes (entry size table.now i)) result }
{
    let start = (i as usize) * size;
    let end = start + size;
    let to = put(out, at, size as u8);
    put_bytes(out, to, &table[start..end])
}

// How many bytes a key has.
fn key_size(context: Context) -> usize
    ensures { result ≡ key_size context }
{
    match context {
        Context::Segwitv0 => 33,
        Context::Tap => 32,
    }
}

// Lays the push of key i.
fn put_key(out: &mut [u8], at: usize, context: Context, keys: &[u8], i: u64) -> usize
    requires { whole (key_size context) keys.now i ≡ true }
    ensures { Lays out.old out.new at (push_bytes (entry (key_size context) keys.now i)) result }
{
    put_entry(out, at, key_size(context), keys, i)
}

// Lays PkK.
fn lay_pk_k(
    out: &mut [u8],
    at: usize,
    context: Context,
    keys: &[u8],
    i: u64,
    verified: bool,
) -> usize
    requires { whole (key_size context) keys.now i ≡ true }
    ensures { Lays out.old out.new at (push_bytes (entry (key_size context) keys.now i) ++ verify_byte verified) result }
{
    let to = put_key(out, at, context, keys, i);
    put_verify(out, to, verified)
}

// Lays PkH.
fn lay_pk_h(out: &mut [u8], at: usize, key_hashes: &[u8], i: u64, verified: bool) -> usize
    requires { whole key_hash_size key_hashes.now i ≡ true }
    ensures { Lays out.old out.new at
        (0x76 ∷ 0xa9 ∷ push_bytes (entry key_hash_size key_hashes.now i) ++ 0x88 ∷ verify_byte verified) result }
{
    let front = put_2(out, at, DUP, HASH160);
    let to = put_entry(out, front, 20, key_hashes, i);
    put_op(out, to, EQUALVERIFY, verified)
}

// Lays a lock by its opcode.
fn lay_lock(out: &mut [u8], at: usize, opcode: u8, n: u32, verified: bool) -> usize
    ensures { Lays out.old out.new at (number_bytes n ++ opcode ∷ verify_byte verified) result }
{
    let to = put_number(out, at, n);
    put_op(out, to, opcode, verified)
}

// Lays the test that an element has 32 bytes.
fn put_size_test(out: &mut [u8], at: usize) -> usize
    ensures { Lays out.old out.new at (0x82 ∷ 0x01 ∷ 0x20 ∷ 0x88 ∷ []) result }
{
    let push = put(out, at, SIZE);
    let verify = put_number(out, push, 32);
    put(out, verify, EQUALVERIFY)
}

// Lays a hash by its opcode and its table.
fn lay_hash(
    out: &mut [u8],
    at: usize,
    opcode: u8,
    size: usize,
    table: &[u8],
    i: u64,
    verified: bool,
) -> usize
    requires { EntrySize size × (whole size table.now i ≡ true) }
    ensures { Lays out.old out.new at
        (0x82 ∷ 0x01 ∷ 0x20 ∷ 0x88 ∷ opcode ∷ push_bytes (entry size table.now i) ++ test_byte 0x87 verified) result }
{
    let hash = put_size_test(out, at);
    let push = put(out, hash, opcode);
    let test = put_entry(out, push, size, table, i);
    put_test(out, test, EQUAL, verified)
}

// Lays a leaf that holds one number or none.
fn lay_numbered(
    out: &mut [u8],
    at: usize,
    context: Context,
    kind: u16,
    n: u64,
    tables: Tables<'_>,
    verified: bool,
) -> usize
    requires { (has_entries context (lent tables) (numbered kind n) ≡ true)
        × (35 < kind → kind < 38 → n < 4294967296) }
    ensures { Lays out.old out.new at (bytes_of context (lent tables.entry) verified (numbered kind n)) result }
{
    // A kind stays a number: a record or a node holds one, and the contract answers on every number.
    match kind {
        33 => put_op(out, at, OP_1, verified),
        34 => lay_pk_k(out, at, context, tables.keys, n, verified),
        35 => lay_pk_h(out, at, tables.key_hashes, n, verified),
        36 => lay_lock(out, at, CHECKLOCKTIMEVERIFY, n as u32, verified),
        37 => lay_lock(out, at, CHECKSEQUENCEVERIFY, n as u32, verified),
        38 => lay_hash(out, at, SHA256, 32, tables.hashes32, n, verified),
        39 => lay_hash(out, at, HASH256, 32, tables.hashes32, n, verified),
        40 => lay_hash(out, at, RIPEMD160, 20, tables.hashes20, n, verified),
        41 => lay_hash(out, at, HASH160, 20, tables.hashes20, n, verified),
        _ => put_op(out, at, OP_0, verified),
    }
}

// Lays the keys of a Multi's record.
fn put_keys(
    out: &mut [u8],
    at: usize,
    context: Context,
    keys: &[u8],
    bytes: &[u8],
    count: u16,
) -> usize
    requires { has_keys context (only_keys keys.now) (first_keys bytes.now count) ≡ true }
    ensures { Lays out.old out.new at
        (keys_bytes context (only_keys keys.now) (first_keys bytes.now count)) result }
{
    let mut to = at;
    for j in 0..count {
        to = put_key(out, to, context, keys, key_at(bytes, j));
    }
    to
}

// Lays the keys of a MultiA's record: the first with CHECKSIG, each other with CHECKSIGADD.
fn put_sig_sum(
    out: &mut [u8],
    at: usize,
    context: Context,
    keys: &[u8],
    bytes: &[u8],
    count: u16,
) -> usize
    requires { has_keys context (only_keys keys.now) (first_keys bytes.now count) ≡ true }
    ensures { Lays out.old out.new at
        (sig_sum_bytes context (only_keys keys.now) (first_keys bytes.now count)) result }
{
    let mut to = at;
    let mut opcode = CHECKSIG;
    for j in 0..count {
        let next = put_key(out, to, context, keys, key_at(bytes, j));
        to = put(out, next, opcode);
        opcode = CHECKSIGADD;
    }
    to
}

// Lays the Multi of a record.
fn lay_multi(
    out: &mut [u8],
    at: usize,
    context: Context,
    keys: &[u8],
    bytes: &[u8],
    verified: bool,
) -> usize
    requires { has_keys context (only_keys keys.now) (keys_in bytes.now) ≡ true }
    ensures { Lays out.old out.new at
        (bytes_of context (only_keys keys.now) verified (multi_of bytes.now)) result }
{
    let k = k_of(bytes);
    let count = count_of(bytes);
    let list = put_number(out, at, k as u32);
    let to = put_keys(out, list, context, keys, bytes, count);
    put_counted(out, to, count as u32, CHECKMULTISIG, verified)
}

// Lays the MultiA of a record.
fn lay_multi_a(
    out: &mut [u8],
    at: usize,
    context: Context,
    keys: &[u8],
    bytes: &[u8],
    verified: bool,
) -> usize
    requires { has_keys context (only_keys keys.now) (keys_in bytes.now) ≡ true }
    ensures { Lays out.old out.new at
        (bytes_of context (only_keys keys.now) verified (multi_a_of bytes.now)) result }
{
    let k = k_of(bytes);
    let count = count_of(bytes);
    let to = put_sig_sum(out, at, context, keys, bytes, count);
    put_counted(out, to, k as u32, NUMEQUAL, verified)
}

// Lays the leaf of a whole record.
pub fn lay_leaf(
    out: &mut [u8],
    at: usize,
    context: Context,
    bytes: &[u8],
    tables: Tables<'_>,
    verified: bool,
) -> usize
    requires { has_entries context (lent tables) (leaf_of bytes.now) ≡ true }
    ensures { Lays out.old out.new at (bytes_of context (lent tables.entry) verified (leaf_of bytes.now)) result }
{
    let kind = kind_of(bytes);
    // A kind stays a number: a record or a node holds one, and the contract answers on every number.
    match kind {
        57 => lay_multi(out, at, context, tables.keys, bytes, verified),
        58 => lay_multi_a(out, at, context, tables.keys, bytes, verified),
        _ => {
            let n = number_of(bytes);
            lay_numbered(out, at, context, kind, n, tables, verified)
        }
    }
}
