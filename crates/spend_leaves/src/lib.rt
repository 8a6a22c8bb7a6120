// The run of each fragment without children over the replay's stacks. Keys and hashes are pushed as ranges of the log; nothing is copied.
//
// Its contracts cite `spend_machine`, specs/Playing.antt, through specs/Acting.antt, and `script_leaves`, specs/Leaves.antt (the fragment of a
// record). The laws that compose them stand in proofs/Laws.antt.
#![tactic(auto)]

ghost use Rattle.std.specs.Prelude.{◌≡◌, true, ◌<◌};
ghost use Rattle.contexts.specs.Leaves.{LockKind, HashKind};
ghost use Rattle.contexts.specs.declared.Context.{Context};
ghost use Rattle.records.specs.Payloads.{first_keys, keys_in};
ghost use Rattle.trees.specs.Fragment.{PkH, Lock, Hash};
ghost use Rattle.script_machine.specs.Words.{<n>, <key>, EQUALVERIFY};
ghost use Rattle.script_bytes.specs.Tables.{Tables, key_size, hash, has_key, has_key_hash};
ghost use Rattle.script_bytes.specs.ScriptOf.{has_keys, has_entries};
ghost use Rattle.script_leaves.specs.Leaves.{numbered, leaf_of, multi_of, multi_a_of};
ghost use Rattle.spend_machine.specs.Recorded.{recorded_step};
ghost use Rattle.spend_machine.specs.Playing.{plays, keys_pushed, sigs_summed};
ghost use Rattle.spend_log.specs.Places.{tables_in};
ghost use Rattle.spend_elements.specs.Elements.{bytes_in};
ghost use Rattle.spend_stack.specs.Machines.{Fits, Does, Pushes};
ghost use Rattle.spend_leaves.specs.Acting.{Acts, entry_at, Reaches, sig_word};

use contexts::Context;
use records::{count_of, k_of, key_at, kind_of, number_of};
use spend_elements::Element;
use spend_log::Offsets;
use spend_stack::{Machine, Pair};

// EQUALVERIFY.
fn equal_verify(log: &[u8], main: &mut [u64], m: Machine) -> Machine
    requires { Fits log.now main.old m }
    ensures { Does EQUALVERIFY log.now main.old main.new m result }
{
    let a = spend_stack::equal(log, main, m);
    spend_stack::verify(log, main, a)
}

// Pushes a number.
pub fn push_number(log: &[u8], main: &mut [u64], m: Machine, n: u32) -> Machine
    requires { Fits log.now main.old m }
    ensures { Does (<n> n) log.now main.old main.new m result }
{
    let e = spend_elements::written(false, n as usize);
    spend_stack::push(log, main, m, e)
}

// Pushes entry i of a table that begins at `from`, with `size` bytes an entry.
fn push_entry(log: &[u8], main: &mut [u64], m: Machine, from: usize, size: usize, i: u64) -> Machine
    requires { Fits log.now main.old m × Reaches log.now from size i }
    ensures { Pushes log.now main.old main.new m (entry_at from size i) result }
{
    let at = from + (i as usize) * size;
    let e = Element { at, len: size };
    spend_stack::push(log, main, m, e)
}

// How many bytes a key has.
fn key_size(context: Context) -> usize
    ensures { result ≡ key_size context }
{
    match context {
        Context::Segwitv0 => 33,
        Context::Tap => 32,
    }
}

// Pushes key i.
fn push_key(
    context: Context,
    log: &[u8],
    head: Offsets,
    main: &mut [u64],
    m: Machine,
    i: u64,
) -> Machine
    requires { Fits log.now main.old m × (has_key context (tables_in log.now head) i ≡ true) }
    ensures { Acts (recorded_step context (tables_in log.now head) (<key> i)) log.now
        main.old main.new m result }
{
    let size = key_size(context);
    push_entry(log, main, m, head.keys, size, i)
}

// Runs PkH.
fn run_pk_h(log: &[u8], head: Offsets, main: &mut [u64], m: Machine, i: u64) -> Machine
    requires { Fits log.now main.old m × (has_key_hash (tables_in log.now head) i ≡ true) }
    ensures { (c : Context) → Acts (plays c (tables_in log.now head) (PkH i)) log.now
        main.old main.new m result }
{
    let a = spend_stack::dup(log, main, m);
    let b = spend_asks::hash(log, main, a);
    let d = push_entry(log, main, b, head.key_hashes, 20, i);
    equal_verify(log, main, d)
}

// Runs a lock.
fn run_lock(log: &[u8], main: &mut [u64], m: Machine, n: u32) -> Machine
    requires { Fits log.now main.old m }
    ensures { (c : Context) (t : Tables) (kind : LockKind) → Acts (plays c t (Lock kind n)) log.now
        main.old main.new m result }
{
    let a = push_number(log, main, m, n);
    spend_asks::check_time(log, main, a)
}

// Runs a hash whose value is entry i of a table that begins at `from`, with `size` bytes an entry.
fn run_hash(log: &[u8], from: usize, size: usize, main: &mut [u64], m: Machine, i: u64) -> Machine
    requires { Fits log.now main.old m × Reaches log.now from size i }
    ensures { (c : Context) (t : Tables) (kind : HashKind)
        → bytes_in log.now (entry_at from size i) ≡ hash t kind i
        → Acts (plays c t (Hash kind i)) log.now main.old main.new m result }
{
    let a = spend_stack::size(log, main, m);
    let b = push_number(log, main, a, 32);
    let d = equal_verify(log, main, b);
    let e = spend_asks::hash(log, main, d);
    let f = push_entry(log, main, e, from, size, i);
    spend_stack::equal(log, main, f)
}

// Runs a leaf that holds one number or none.
fn run_numbered(
    context: Context,
    log: &[u8],
    head: Offsets,
    kind: u16,
    n: u64,
    main: &mut [u64],
    m: Machine,
) -> Machine
    requires { Fits log.now main.old m × (has_entries context (tables_in log.now head) (numbered kind n) ≡ true)
        × (35 < kind → kind < 38 → n < 4294967296) }
    ensures { Acts (plays context (tables_in log.now head) (numbered kind n)) log.now
        main.old main.new m result }
{
    // A kind stays a number: a record or a node holds one, and the contract answers on every number.
    match kind {
        33 => push_number(log, main, m, 1),
        34 => push_key(context, log, head, main, m, n),
        35 => run_pk_h(log, head, main, m, n),
        36 => run_lock(log, main, m, n as u32),
        37 => run_lock(log, main, m, n as u32),
        38 => run_hash(log, head.hashes32, 32, main, m, n),
        39 => run_hash(log, head.hashes32, 32, main, m, n),
        40 => run_hash(log, head.hashes20, 20, main, m, n),
        41 => run_hash(log, head.hashes20, 20, main, m, n),
        _ => push_number(log, main, m, 0),
    }
}

// Pushes the keys of a Multi's record.
fn push_keys(
    context: Context,
    log: &[u8],
    head: Offsets,
    bytes: &[u8],
    count: u16,
    main: &mut [u64],
    m: Machine,
) -> Machine
    requires { Fits log.now main.old m × (has_keys context (tables_in log.now head) (first_keys bytes.now count) ≡ true) }
    ensures { Acts (keys_pushed context (tables_in log.now head) (first_keys bytes.now count)) log.now
        main.old main.new m result }
{
    let mut r = m;
    for j in 0..count {
        let i = key_at(bytes, j);
        r = push_key(context, log, head, main, r, i);
    }
    r
}

// CHECKSIG behind the first key of a MultiA, CHECKSIGADD behind each other.
fn check_next(first: bool, log: &[u8], main: &mut [u64], m: Machine) -> Machine
    requires { Fits log.now main.old m }
    ensures { Does (sig_word first) log.now main.old main.new m result }
{
    if first {
        return spend_asks::check_sig(log, main, m);
    }
    spend_asks::check_sig_add(log, main, m)
}

// Runs the keys of a MultiA's record, each with the check behind it.
fn sum_sigs(
    context: Context,
    log: &[u8],
    head: Offsets,
    bytes: &[u8],
    count: u16,
    main: &mut [u64],
    m: Machine,
) -> Machine
    requires { Fits log.now main.old m × (has_keys context (tables_in log.now head) (first_keys bytes.now count) ≡ true) }
    ensures { Acts (sigs_summed context (tables_in log.now head) (first_keys bytes.now count)) log.now
        main.old main.new m result }
{
    let mut r = m;
    for j in 0..count {
        let i = key_at(bytes, j);
        let a = push_key(context, log, head, main, r, i);
        r = check_next(j == 0, log, main, a);
    }
    r
}

// Runs the Multi of a record.
fn run_multi(
    context: Context,
    log: &[u8],
    head: Offsets,
    bytes: &[u8],
    main: &mut [u64],
    m: Machine,
) -> Machine
    requires { Fits log.now main.old m × (has_keys context (tables_in log.now head) (keys_in bytes.now) ≡ true) }
    ensures { Acts (plays context (tables_in log.now head) (multi_of bytes.now)) log.now
        main.old main.new m result }
{
    let k = k_of(bytes);
    let count = count_of(bytes);
    let a = push_number(log, main, m, k as u32);
    let b = push_keys(context, log, head, bytes, count, main, a);
    let d = push_number(log, main, b, count as u32);
    spend_asks::check_multi_sig(log, main, d)
}

// Runs the MultiA of a record.
fn run_multi_a(
    context: Context,
    log: &[u8],
    head: Offsets,
    bytes: &[u8],
    main: &mut [u64],
    m: Machine,
) -> Machine
    requires { Fits log.now main.old m × (has_keys context (tables_in log.now head) (keys_in bytes.now) ≡ true) }
    ensures { Acts (plays context (tables_in log.now head) (multi_a_of bytes.now)) log.now
        main.old main.new m result }
{
    let k = k_of(bytes);
    let count = count_of(bytes);
    let a = sum_sigs(context, log, head, bytes, count, main, m);
    let b = push_number(log, main, a, k as u32);
    spend_stack::two_numbers(Pair::NumEqual, log, main, b)
}

// Runs the leaf of a whole record.
pub fn run_leaf(
    context: Context,
    log: &[u8],
    head: Offsets,
    bytes: &[u8],
    main: &mut [u64],
    m: Machine,
) -> Machine
    requires { Fits log.now main.old m × (has_entries context (tables_in log.now head) (leaf_of bytes.now) ≡ true) }
    ensures { Acts (plays context (tables_in log.now head) (leaf_of bytes.now)) log.now
        main.old main.new m result }
{
    let kind = kind_of(bytes);
    // A kind stays a number: a record or a node holds one, and the contract answers on every number.
    match kind {
        57 => run_multi(context, log, head, bytes, main, m),
        58 => run_multi_a(context, log, head, bytes, main, m),
        _ => {
            let n = number_of(bytes);
            run_numbered(context, log, head, kind, n, main, m)
        }
    }
}
