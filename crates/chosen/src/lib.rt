// The chosen tree in work memory: its bytes there, and whether a memory holds a tree, whoever filled it.
//
// specs/Form.antt says how the bytes stand in memory, specs/Chosen.antt which memories hold a tree; the contracts cite these and, inside,
// specs/Answers.antt. The laws that crates above cite stand in proofs/: Holding.antt (a memory that holds bytes is read again, and no other
// holds them) and Written.antt (what is written for a tree is in order).
#![tactic(auto)]

ghost use Rattle.std.specs.Prelude.{true, ◌++◌, ◌≡◌, ◌+◌, ◌-◌, ◌<◌, ◌≤◌, length, get_or, take, drop};
ghost use Rattle.words.specs.Memory.{zeroed};
ghost use Rattle.memory.specs.Layout.{work_words};
ghost use Rattle.trees.specs.Reading.{max_records};
ghost use Rattle.chosen.specs.Form.{tree_bytes, most_bytes, bytes_in, room_in, holding};
ghost use Rattle.chosen.specs.Chosen.{is_short, same, with_record, is_written, all_zero};
ghost use Rattle.chosen.specs.Answers.{Leaves, Reads, Tells};

// The one length of work memory, in words, and the bytes of its words behind word 0.
const WORK_WORDS: usize = 612_360;

const TREE_BYTES: u64 = 4_898_872;

// The most records that a tree may have, and the most bytes of a record.
const MAX_RECORDS: usize = 4096;

const MAX_BYTES: usize = 136;

// How many bytes a record has, and how many roots there are after it.
#[derive(Clone, Copy)]
struct Next {
    len: usize,
    top: usize,
}

// Byte i behind word 0.
fn byte_at(work: &[u64], i: usize) -> u8
    requires { (length work.now ≡ work_words) × (i < tree_bytes) }
    ensures { result ≡ get_or (room_in work.now) i 0 }
{
    let word = work[1 + i / 8];
    let shift = 8 * (i % 8);
    ((word >> shift) % 256) as u8
}

// n bytes from byte `at` on, then zeros.
fn bytes_at(work: &[u64], at: usize, n: usize) -> [u8; 136]
    requires { (length work.now ≡ work_words) × ((n ≤ 136) × (at + n ≤ tree_bytes)) }
    ensures { take n result ≡ take n (drop at (room_in work.now)) }
{
    let mut bytes = [0; 136];
    for (j, byte) in bytes[..n].iter_mut().enumerate() {
        *byte = byte_at(work, at + j);
    }
    bytes
}

// Whether a number is a kind of keys of 32 bits.
fn is_short(kind: u16) -> bool
    ensures { result ≡ is_short kind }
{
    // A kind stays a number: a record or a node holds one, and the contract answers on every number.
    match kind {
        // PkK, PkH.
        34..=35 => true,
        // Multi, MultiA.
        57..=58 => true,
        _ => false,
    }
}

// Whether the last n of the first `top` roots are the first n of some children.
fn last_are(roots: &[u16], top: usize, children: [u16; 16], n: usize) -> bool
    requires { (top ≤ length roots.now) × (n ≤ 16) }
    ensures { result ≡ same (drop (top - n) (take top roots.now)) (take n children) }
{
    if top < n {
        return false;
    }
    roots[top - n..top] == children[..n]
}

// Reads a whole record when `own` records are read: takes its children from the roots, and adds itself.
fn take_record(bytes: &[u8], roots: &mut [u16], top: usize, own: usize) -> Option<usize>
    requires { (length roots.old ≡ max_records) × ((top ≤ own) × (own < max_records)) }
    ensures { Leaves (with_record (take top roots.old) own bytes.now) own roots.new result }
{
    if is_short(records::written_kind(bytes)) {
        return None;
    }
    let parts = records::fragment_parts(bytes);
    if !parts.fits {
        return None;
    }
    let n = records::arity(records::kind_of(bytes), parts.count);
    if !last_are(roots, top, parts.children, n) {
        return None;
    }
    let left = top - n;
    roots[left] = own as u16;
    Some(left + 1)
}

// Reads the record that begins at byte `at`, of n bytes in all, unless the bytes write no tree.
fn next_record(
    work: &[u64],
    at: usize,
    n: usize,
    roots: &mut [u16],
    top: usize,
    own: usize,
) -> Option<Next>
    requires work_len { (length work.now ≡ work_words) × ((at < n) × (n ≤ tree_bytes)) }
    requires roots_len { (length roots.old ≡ max_records) × ((top ≤ own) × (own < max_records)) }
    ensures { Reads (drop at (take n (room_in work.now))) own (take top roots.old) roots.new result }
{
    let some = (n - at).min(MAX_BYTES);
    let bytes = bytes_at(work, at, some);
    let len = records::length_at(&bytes[..some], 0)?;
    let after = take_record(&bytes[..len], roots, top, own)?;
    Some(Next { len, top: after })
}

// Whether the first n bytes write a tree.
fn is_written(work: &[u64], n: usize) -> bool
    requires { (length work.now ≡ work_words) × (n ≤ tree_bytes) }
    ensures { result ≡ is_written (take n (room_in work.now)) }
{
    let mut roots = [0u16; 4096];
    let mut top = 0;
    let mut at = 0;
    let mut own = 0;
    // A `while`, since records are of unequal length.
    while at < n {
        if own == MAX_RECORDS {
            return false;
        }
        let Some(next) = next_record(work, at, n, &mut roots, top, own) else {
            return false;
        };
        top = next.top;
        at += next.len;
        own += 1;
    }
    top == 1
}

// Whether the words from one on are zero.
fn zero_from(work: &[u64], from: usize) -> bool
    requires { from ≤ length work.now }
    ensures { result ≡ all_zero (bytes_in (drop from work.now)) }
{
    work[from..].iter().all(|word| *word == 0)
}

// Whether the bytes from byte n on are zero.
fn zero_behind(work: &[u64], n: usize) -> bool
    requires { (length work.now ≡ work_words) × (n ≤ tree_bytes) }
    ensures { result ≡ all_zero (drop n (room_in work.now)) }
{
    let words = n.div_ceil(8);
    for i in n..8 * words {
        if byte_at(work, i) != 0 {
            return false;
        }
    }
    zero_from(work, 1 + words)
}

// How many bytes of a tree a memory holds, of any length and whoever filled it.
pub fn tree_in(work: &[u64]) -> Option<usize>
    ensures { Tells work.now result }
{
    if work.len() != WORK_WORDS {
        return None;
    }
    let count = work[0];
    if TREE_BYTES < count {
        return None;
    }
    let n = count as usize;
    if !zero_behind(work, n) {
        return None;
    }
    if !is_written(work, n) {
        return None;
    }
    Some(n)
}

// Writes the first n bytes to the front of an output.
pub fn write(work: &[u64], n: usize, out: &mut [u8])
    requires { (length work.now ≡ work_words) × ((n ≤ tree_bytes) × (n ≤ length out.old)) }
    ensures { out.new ≡ take n (room_in work.now) ++ drop n out.old }
{
    for (i, byte) in out[..n].iter_mut().enumerate() {
        *byte = byte_at(work, i);
    }
}

// Makes a memory hold the first n of some bytes, behind which all are zero.
pub fn hold(bytes: &[u8], n: usize, work: &mut [u64])
    requires work_len { (length work.old ≡ work_words) × ((length bytes.now ≡ most_bytes) × (n ≤ most_bytes)) }
    requires bytes_value { all_zero (drop n bytes.now) ≡ true }
    ensures { work.new ≡ holding (take n bytes.now) }
{
    words::clear(work);
    work[0] = n as u64;
    for i in 0..n.div_ceil(8) {
        work[1 + i] = records::u64_or_zero(bytes, 8 * i);
    }
}
