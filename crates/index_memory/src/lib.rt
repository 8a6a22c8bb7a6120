// The index of a tree in work memory: what it says of a record, its bytes written and compared, and a byte of the script looked up.
//
// specs/Entries.antt has the index in bytes, specs/Memory.antt how work memory holds it, specs/Looking.antt what is asked of it.
#![tactic(auto)]

ghost use Rattle.std.specs.Prelude.{◌++◌, ◌≡◌, ◌*◌, ◌/◌, ◌%◌, ◌≤◌, ◌<◌, length, drop};
ghost use Rattle.index_memory.specs.Entries.{part, digit};
ghost use Rattle.index_memory.specs.Memory.{work_words, size_in, first_in, subtree_in, entry_in, index_in};
ghost use Rattle.index_memory.specs.Looking.{Compared, holds_in, FirstHolding};

use trees::Subtree;
use types::Type;

// Where the sizes, the places and the types begin, a word for each record.
pub const SIZES: usize = 4096;

pub const PLACES: usize = 8192;

pub const TYPES: usize = 12288;

// The size of record i, alone or before a VERIFY.
pub fn size_at(work: &[u64], i: usize, verified: bool) -> u64
    requires { (length work.now ≡ work_words) × (i < 4096) }
    ensures { (result ≡ size_in work.now verified i) × (result ≤ 4294967295) }
{
    let word = work[SIZES + i];
    if verified {
        return word / 4294967296 % 4294967296;
    }
    word % 4294967296
}

// The type and the height of record i.
pub fn subtree_at(work: &[u64], i: usize) -> Subtree
    requires { (length work.now ≡ work_words) × (i < 4096) }
    ensures { result ≡ subtree_in work.now i }
{
    match trees::slot_of(work[TYPES + i]) {
        Some(x) => x,
        None => Subtree {
            ty: Type::of_false(),
            height: 0,
        },
    }
}

// The first byte of record i.
pub fn first_at(work: &[u64], i: usize) -> u64
    requires { (length work.now ≡ work_words) × (i < 4096) }
    ensures { result ≡ first_in work.now i }
{
    work[PLACES + i]
}

// A number of the entry of record i: its type, its height, its first byte or its length.
fn number_at(work: &[u64], i: usize, place: usize) -> u64
    requires { (length work.now ≡ work_words) × (i < 4096) }
    ensures { result ≡ part (entry_in work.now i) place }
{
    match place {
        0 => subtree_at(work, i).ty.pack() as u64,
        1 => subtree_at(work, i).height,
        2 => first_at(work, i),
        _ => size_at(work, i, false),
    }
}

// Byte j of the index.
fn byte_at(work: &[u64], j: usize) -> u8
    requires { (length work.now ≡ work_words) × (j < 65536) }
    ensures { result ≡ digit (j % 4) (part (entry_in work.now (j / 16)) (j % 16 / 4)) }
{
    let n = number_at(work, j / 16, j % 16 / 4);
    match j % 4 {
        0 => (n % 256) as u8,
        1 => (n / 256 % 256) as u8,
        2 => (n / 256 / 256 % 256) as u8,
        _ => (n / 256 / 256 / 256 % 256) as u8,
    }
}

// Writes the index of so many records.
pub fn write_index(out: &mut [u8], work: &[u64], count: usize)
    requires { (length work.now ≡ work_words) × (count ≤ 4096) × (16 * count ≤ length out.old) }
    ensures { out.new ≡ index_in work.now count ++ drop (16 * count) out.old }
{
    for (j, byte) in out[..16 * count].iter_mut().enumerate() {
        *byte = byte_at(work, j);
    }
}

// Whether some bytes are the index of so many records.
pub fn same_index(index: &[u8], work: &[u64], count: usize) -> bool
    requires { (length work.now ≡ work_words) × (count ≤ 4096) }
    ensures { Compared index.now (index_in work.now count) result }
{
    if index.len() != 16 * count {
        return false;
    }
    for (j, byte) in index.iter().enumerate() {
        if *byte != byte_at(work, j) {
            return false;
        }
    }
    true
}

// Whether byte `at` of the script is one of record i's.
fn holds(work: &[u64], i: usize, at: u64) -> bool
    requires { (length work.now ≡ work_words) × (i < 4096) }
    ensures { result ≡ holds_in work.now i at }
{
    let first = first_at(work, i);
    first <= at && at - first < size_at(work, i, false)
}

// The first of so many records that holds byte `at` of the script.
pub fn first_holding(work: &[u64], count: usize, at: u64) -> Option<u32>
    requires { (length work.now ≡ work_words) × (count ≤ 4096) }
    ensures { FirstHolding work.now count at result }
{
    for i in 0..count {
        if holds(work, i, at) {
            return Some(i as u32);
        }
    }
    None
}
