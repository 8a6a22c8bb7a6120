// The tables that the search remembers, in work memory: a table is a list of node numbers, remembered under the number of its policy and
// the two probabilities that it was made for.
//
// Its contracts cite `specs/Slots.antt` (the tables that work memory holds), `specs/Lookup.antt` (which of them is found) and
// `specs/Answers.antt` (what storing one leaves). Crate `memory` says where they stand. The laws that crates above cite stand in
// `proofs/Tables.antt`.
#![tactic(auto)]

ghost use Rattle.std.specs.Prelude.{◌≡◌, ◌&&◌, ◌<◌, ◌≤◌, length, take, get_or};
ghost use Rattle.std.specs.Float.Ieee.{eq};
ghost use Rattle.words.specs.Floats.{float_of_word};
ghost use Rattle.memory.specs.Layout.{work_words, max_tables, max_entries, table_count};
ghost use Rattle.cache.specs.Slots.{slot, slot_at, Kept};
ghost use Rattle.cache.specs.Lookup.{same_key, find_in};
ghost use Rattle.cache.specs.Words.{flag_of, key_start, Holds, same_word, KeyPut, Fours, RowPut};
ghost use Rattle.cache.specs.Answers.{Stores};

use words::{float_of_word, word_of_float};

// The word that counts the tables, and where their keys and their entries begin.
const COUNT: usize = 1;

const KEYS: usize = 540680;

const ENTRIES: usize = 546824;

// The most tables, and the most entries of one.
const MAX_TABLES: usize = 2048;

const MAX_ENTRIES: usize = 128;

// 1 where there is a dissatisfaction probability, 0 where there is none.
fn flag_of(dissat: Option<f64>) -> u64
    ensures { result ≡ flag_of dissat }
{
    dissat.is_some() as u64
}

// What a key of this policy begins with.
fn key_start(number: u16, dissat: Option<f64>) -> u64
    ensures { result ≡ key_start number dissat }
{
    number as u64 + flag_of(dissat) * 0x1_0000
}

// Whether a dissatisfaction probability is that of a word, if there is one.
fn same_word(dissat: Option<f64>, word: u64) -> bool
    ensures { result ≡ same_word dissat word }
{
    match dissat {
        Some(p) => p == float_of_word(word),
        None => true,
    }
}

// Whether both probabilities are those of two words.
fn same_words(sat: f64, dissat: Option<f64>, sat_word: u64, dissat_word: u64) -> bool
    ensures { result ≡ (eq sat (float_of_word sat_word) && same_word dissat dissat_word) }
{
    sat == float_of_word(sat_word) && same_word(dissat, dissat_word)
}

// Whether table s is remembered under a key, which begins with `start`.
fn same_key(work: &[u64], s: usize, number: u16, start: u64, sat: f64, dissat: Option<f64>) -> bool
    requires { Kept work.now × ((s < max_tables) × (start ≡ key_start number dissat)) }
    ensures { result ≡ same_key number sat dissat (slot_at work.now s) }
{
    let at = KEYS + 3 * s;
    work[at] % 0x2_0000 == start && same_words(sat, dissat, work[at + 1], work[at + 2])
}

// The newest table of a policy at these probabilities.
pub fn find(work: &[u64], number: u16, sat: f64, dissat: Option<f64>) -> Option<u16>
    requires { Kept work.now }
    ensures { result ≡ find_in work.now number sat dissat }
{
    let start = key_start(number, dissat);
    for n in (0..work[COUNT] as usize).rev() {
        if same_key(work, n, number, start, sat, dissat) {
            return Some(n as u16);
        }
    }
    None
}

// The word of a dissatisfaction probability; 0 where there is none.
fn dissat_word(dissat: Option<f64>) -> u64
    ensures { Holds dissat result }
{
    match dissat {
        Some(p) => word_of_float(p),
        None => 0,
    }
}

// Writes the key of table s.
fn put_key(work: &mut [u64], s: usize, number: u16, sat: f64, dissat: Option<f64>, len: usize)
    requires { (length work.old ≡ work_words) × ((s < max_tables) × (len ≤ max_entries)) }
    ensures { KeyPut work.old work.new s number sat dissat len }
{
    let at = KEYS + 3 * s;
    let start = key_start(number, dissat);
    let sat_word = word_of_float(sat);
    let word = dissat_word(dissat);
    work[at] = start + len as u64 * 0x2_0000;
    work[at + 1] = sat_word;
    work[at + 2] = word;
}

// Four entries in one word.
fn four(a: u16, b: u16, c: u16, d: u16) -> u64
    ensures { Fours a b c d result }
{
    a as u64 + b as u64 * 0x1_0000 + c as u64 * 0x1_0000_0000 + d as u64 * 0x1_0000_0000_0000
}

// Writes the first len entries into a row of words.
fn put_entries(row: &mut [u64], entries: [u16; 128], len: usize)
    requires { (length row.old ≡ 32) × (len ≤ max_entries) }
    ensures { RowPut row.old row.new entries len }
{
    let words = len.div_ceil(4);
    for k in 0..words {
        let j = 4 * k;
        row[k] = four(entries[j], entries[j + 1], entries[j + 2], entries[j + 3]);
    }
}

// Remembers the first len entries as the newest table, unless there is room for no more.
pub fn store(
    work: &mut [u64],
    number: u16,
    sat: f64,
    dissat: Option<f64>,
    entries: [u16; 128],
    len: usize,
) -> Option<u16>
    requires { Kept work.old × (len ≤ max_entries) }
    ensures { Stores work.old work.new (slot number sat dissat (take len entries)) result }
{
    let s = work[COUNT] as usize;
    if MAX_TABLES <= s {
        return None;
    }
    let at = ENTRIES + 32 * s;
    put_entries(&mut work[at..at + 32], entries, len);
    put_key(work, s, number, sat, dissat, len);
    work[COUNT] = s as u64 + 1;
    Some(s as u16)
}

// How many entries table s has.
pub fn length_of(work: &[u64], s: u16) -> usize
    requires { Kept work.now × (s < table_count work.now) }
    ensures { result ≡ length (slot_at work.now s).entries }
{
    let key = work[KEYS + 3 * (s as usize)];
    let len = (key / 0x2_0000) as usize;
    // Not by `min`: with it clang knows the length's range no more, and i686 divides by a library's routine for each pair.
    if len < MAX_ENTRIES { len } else { MAX_ENTRIES }
}

// Entry j of table s.
pub fn entry(work: &[u64], s: u16, j: usize) -> u16
    requires { Kept work.now × ((s < table_count work.now) × (j < length (slot_at work.now s).entries)) }
    ensures { result ≡ get_or (slot_at work.now s).entries j 0 }
{
    let at = ENTRIES + 32 * (s as usize);
    let word = work[at + j / 4];
    let shift = 16 * (j % 4);
    ((word >> shift) % 0x1_0000) as u16
}
