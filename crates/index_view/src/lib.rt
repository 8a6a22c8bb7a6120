// The index of a tree as a viewer reads it: which record holds a byte of the script, and how deep a record stands.
//
// The contracts cite specs/View.antt.
#![tactic(auto)]

ghost use Rattle.std.specs.Prelude.{◌≡◌, ◌<◌};
ghost use Rattle.index_view.specs.View as View;
ghost use Rattle.index_view.specs.View.{count, type_in, height_in, first_in, length_in};

// The bytes of an entry: the packed type, the height, the first byte and the length of its fragment in the script, of four bytes each.
const ENTRY: usize = 16;

const HEIGHT: usize = 4;

const FIRST: usize = 8;

const LENGTH: usize = 12;

// How many entries there are.
pub fn entries(index: &[u8]) -> usize
    ensures { result ≡ count index.now }
{
    index.len() / ENTRY
}

// The packed type of record i.
pub fn type_of(index: &[u8], i: usize) -> u32
    requires { i < count index.now }
    ensures { result ≡ type_in index.now i }
{
    records::u32_or_zero(index, ENTRY * i)
}

// The height of record i.
pub fn height_of(index: &[u8], i: usize) -> u32
    requires { i < count index.now }
    ensures { result ≡ height_in index.now i }
{
    records::u32_or_zero(index, ENTRY * i + HEIGHT)
}

// The first byte of record i in the script.
pub fn first_of(index: &[u8], i: usize) -> u32
    requires { i < count index.now }
    ensures { result ≡ first_in index.now i }
{
    records::u32_or_zero(index, ENTRY * i + FIRST)
}

// How many bytes record i has in the script.
pub fn length_of(index: &[u8], i: usize) -> u32
    requires { i < count index.now }
    ensures { result ≡ length_in index.now i }
{
    records::u32_or_zero(index, ENTRY * i + LENGTH)
}

// Whether record i holds a byte of the script.
fn holds(index: &[u8], i: usize, at: u64) -> bool
    requires { i < count index.now }
    ensures { result ≡ View.holds index.now i at }
{
    let first = first_of(index, i) as u64;
    let length = length_of(index, i) as u64;
    first <= at && at < first + length
}

// The first record that holds a byte of the script, as many as there are where none does.
pub fn innermost(index: &[u8], at: u64) -> usize
    ensures { result ≡ View.innermost index.now at }
{
    let n = entries(index);
    for i in 0..n {
        if holds(index, i, at) {
            return i;
        }
    }
    n
}

// How many records after record i hold a byte of the script.
pub fn depth(index: &[u8], i: usize, at: u64) -> usize
    requires { i < count index.now }
    ensures { result ≡ View.depth index.now i at }
{
    let n = entries(index);
    let mut deep = 0;
    for k in i + 1..n {
        if holds(index, k, at) {
            deep += 1;
        }
    }
    deep
}
