// The elements of the replay's stacks: ranges of the log, or few bytes held in place, and Script's numbers.
//
// Its contracts cite `specs/Elements.antt` (the bytes of an element), `specs/Signed.antt` (numbers by sign and size) and `script_machine`,
// specs/Numbers.antt and specs/Machine.antt (what the words make of bytes). No function asks anything of an element.
#![tactic(auto)]

ghost use Rattle.std.specs.Prelude.{◌≡◌, List, ℕ, ◌+◌, ◌<◌, ◌≤◌, eqb, length, get_or, take, drop, pos, ◌+ℤ◌, ◌-ℤ◌};
ghost use Rattle.words.specs.Bytes.{bytes_of};
ghost use Rattle.script_machine.specs.Numbers.{is_true, element, same};
ghost use Rattle.script_machine.specs.Machine.{may_branch};
ghost use Rattle.script_machine.specs.Numbers.{write, nonzero, equal};
ghost use Rattle.spend_elements.specs.Signed.{sign_bit, signed, int_of, value_in, Valued, ReadAs};
ghost use Rattle.spend_elements.specs.Elements.{held, small_length, range_length, bytes_in, tells, is_one};

use contexts::Context;

// A number by its sign and its size.
#[derive(Clone, Copy)]
pub struct Number {
    pub negative: bool,
    pub size: usize,
}

// From here on `len` says that the bytes are held in `at`.
const HELD: usize = 4294967296;

// An element: `len` bytes of the log from `at` on; or, if `len` is HELD and some more, so many bytes, which are the digits of `at`.
#[derive(Clone, Copy)]
pub struct Element {
    pub at: usize,
    pub len: usize,
}

// How many bytes an element has that is held in place: at most 5.
fn small_length(len: usize) -> usize
    requires { held ≤ len }
    ensures { result ≡ small_length len }
{
    (len - HELD).min(5)
}

// How many bytes a range has within a log of n bytes.
fn range_length(n: usize, at: usize, len: usize) -> usize
    ensures { result ≡ range_length n at len }
{
    len.min(n.saturating_sub(at))
}

// How many bytes an element has.
pub fn length_of(log: &[u8], e: Element) -> usize
    ensures { result ≡ length (bytes_in log.now e) }
{
    let len = e.len;
    if len < HELD {
        return range_length(log.len(), e.at, len);
    }
    small_length(len)
}

// Byte j of a range, 0 if it has none.
fn range_byte(log: &[u8], at: usize, len: usize, j: usize) -> u8
    ensures { result ≡ get_or (take len (drop at log.now)) j 0 }
{
    let n = log.len();
    if j < range_length(n, at, len) {
        let place = at + j;
        return log[place];
    }
    0
}

// Byte j of the first n digits of v in base 256, 0 if it has none.
fn small_byte(v: usize, n: usize, j: usize) -> u8
    requires { n ≤ 5 }
    ensures { result ≡ get_or (bytes_of n v) j 0 }
{
    if n <= j {
        return 0;
    }
    match j {
        0 => (v % 256) as u8,
        1 => (v / 256 % 256) as u8,
        2 => (v / 65536 % 256) as u8,
        3 => (v / 16777216 % 256) as u8,
        _ => (v / 4294967296 % 256) as u8,
    }
}

// Byte j of an element, 0 if it has none.
pub fn byte_of(log: &[u8], e: Element, j: usize) -> u8
    ensures { result ≡ get_or (bytes_in log.now e) j 0 }
{
    let len = e.len;
    if len < HELD {
        return range_byte(log, e.at, len, j);
    }
    small_byte(e.at, small_length(len), j)
}

// Whether a byte makes its element true, given whether it is the last.
fn tells(b: u8, last: bool) -> bool
    ensures { result ≡ tells b last }
{
    match b {
        0 => false,
        128 => !last,
        _ => true,
    }
}

// Whether IF, NOTIF, IFDUP and VERIFY take an element for true.
pub fn is_true(log: &[u8], e: Element) -> bool
    ensures { result ≡ is_true (bytes_in log.now e) }
{
    let n = length_of(log, e);
    for j in 0..n {
        if tells(byte_of(log, e, j), j + 1 == n) {
            return true;
        }
    }
    false
}

// Whether two elements have the same bytes.
pub fn same(log: &[u8], a: Element, b: Element) -> bool
    ensures { result ≡ same (bytes_in log.now a) (bytes_in log.now b) }
{
    let n = length_of(log, a);
    if n != length_of(log, b) {
        return false;
    }
    for j in 0..n {
        let x = byte_of(log, a, j);
        let y = byte_of(log, b, j);
        if x != y {
            return false;
        }
    }
    true
}

// Whether an element is the byte 1 alone.
fn is_one(log: &[u8], e: Element) -> bool
    ensures { result ≡ is_one (bytes_in log.now e) }
{
    length_of(log, e) == 1 && byte_of(log, e, 0) == 1
}

// Whether IF and NOTIF take an element.
pub fn may_branch(context: Context, log: &[u8], e: Element) -> bool
    ensures { result ≡ may_branch context (bytes_in log.now e) }
{
    match context {
        Context::Segwitv0 => true,
        Context::Tap => length_of(log, e) == 0 || is_one(log, e),
    }
}

// The element that a test pushes.
pub fn test(b: bool) -> Element
    ensures { (log : List ℕ) → bytes_in log result ≡ element b }
{
    if b {
        return Element {
            at: 1,
            len: HELD + 1,
        };
    }
    Element { at: 0, len: HELD }
}

// What the first four bytes of an element write, the least significant first.
fn value_of(log: &[u8], e: Element) -> usize
    ensures { Valued (bytes_in log.now e) result }
{
    let b0 = byte_of(log, e, 0) as usize;
    let b1 = byte_of(log, e, 1) as usize;
    let b2 = byte_of(log, e, 2) as usize;
    let b3 = byte_of(log, e, 3) as usize;
    b0 + b1 * 256 + b2 * 65536 + b3 * 16777216
}

// What the sign bit counts in a number of n bytes.
fn sign_bit(n: usize) -> usize
    requires { n ≤ 4 }
    ensures { result ≡ sign_bit n }
{
    match n {
        0 => 1,
        1 => 128,
        2 => 32768,
        3 => 8388608,
        _ => 2147483648,
    }
}

// The number that an element of at most 4 bytes is.
pub fn number_of(log: &[u8], e: Element) -> Option<Number>
    ensures { ReadAs (bytes_in log.now e) result }
{
    let n = length_of(log, e);
    if n > 4 {
        return None;
    }
    let value = value_of(log, e);
    let bit = sign_bit(n);
    if value < bit {
        return Some(Number {
            negative: false,
            size: value,
        });
    }
    Some(Number {
        negative: true,
        size: value - bit,
    })
}

// An element of n bytes held in place: a size, and what its sign bit counts if it is negative.
fn held_in(n: usize, negative: bool, size: usize, bit: usize) -> Element
    requires { (n ≤ 5) × (size < 4294967296) × (bit ≤ 549755813888) }
    ensures { (log : List ℕ) → bytes_in log result ≡ bytes_of n (size + signed negative bit) }
{
    if negative {
        return Element {
            at: size + bit,
            len: HELD + n,
        };
    }
    Element {
        at: size,
        len: HELD + n,
    }
}

// The element that writes a number.
pub fn written(negative: bool, size: usize) -> Element
    requires { size < 4294967296 }
    ensures { (log : List ℕ) → bytes_in log result ≡ write (int_of negative size) }
{
    if size == 0 {
        return held_in(0, false, 0, 0);
    }
    if size < 128 {
        return held_in(1, negative, size, 128);
    }
    if size < 32768 {
        return held_in(2, negative, size, 32768);
    }
    if size < 8388608 {
        return held_in(3, negative, size, 8388608);
    }
    if size < 2147483648 {
        return held_in(4, negative, size, 2147483648);
    }
    held_in(5, negative, size, 549755813888)
}

// The element that writes a difference.
fn difference(a: usize, b: usize) -> Element
    requires { (a < 4294967296) × (b < 4294967296) }
    ensures { (log : List ℕ) → bytes_in log result ≡ write (pos a -ℤ pos b) }
{
    if a < b {
        return written(true, b - a);
    }
    written(false, a - b)
}

// The element that writes the sum of two numbers.
pub fn sum(a: Number, b: Number) -> Element
    requires { (a.size < 2147483648) × (b.size < 2147483648) }
    ensures { (log : List ℕ) → bytes_in log result ≡ write (value_in a +ℤ value_in b) }
{
    match (a.negative, b.negative) {
        (true, true) => written(true, a.size + b.size),
        (true, false) => difference(b.size, a.size),
        (false, true) => difference(a.size, b.size),
        (false, false) => written(false, a.size + b.size),
    }
}

// Whether a number is not zero.
pub fn nonzero(a: Number) -> bool
    ensures { result ≡ nonzero (value_in a) }
{
    a.size != 0
}

// Whether two numbers are equal.
pub fn equal(a: Number, b: Number) -> bool
    ensures { result ≡ equal (value_in a) (value_in b) }
{
    let m = a.size;
    let n = b.size;
    if m != n {
        return false;
    }
    if m == 0 {
        return true;
    }
    a.negative == b.negative
}
