// One record: its whole length, its kind and the parts of its payload, read here for policies and for fragment trees alike.
//
// Its contracts cite `specs/RecordForm.antt`, `specs/Shapes.antt` and `specs/Payloads.antt`, and say them as answers by
// `specs/Answers.antt`. The laws that crates above cite stand in `proofs/Laws.antt`,
// `proofs/KindRanges.antt` and `proofs/Arities.antt`.
// A `bytes` that a function takes is the bytes of one whole record.
#![tactic(auto)]

ghost use Rattle.std.specs.Prelude.{◌≡◌, ◌≤◌, ◌<◌, drop, None, Some};
ghost use Rattle.records.specs.Numbers.{number_at, u16, u32, u64, u16s, max_count};
ghost use Rattle.records.specs.Shapes.{is_long, meant, shape_of, is_policy_kind, is_fragment_kind, arity};
ghost use Rattle.records.specs.Payloads as Payload;
ghost use Rattle.records.specs.Payloads.{payload_of, children_payload, threshold_fits, written_kind, width, number_in, k_in, count_in, key_at};
ghost use Rattle.records.specs.RecordForm.{record_length, kind_of, record_payload, policy_payload, fragment_payload};
ghost use Rattle.records.specs.Answers.{padded, parts_of};

// The largest number that a lock holds.
const MAX_LOCK: u64 = 2147483647;

// The most children or keys that a threshold has.
const MAX_COUNT: u16 = 16;

// The shape of a payload.
#[derive(Clone, Copy)]
pub enum Shape {
    Nothing,
    Number,
    Lock,
    OneChild,
    TwoChildren,
    ThreeChildren,
    Weighted,
    Threshold,
    Keys,
}

// Whether a record is of the form, and the parts of its payload: 0 where it has none, and where it is not of the form.
// `count` is the number of children or keys, and `children` has zeros past the children; keys stay in the record.
#[derive(Clone, Copy)]
pub struct Parts {
    pub fits: bool,
    pub number: u64,
    pub k: u16,
    pub count: usize,
    pub children: [u16; 16],
    pub left_weight: u32,
    pub right_weight: u32,
}

// The u16 at `at`, 0 where its bytes are not there.
pub fn u16_or_zero(s: &[u8], at: usize) -> u16
    ensures { result ≡ u16 s.now at }
{
    words::u16_at(s, at).unwrap_or(0)
}

// The u32 at `at`, 0 where its bytes are not there.
pub fn u32_or_zero(s: &[u8], at: usize) -> u32
    ensures { result ≡ u32 s.now at }
{
    words::u32_at(s, at).unwrap_or(0)
}

// The u64 at `at`, 0 where its bytes are not there.
pub fn u64_or_zero(s: &[u8], at: usize) -> u64
    ensures { result ≡ u64 s.now at }
{
    words::u64_at(s, at).unwrap_or(0)
}

// The whole length of the record that begins at `at`.
pub fn length_at(s: &[u8], at: usize) -> Option<usize>
    ensures { result ≡ record_length (drop at s.now) }
{
    let whole = u16_or_zero(s, at) as usize;
    if whole < 4 {
        return None;
    }
    if s.len() - at < whole {
        return None;
    }
    Some(whole)
}

// The kind's number as it is written in a record.
pub fn written_kind(bytes: &[u8]) -> u16
    ensures { result ≡ written_kind bytes.now }
{
    u16_or_zero(bytes, 2)
}

// Whether a number is a kind of keys of 64 bits.
fn is_long(kind: u16) -> bool
    ensures { result ≡ is_long kind }
{
    // A kind stays a number: a record or a node holds one, and the contract answers on every number.
    match kind {
        // Key.
        19 => true,
        // PkK, PkH.
        84..=85 => true,
        // Multi, MultiA.
        107..=108 => true,
        _ => false,
    }
}

// The kind of document 01 that a number stands for.
fn meant(kind: u16) -> u16
    ensures { result ≡ meant kind }
{
    // A kind stays a number: a record or a node holds one, and the contract answers on every number.
    match kind {
        // Key.
        19 => 3,
        // PkK, PkH.
        84..=85 => kind - 50,
        // Multi, MultiA.
        107..=108 => kind - 50,
        _ => kind,
    }
}

// The kind of a record, of document 01's: keys of 64 bits have the kinds of the others.
pub fn kind_of(bytes: &[u8]) -> u16
    ensures { result ≡ kind_of bytes.now }
{
    meant(written_kind(bytes))
}

// How many bytes the number of a key, a hash or a lock has in a record.
fn width_of(bytes: &[u8]) -> usize
    ensures { result ≡ width bytes.now }
{
    if is_long(written_kind(bytes)) {
        return 8;
    }
    4
}

// The number of a key, a hash or a lock that begins at `at` in a record; 0 where its bytes are not there. Four bytes hold no more than a u32.
fn number_at(bytes: &[u8], at: usize) -> u64
    ensures value { result ≡ number_at (width bytes.now) bytes.now at }
    ensures upper_bound { width bytes.now ≡ 4 → result < 4294967296 }
{
    if is_long(written_kind(bytes)) {
        return u64_or_zero(bytes, at);
    }
    u32_or_zero(bytes, at) as u64
}

// The shape of a kind's payload.
pub fn shape_of(kind: u16) -> Option<Shape>
    ensures { result ≡ shape_of kind }
{
    // A kind stays a number: a record or a node holds one, and the contract answers on every number.
    match kind {
        // Unsatisfiable, Trivial.
        1..=2 => Some(Shape::Nothing),
        // Key.
        3 => Some(Shape::Number),
        // After, Older.
        4..=5 => Some(Shape::Lock),
        // Sha256, Hash256, Ripemd160, Hash160.
        6..=9 => Some(Shape::Number),
        // And, Or, Thresh.
        10 => Some(Shape::TwoChildren),
        11 => Some(Shape::Weighted),
        12 => Some(Shape::Threshold),
        // False, True.
        32..=33 => Some(Shape::Nothing),
        // PkK, PkH.
        34..=35 => Some(Shape::Number),
        // After, Older.
        36..=37 => Some(Shape::Lock),
        // Sha256, Hash256, Ripemd160, Hash160.
        38..=41 => Some(Shape::Number),
        // Alt, Swap, Check, DupIf, Verify, NonZero, ZeroNotEqual.
        42..=48 => Some(Shape::OneChild),
        // AndB, AndV, OrB, OrD, OrC, OrI.
        49..=54 => Some(Shape::TwoChildren),
        // AndOr, Thresh.
        55 => Some(Shape::ThreeChildren),
        56 => Some(Shape::Threshold),
        // Multi, MultiA.
        57..=58 => Some(Shape::Keys),
        _ => None,
    }
}

// Whether a number is the kind of a policy's record.
pub fn is_policy_kind(kind: u16) -> bool
    ensures { result ≡ is_policy_kind kind }
{
    1 <= kind && kind <= 12
}

// Whether a number is the kind of a fragment's record.
pub fn is_fragment_kind(kind: u16) -> bool
    ensures { result ≡ is_fragment_kind kind }
{
    32 <= kind && kind <= 58
}

// How many children a fragment's record of this kind has, that has `count` children or keys.
pub fn arity(kind: u16, count: usize) -> usize
    ensures { result ≡ arity kind count }
{
    // A kind stays a number: a record or a node holds one, and the contract answers on every number.
    match kind {
        // Alt, Swap, Check, DupIf, Verify, NonZero, ZeroNotEqual.
        42..=48 => 1,
        // AndB, AndV, OrB, OrD, OrC, OrI.
        49..=54 => 2,
        // AndOr, Thresh.
        55 => 3,
        56 => count,
        _ => 0,
    }
}

// The number of a record of a key, a hash or a lock; 0 where its bytes are not there.
pub fn number_of(bytes: &[u8]) -> u64
    ensures value { result ≡ number_in bytes.now }
    ensures upper_bound { width bytes.now ≡ 4 → result < 4294967296 }
{
    number_at(bytes, 4)
}

// The k of a record of a threshold; 0 where its bytes are not there.
pub fn k_of(bytes: &[u8]) -> u16
    ensures { result ≡ k_in bytes.now }
{
    u16_or_zero(bytes, 4)
}

// The n of a record of a threshold; 0 where its bytes are not there.
pub fn count_of(bytes: &[u8]) -> u16
    ensures { result ≡ count_in bytes.now }
{
    u16_or_zero(bytes, 6)
}

// Key number j of a record of a Multi or a MultiA; 0 where its bytes are not there.
pub fn key_at(bytes: &[u8], j: u16) -> u64
    ensures { result ≡ key_at bytes.now j }
{
    let at = 8 + width_of(bytes) * (j as usize);
    number_at(bytes, at)
}

// The answer for a record that is not of the form.
fn unfit() -> Parts
    ensures { result ≡ parts_of None }
{
    Parts {
        fits: false,
        number: 0,
        k: 0,
        count: 0,
        children: [0; 16],
        left_weight: 0,
        right_weight: 0,
    }
}

// The answer for a record of the form, before the parts of its payload are set.
fn fitting() -> Parts
    ensures { result ≡ parts_of (Some Payload.nothing) }
{
    Parts {
        fits: true,
        number: 0,
        k: 0,
        count: 0,
        children: [0; 16],
        left_weight: 0,
        right_weight: 0,
    }
}

// `count` child numbers from `at` on, then zeros.
fn children_at(bytes: &[u8], at: usize, count: usize) -> [u16; 16]
    requires { (at ≤ 8) × (count ≤ max_count) }
    ensures { result ≡ padded (u16s bytes.now at count) }
{
    let mut children = [0; 16];
    for i in 0..count {
        children[i] = u16_or_zero(bytes, at + 2 * i);
    }
    children
}

// The parts of a record with no payload.
fn nothing(bytes: &[u8]) -> Parts
    ensures { result ≡ parts_of (payload_of Shape.Nothing bytes.now) }
{
    if bytes.len() == 4 {
        return fitting();
    }
    unfit()
}

// The parts of a record of a key or a hash.
fn number(bytes: &[u8]) -> Parts
    ensures { result ≡ parts_of (payload_of Shape.Number bytes.now) }
{
    if bytes.len() == 4 + width_of(bytes) {
        let mut parts = fitting();
        parts.number = number_of(bytes);
        return parts;
    }
    unfit()
}

// The parts of a record of a lock.
fn lock(bytes: &[u8]) -> Parts
    ensures { result ≡ parts_of (payload_of Shape.Lock bytes.now) }
{
    if bytes.len() == 8 {
        let number = number_of(bytes);
        if number < 1 {
            return unfit();
        }
        if MAX_LOCK < number {
            return unfit();
        }
        let mut parts = fitting();
        parts.number = number;
        return parts;
    }
    unfit()
}

// The parts of a record of `count` children.
fn some_children(bytes: &[u8], count: usize) -> Parts
    requires { count ≤ max_count }
    ensures { result ≡ parts_of (children_payload count bytes.now) }
{
    if bytes.len() == 4 + 2 * count {
        let children = children_at(bytes, 4, count);
        let mut parts = fitting();
        parts.count = count;
        parts.children = children;
        return parts;
    }
    unfit()
}

// The parts of a record of an Or.
fn weighted(bytes: &[u8]) -> Parts
    ensures { result ≡ parts_of (payload_of Shape.Weighted bytes.now) }
{
    if bytes.len() == 16 {
        let children = children_at(bytes, 4, 2);
        let mut parts = fitting();
        parts.count = 2;
        parts.children = children;
        parts.left_weight = u32_or_zero(bytes, 8);
        parts.right_weight = u32_or_zero(bytes, 12);
        return parts;
    }
    unfit()
}

// Whether a record is k, n and then n numbers of `width` bytes, with 1 ≤ k ≤ n ≤ 16.
fn threshold_fits(bytes: &[u8], width: usize) -> bool
    requires { width ≤ 8 }
    ensures { result ≡ threshold_fits width bytes.now }
{
    let k = u16_or_zero(bytes, 4);
    let n = u16_or_zero(bytes, 6);
    if k < 1 {
        return false;
    }
    if n < k {
        return false;
    }
    if MAX_COUNT < n {
        return false;
    }
    bytes.len() == 8 + width * (n as usize)
}

// The parts of a record of a Thresh.
fn threshold(bytes: &[u8]) -> Parts
    ensures { result ≡ parts_of (payload_of Shape.Threshold bytes.now) }
{
    if threshold_fits(bytes, 2) {
        let count = u16_or_zero(bytes, 6) as usize;
        let children = children_at(bytes, 8, count);
        let mut parts = fitting();
        parts.k = u16_or_zero(bytes, 4);
        parts.count = count;
        parts.children = children;
        return parts;
    }
    unfit()
}

// The parts of a record of a Multi or a MultiA.
fn keys(bytes: &[u8]) -> Parts
    ensures { result ≡ parts_of (payload_of Shape.Keys bytes.now) }
{
    if threshold_fits(bytes, width_of(bytes)) {
        let mut parts = fitting();
        parts.k = u16_or_zero(bytes, 4);
        parts.count = u16_or_zero(bytes, 6) as usize;
        return parts;
    }
    unfit()
}

// The parts of a whole record of this shape.
pub fn parts_of(shape: Shape, bytes: &[u8]) -> Parts
    ensures { result ≡ parts_of (payload_of shape bytes.now) }
{
    match shape {
        Shape::Nothing => nothing(bytes),
        Shape::Number => number(bytes),
        Shape::Lock => lock(bytes),
        Shape::OneChild => some_children(bytes, 1),
        Shape::TwoChildren => some_children(bytes, 2),
        Shape::ThreeChildren => some_children(bytes, 3),
        Shape::Weighted => weighted(bytes),
        Shape::Threshold => threshold(bytes),
        Shape::Keys => keys(bytes),
    }
}

// The parts of a whole record.
pub fn record_parts(bytes: &[u8]) -> Parts
    ensures { result ≡ parts_of (record_payload bytes.now) }
{
    match shape_of(kind_of(bytes)) {
        Some(shape) => parts_of(shape, bytes),
        None => unfit(),
    }
}

// The parts of a whole record of a policy.
pub fn policy_parts(bytes: &[u8]) -> Parts
    ensures { result ≡ parts_of (policy_payload bytes.now) }
{
    if is_policy_kind(kind_of(bytes)) {
        return record_parts(bytes);
    }
    unfit()
}

// The parts of a whole record of a fragment tree.
pub fn fragment_parts(bytes: &[u8]) -> Parts
    ensures { result ≡ parts_of (fragment_payload bytes.now) }
{
    if is_fragment_kind(kind_of(bytes)) {
        return record_parts(bytes);
    }
    unfit()
}
