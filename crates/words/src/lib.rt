// What a word and a byte hold, for every crate above: an f64 in a u64 and back, which floats are costs, little-endian numbers in a slice of
// bytes, and the clearing of work memory.
//
// Its contracts cite `specs/Floats.antt`, `specs/Bytes.antt` and `specs/Memory.antt`. The laws that crates above
// cite stand in `proofs/Floats.antt`, `proofs/Bytes.antt`, `proofs/Stores.antt` and `proofs/Packing.antt`.
#![tactic(auto)]

ghost use Rattle.std.specs.Prelude.{◌≡◌};
ghost use Rattle.words.specs.Floats.{word_of_float, float_of_word, is_cost};
ghost use Rattle.words.specs.Bytes.{has_bytes, le_at, put_le};
ghost use Rattle.words.specs.Memory.{zeroed};

// The word of every NaN.
const NAN_WORD: u64 = 0x7ff8_0000_0000_0000;

// The word of infinity: above it, the sign bit aside, stand the NaNs.
const INFINITY_WORD: u64 = 0x7ff0_0000_0000_0000;

// The sign bit alone.
const SIGN_WORD: u64 = 0x8000_0000_0000_0000;

// The word of a float: its bits, and one pattern for every NaN.
pub fn word_of_float(x: f64) -> u64
    ensures { result ≡ word_of_float x }
{
    if x != x {
        return NAN_WORD;
    }
    f64::to_bits(x)
}

// The float of a word, whatever its bits.
pub fn float_of_word(w: u64) -> f64
    ensures { result ≡ float_of_word w }
{
    let magnitude = w % SIGN_WORD;
    if INFINITY_WORD < magnitude {
        return 0.0 / 0.0;
    }
    f64::from_bits(w)
}

// Whether a float is a cost: no NaN, and its sign bit clear.
pub fn is_cost(x: f64) -> bool
    ensures { result ≡ is_cost x }
{
    if x != x {
        return false;
    }
    let bits = f64::to_bits(x);
    bits < SIGN_WORD
}

// Whether s holds `width` bytes from `at` on.
pub fn has_bytes(s: &[u8], at: usize, width: usize) -> bool
    ensures { result ≡ has_bytes width s.now at }
{
    if s.len() < width {
        return false;
    }
    at <= s.len() - width
}

// The little-endian u16 at `at`, if both its bytes are there.
pub fn u16_at(s: &[u8], at: usize) -> Option<u16>
    ensures { result ≡ le_at 2 s.now at }
{
    if has_bytes(s, at, 2) {
        let b0 = s[at] as u16;
        let b1 = s[at + 1] as u16;
        return Some(b0 + b1 * 256);
    }
    None
}

// The little-endian u32 at `at`, if all four bytes are there.
pub fn u32_at(s: &[u8], at: usize) -> Option<u32>
    ensures { result ≡ le_at 4 s.now at }
{
    if has_bytes(s, at, 4) {
        let b0 = s[at] as u32;
        let b1 = s[at + 1] as u32;
        let b2 = s[at + 2] as u32;
        let b3 = s[at + 3] as u32;
        return Some(b0 + b1 * 256 + b2 * 65536 + b3 * 16777216);
    }
    None
}

// The little-endian u64 at `at`, if all eight bytes are there.
pub fn u64_at(s: &[u8], at: usize) -> Option<u64>
    ensures { result ≡ le_at 8 s.now at }
{
    let low = u32_at(s, at)?;
    let high = u32_at(s, at + 4)?;
    Some(low as u64 + high as u64 * 0x1_0000_0000)
}

// Writes v at `at`, little-endian, and says true; where two bytes are not there it writes nothing and says false.
pub fn put_u16(s: &mut [u8], at: usize, v: u16) -> bool
    ensures value { result ≡ has_bytes 2 s.old at }
    ensures s_after { s.new ≡ put_le 2 s.old at v }
{
    if has_bytes(s, at, 2) {
        s[at] = (v % 256) as u8;
        s[at + 1] = (v / 256) as u8;
        return true;
    }
    false
}

// Writes v at `at`, little-endian, and says true; where four bytes are not there it writes nothing and says false.
pub fn put_u32(s: &mut [u8], at: usize, v: u32) -> bool
    ensures value { result ≡ has_bytes 4 s.old at }
    ensures s_after { s.new ≡ put_le 4 s.old at v }
{
    if has_bytes(s, at, 4) {
        s[at] = (v % 256) as u8;
        s[at + 1] = (v / 256 % 256) as u8;
        s[at + 2] = (v / 65536 % 256) as u8;
        s[at + 3] = (v / 16777216) as u8;
        return true;
    }
    false
}

// Writes v at `at`, little-endian, and says true; where eight bytes are not there it writes nothing and says false.
pub fn put_u64(s: &mut [u8], at: usize, v: u64) -> bool
    ensures value { result ≡ has_bytes 8 s.old at }
    ensures s_after { s.new ≡ put_le 8 s.old at v }
{
    if has_bytes(s, at, 8) {
        put_u32(s, at, (v % 0x1_0000_0000) as u32);
        put_u32(s, at + 4, (v / 0x1_0000_0000) as u32);
        return true;
    }
    false
}

// Makes every word of work memory zero.
pub fn clear(work: &mut [u64])
    ensures { work.new ≡ zeroed work.old }
{
    work.fill(0);
}
