// The numbers that words write in ASCII: decimal ones of 32 bits, and 64 bits in hexadecimal digits.
//
// The contracts cite specs/Numbers.antt.
#![tactic(auto)]

ghost use Rattle.std.specs.Prelude.{◌≡◌, ◌^◌, ◌≤◌, length};
ghost use Rattle.numerals.specs.Numbers.{number_in};
ghost use Rattle.numerals.specs.Numbers.{digit as Numbers·digit, decimal as Numbers·decimal, bits as Numbers·bits};

// What is no digit has this value.
pub const NO_DIGIT: u8 = 16;

// The most digits of a decimal number, and the least number that is too large.
const MAX_DIGITS: usize = 10;

const TOO_LARGE: u64 = 4_294_967_296;

// The value of an upper-case hexadecimal digit, 16 for any other sign.
pub fn digit(b: u8) -> u8
    ensures { result ≡ Numbers·digit b }
{
    match b {
        48..=57 => b - 48,
        65..=70 => b - 55,
        _ => NO_DIGIT,
    }
}

// The number that the digits of a word write.
fn number_in(base: u64, word: &[u8]) -> Option<u64>
    requires { base ^ length word.now ≤ 2 ^ 64 }
    ensures { result ≡ number_in base word.now }
{
    let mut n = 0;
    for b in word {
        let d = digit(*b) as u64;
        if base <= d {
            return None;
        }
        n = n * base + d;
    }
    Some(n)
}

// A decimal number of 32 bits, in 1 to 10 digits.
pub fn decimal(word: &[u8]) -> Option<u32>
    ensures { result ≡ Numbers·decimal word.now }
{
    if word.is_empty() {
        return None;
    }
    if MAX_DIGITS < word.len() {
        return None;
    }
    let n = number_in(10, word)?;
    if TOO_LARGE <= n {
        return None;
    }
    Some(n as u32)
}

// 64 bits, in 16 hexadecimal digits.
pub fn bits(word: &[u8]) -> Option<u64>
    ensures { result ≡ Numbers·bits word.now }
{
    if word.len() == 16 {
        return number_in(16, word);
    }
    None
}
