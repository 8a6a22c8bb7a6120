// A cost as a number, on standard output: whole bytes and six decimals, cut, or with a power of ten where it is 2^64 or more.
use std::io;

fn whole_of(x: f64) -> Option<u64> {
    if x > -1.0 {
        if x < 18446744073709551616.0 {
            return Some(std::num::truncating_f64_to_u64(x));
        }
    }
    None
}

// Writes a point and six digits.
fn say_millionths(rt: &impl Print, n: u64) -> io::Result<()> {
    let digits = n % 1_000_000;
    print!(rt; ".{digits:06}")
}

// Writes a number, of which the whole part is given.
fn say_parts(rt: &impl Print, whole: u64, x: f64) -> io::Result<()> {
    let rest = x - std::num::nearest_u64_to_f64(whole);
    print!(rt; "{whole}")?;
    match whole_of(rest * 1000000.0) {
        Some(n) => say_millionths(rt, n),
        None => Ok(()),
    }
}

// Writes a number of 2^64 or more, with its power of ten.
fn say_large(rt: &impl Print, x: f64) -> io::Result<()> {
    let mut y = x;
    let mut power: u64 = 0;
    // A `while`, since the power is written after it.
    while power < 400 {
        if y < 10.0 {
            break;
        }
        y = y / 10.0;
        power += 1;
    }
    match whole_of(y) {
        Some(n) => {
            say_parts(rt, n, y)?;
            print!(rt; "e{power}")
        }
        None => Ok(()),
    }
}

// Writes a space and the number whose bits are given.
pub fn say_amount(rt: &impl Print, bits: u64) -> io::Result<()> {
    let x = words::float_of_word(bits);
    print!(rt; " ")?;
    match whole_of(x) {
        Some(n) => say_parts(rt, n, x),
        None => say_large(rt, x),
    }
}
