// Columns of lines on standard output: spaces, and numbers at the right or the left of so many places. Each function ends at the first write that
// fails, with its error.
//
// Every function is safe and ends. No contract can say what is written to a file or a terminal.
#![tactic(auto)]

use report::say;
use std::io;

// Writes a space.
fn say_space(rt: &impl Print) -> io::Result<()> {
    say(rt, b" ")
}

// Writes so many spaces.
pub fn say_spaces(rt: &impl Print, n: usize) -> io::Result<()> {
    for _ in 0..n {
        say_space(rt)?;
    }
    Ok(())
}

// Writes a number at the right of so many places.
pub fn say_right(rt: &impl Print, n: u64, places: usize) -> io::Result<()> {
    print!(rt; "{n:places$}")
}

// Writes a number at the left of so many places.
pub fn say_left(rt: &impl Print, n: u64, places: usize) -> io::Result<()> {
    print!(rt; "{n:<places$}")
}

// Writes what is left of so many places where `n` of them are taken.
fn say_rest(rt: &impl Print, places: usize, n: usize) -> io::Result<()> {
    if n < places {
        return say_spaces(rt, places - n);
    }
    Ok(())
}

// Writes the letters that stand in the places of a row, closed up, at the left of so many places.
pub fn say_letters(rt: &impl Print, row: &mut [u8], places: usize) -> io::Result<()> {
    let n = names::close_up(row);
    say(rt, &row[..n])?;
    say_rest(rt, places, n)
}
