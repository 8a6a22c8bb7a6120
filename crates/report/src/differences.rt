// The differences of two trees on standard output: a line for each, the left tree's record, a bar and the right tree's.
//
// The contract cites `specs/TreeRecords.antt` of crate `walk`.
ghost use Rattle.std.specs.Prelude.{◌≡◌, ◌/◌, ◌<◌, length};
ghost use Rattle.walk.specs.TreeRecords.{start_of};

use std::io;

// How many bytes tell a difference: the record numbers, the left one first, of four bytes each.
const TOLD: usize = 8;

// Where record i of a tree begins.
fn record_start(tree: &[u8], i: usize) -> usize
    ensures { result ≡ start_of tree.now i }
{
    let mut at = 0;
    for n in 0..i {
        at = walk::record_end(tree, at);
    }
    at
}

// Writes record i of a tree.
pub fn say_record_at(rt: &impl Print, tree: &[u8], i: usize) -> io::Result<()> {
    let start = record_start(tree, i);
    let end = walk::record_end(tree, start);
    crate::say_record(rt, i, &tree[start..end])
}

// The line of difference j.
fn show_difference(
    rt: &impl Print,
    left: &[u8],
    right: &[u8],
    told: &[u8],
    j: usize,
) -> io::Result<()>
    requires { j < length told.now / 8 }
{
    let at = TOLD * j;
    say_record_at(rt, left, records::u32_or_zero(told, at) as usize)?;
    crate::say(rt, b" | ")?;
    say_record_at(rt, right, records::u32_or_zero(told, at + 4) as usize)?;
    crate::say(rt, b"\n")
}

// The line that says how many differences there are, and theirs.
pub fn show_all(rt: &impl Print, left: &[u8], right: &[u8], told: &[u8]) -> io::Result<()> {
    let count = told.len() / TOLD;
    if count == 0 {
        return crate::say(rt, b"differences none\n");
    }
    crate::say_line(rt, b"differences", count as u64)?;
    for j in 0..count {
        show_difference(rt, left, right, told, j)?;
    }
    Ok(())
}
