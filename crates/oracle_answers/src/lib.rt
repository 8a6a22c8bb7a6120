// What was given for a case of the stored list: whether it is what the case's line says, and how the list writes it, on standard output.
//
// The contract of `agrees` cites specs/Answers.antt. No contract can say what is written to standard output; a write there that fails is passed over.
#![tactic(auto)]

ghost use Rattle.std.specs.Prelude.{◌≡◌, ◌<◌};
ghost use Rattle.oracle_answers.specs.Answers.{answers};

use oracle_lines::Said;

// Whether what was given for a case is what its line says: the number, the output, the bits of the cost, whether it is never, and the nodes.
pub fn agrees(
    said: Said,
    number: u32,
    written: &[u8],
    stored: &[u8],
    cost: u64,
    never: u32,
    nodes: u64,
) -> bool
    ensures { result ≡ answers said number written.now stored.now cost never nodes }
{
    let same = written == stored;
    let told = (cost == said.cost) & (never == said.never);
    (number == said.number) & (same & (told & (nodes == said.nodes as u64)))
}

// The upper-case hexadecimal digit of a value.
fn digit_of(d: u8) -> u8
    requires { d < 16 }
{
    if d < 10 { 48 + d } else { 55 + d }
}

// Writes the two digits of a byte.
fn show_byte(rt: &impl Print, b: u8) {
    let text = [digit_of(b / 16), digit_of(b % 16)];
    let _ = rt.write_all(&text);
}

// Writes records as the list has them.
fn show_records(rt: &impl Print, s: &[u8]) {
    if s.len() == 0 {
        let _ = rt.write_all(b"-");
        return;
    }
    for i in 0..s.len() {
        show_byte(rt, s[i]);
    }
}

// Writes 64 bits as the list has them.
fn show_bits(rt: &impl Print, w: u64) {
    for b in &w.to_be_bytes() {
        show_byte(rt, *b);
    }
}

// Writes a cost as the list has it.
fn show_cost(rt: &impl Print, cost: u64, never: u32) {
    if never == 1 {
        let _ = rt.write_all(b"-");
        return;
    }
    show_bits(rt, cost);
}

// Writes what was given for a case as a line of the list ends.
pub fn show_answer(rt: &impl Print, number: u32, output: &[u8], cost: u64, never: u32, nodes: u64) {
    let _ = print!(rt; "{number}");
    let _ = rt.write_all(b" ");
    show_records(rt, output);
    let _ = rt.write_all(b" ");
    show_cost(rt, cost, never);
    let _ = rt.write_all(b" ");
    let _ = print!(rt; "{nodes}");
}
