// What the replay writes to standard output; a write that fails is passed over. Its functions are safe and end; no contract can say what they write.
use oracle_answers::show_answer;
use oracle_verdicts::{Tally, Verdict};

fn show_place(rt: &impl Print, n: u64) {
    let _ = rt.write_all(b"line ");
    let _ = print!(rt; "{n}");
}

fn show_differing(
    rt: &impl Print,
    n: u64,
    number: u32,
    output: &[u8],
    cost: u64,
    never: u32,
    nodes: u64,
) {
    show_place(rt, n);
    let _ = rt.write_all(b" differs: the port gives ");
    show_answer(rt, number, output, cost, never, nodes);
    let _ = rt.write_all(b"\n");
}

// A line that differs or is broken, by its number.
pub fn show(rt: &impl Print, n: u64, v: Verdict, out: &[u8]) {
    match v {
        Verdict::Passed => {}
        Verdict::Agrees => {}
        Verdict::Differs(number, bytes, cost, never, nodes) => {
            let length = bytes as usize;
            if length <= out.len() {
                show_differing(rt, n, number, &out[..length], cost, never, nodes);
            }
        }
        Verdict::Broken => {
            show_place(rt, n);
            let _ = rt.write_all(b" is broken\n");
        }
    }
}

pub fn show_tally(rt: &impl Print, t: Tally) {
    let _ = print!(rt; "{}", t.agree);
    let _ = rt.write_all(b" agree, ");
    let _ = print!(rt; "{}", t.differ);
    let _ = rt.write_all(b" differ, ");
    let _ = print!(rt; "{}", t.broken);
    let _ = rt.write_all(b" broken\n");
}
