// Whether a line of the stored list gives the answer that the port gives, and how many lines do.
//
// The contracts cite specs/Verdicts.antt, which judges by the definition of compile.
#![tactic(auto)]

ghost use Rattle.std.specs.Prelude.{◌≡◌, ◌*◌, ◌^◌, ◌<◌, ◌≤◌, length};
ghost use Rattle.memory.specs.Layout.{work_words};
ghost use Rattle.oracle_lines.specs.Lines.{line_of};
ghost use Rattle.oracle_lines.specs.Reads.{said_in};
ghost use Rattle.oracle_verdicts.specs.Verdicts.{Judges, counted as Verdicts·counted};

use oracle_answers::agrees;
use oracle_lines::{Case, Said, read_line};

// What comes of a line. Where it differs: the number, the length of the output, the bits of the cost, whether it is never, and the nodes that the port gave.
#[derive(Clone, Copy)]
pub enum Verdict {
    Passed,
    Agrees,
    Differs(u32, u64, u64, u32, u64),
    Broken,
}

// How many lines agree, differ and are broken.
#[derive(Clone, Copy)]
pub struct Tally {
    pub agree: u64,
    pub differ: u64,
    pub broken: u64,
}

// Compiles the policy of a case and compares.
fn judge_case(said: Said, policy: &[u8], stored: &[u8], out: &mut [u8], work: &mut [u64]) -> Verdict
    requires { (said.policy ≤ length policy.now) × (said.output ≤ length stored.now) × (length work.old ≡ work_words) }
    ensures { Judges (said_in said policy.now stored.now) out.old work.old result out.new work.new }
{
    let p = said.policy;
    let o = said.output;
    let mut bytes = 0;
    let mut cost = 0;
    let mut never = 0;
    let mut nodes = 0;
    let number = claspwillow::claspwillow_compile(
        said.context,
        &policy[..p],
        out,
        work,
        &mut bytes,
        &mut cost,
        &mut never,
        &mut nodes,
    );
    let n = bytes as usize;
    if agrees(said, number, &out[..n], &stored[..o], cost, never, nodes) {
        return Verdict::Agrees;
    }
    Verdict::Differs(number, bytes, cost, never, nodes)
}

// What comes of a line: rooms for a policy and an output, each of at least half the line, an output and work memory are lent.
pub fn judge_line(
    line: &[u8],
    policy: &mut [u8],
    stored: &mut [u8],
    out: &mut [u8],
    work: &mut [u64],
) -> Verdict
    requires { (length line.now ≤ 2 * length policy.old) × (length line.now ≤ 2 * length stored.old) × (length work.old ≡ work_words) }
    ensures { Judges (line_of line.now) out.old work.old result out.new work.new }
{
    match read_line(line, policy, stored) {
        Case::Passed => Verdict::Passed,
        Case::Says(said) => judge_case(said, policy, stored, out, work),
        Case::Broken => Verdict::Broken,
    }
}

// The counts with one verdict more.
pub fn counted(t: Tally, v: Verdict) -> Tally
    requires { (t.agree < 2 ^ 32) × (t.differ < 2 ^ 32) × (t.broken < 2 ^ 32) }
    ensures { result ≡ Verdicts·counted t v }
{
    match v {
        Verdict::Passed => t,
        Verdict::Agrees => Tally {
            agree: t.agree + 1,
            differ: t.differ,
            broken: t.broken,
        },
        Verdict::Differs(_, _, _, _, _) => Tally {
            agree: t.agree,
            differ: t.differ + 1,
            broken: t.broken,
        },
        Verdict::Broken => Tally {
            agree: t.agree,
            differ: t.differ,
            broken: t.broken + 1,
        },
    }
}
