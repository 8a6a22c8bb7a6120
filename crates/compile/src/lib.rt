// Compiling a policy into work memory that is lent: the policy is read, its root searched, the cheapest tree of base B chosen, which must be
// safe, and written.
//
// The contract of `compile` is the definition's compile_read (definition, specs/Compile.antt) by specs/Answers.antt. Work memory may hold
// anything before, and holds anything after.
#![tactic(auto)]

ghost use Rattle.std.specs.Prelude.{◌≡◌, length, []};
ghost use Rattle.memory.specs.Layout.{work_words, node_count};
ghost use Rattle.policies.specs.Array.{policy_at};
ghost use Rattle.policies.specs.Reading.{read_policy};
ghost use Rattle.definition.specs.Refusals.{state};
ghost use Rattle.definition.specs.Tables.{cost_at};
ghost use Rattle.definition.specs.Compile.{root_probs, best_compilation, fitting, compile_policy, compile_read};
ghost use Rattle.nodes.specs.Words.{node_at};
ghost use Rattle.nodes.specs.Views.{seen};
ghost use Rattle.compile.specs.Answers.{Compiles, Choosable, Picks, Whole, Finds, Writable};

use choice::Want;
use contexts::Context;
use refusals::Refusal;

// What a policy is compiled to: how many bytes were written, the bits of the tree's cost, whether that is never, and the nodes used.
#[derive(Clone, Copy)]
pub struct Compiled {
    pub bytes: usize,
    pub cost: u64,
    pub never: u32,
    pub nodes: usize,
}

// Whether the type of node e is safe.
fn is_safe(work: &[u64], e: u16) -> bool
    requires { length work.now ≡ work_words }
    ensures { result ≡ (node_at work.now e).ty.mall.safe }
{
    nodes::node(work, e).ty.mall.safe
}

// The cheapest entry of table s of base B, which must be safe.
fn pick(work: &[u64], s: u16) -> Result<u16, Refusal>
    requires { Choosable work.now s }
    ensures { Picks work.now s result }
{
    let Some(e) = choice::choose(work, s, 1.0, None, Want::Root) else {
        return Err(Refusal::LimitsExceeded);
    };
    if is_safe(work, e) {
        return Ok(e);
    }
    Err(Refusal::TopLevelNonSafe)
}

// The node of a policy's tree.
fn find(context: Context, pol: &[u64], work: &mut [u64], root: usize) -> Result<u16, Refusal>
    requires { Whole pol.now root × (length work.old ≡ work_words) }
    ensures { Finds (best_compilation context (policy_at pol.now root) (state 0 [])) pol.now result work.new }
{
    nodes::begin(work);
    let s = search::search(context, pol, work, root, 1.0, None)?;
    pick(work, s)
}

// Writes the tree of node e.
fn put(pol: &[u64], work: &[u64], e: u16, out: &mut [u8]) -> Result<Compiled, Refusal>
    requires { Writable pol.now work.now e }
    ensures { Compiles (fitting (length out.old) (seen pol.now work.now e).tree (cost_at root_probs (seen pol.now work.now e)) (node_count work.now)) out.old out.new result }
{
    let Some(bytes) = output::write(pol, work, e, out) else {
        return Err(Refusal::OutputTooSmall);
    };
    let price = choice::price(work, e, 1.0, None);
    Ok(Compiled {
        bytes,
        cost: price.bits(),
        never: price.never(),
        nodes: nodes::count(work),
    })
}

// Compiles the policy of number root.
fn compile_root(
    context: Context,
    pol: &[u64],
    work: &mut [u64],
    root: usize,
    out: &mut [u8],
) -> Result<Compiled, Refusal>
    requires { Whole pol.now root × (length work.old ≡ work_words) }
    ensures compiles { Compiles (compile_policy context (length out.old) (policy_at pol.now root)) out.old out.new result }
    ensures work_len { length work.new ≡ work_words }
{
    let e = find(context, pol, work, root)?;
    put(pol, work, e, out)
}

// Compiles the policy that the bytes write. The array has its one length, so BadWork is never answered.
pub fn compile(
    context: Context,
    policy: &[u8],
    out: &mut [u8],
    work: &mut [u64],
) -> Result<Compiled, Refusal>
    requires { length work.old ≡ work_words }
    ensures compiles { Compiles (compile_read context (length out.old) (read_policy policy.now)) out.old out.new result }
    ensures work_len { length work.new ≡ work_words }
{
    let mut pol = [0u64; 2560];
    let root = classes::read_classified(policy, &mut pol)?;
    compile_root(context, &pol, work, root, out)
}
