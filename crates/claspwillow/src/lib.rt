// The public entries of Claspwillow, which claspwillow_c exports to C. None asks anything of its caller.
//
// Each entry has a promise in specs/Promises.antt, which its contract cites; proofs/Determined.antt shows that any two outcomes that a
// promise allows are equal, and proofs/CheckLaws.antt what the check tells to the entries above. The parts of compile's entry cite specs/Results.antt.
#![tactic(auto)]

ghost use Rattle.std.specs.Prelude.{◌≡◌, true, length, Some};
ghost use Rattle.memory.specs.Layout.{work_words};
ghost use Rattle.trees.specs.Reading.{max_records};
ghost use Rattle.trees.specs.TreeCheck.{context_of};
ghost use Rattle.compile.specs.Answers.{Compiles};
ghost use Rattle.chosen.specs.Form.{most_bytes};
ghost use Rattle.chosen.specs.Chosen.{all_zero, chosen_of};
ghost use Rattle.claspwillow.specs.Results.{given_in, number_in, bytes_in, cost_in, never_in, nodes_in, Chooses, Puts};
ghost use Rattle.claspwillow.specs.Promises.{CheckPromise, given, CompilePromise, choice, ChoosePromise, writing, WritePromise};

use compile::Compiled;
use contexts::Context;
use refusals::Refusal;

// The one length of work memory that compile takes, in words.
const WORK_WORDS: usize = 612_360;

// What a refusal gives in place of the bytes written, the cost and the nodes used.
const NOT_GIVEN: u64 = 0;

// The tree check: document 01's number, and in `ty` the packed type of the root, 0 on a refusal. Work memory is zero afterwards.
pub fn claspwillow_check(context: u32, tree: &[u8], work: &mut [u64], ty: &mut u32) -> u32
    ensures { CheckPromise context tree.now work.old result ty.new work.new }
{
    match trees::check(context, tree, work) {
        Ok(t) => {
            *ty = t.pack();
            0
        }
        Err(e) => {
            *ty = 0;
            e.number()
        }
    }
}

// The one length of work memory that the tree check takes, in words.
pub fn claspwillow_check_work() -> usize
    ensures { result ≡ max_records }
{
    trees::MAX_RECORDS
}

// The context that has the number, where one has.
pub fn context_of(context: u32) -> Context
    ensures { (x : Context) → context_of context ≡ Some x → result ≡ x }
{
    if context == 0 {
        Context::Segwitv0
    } else {
        Context::Tap
    }
}

// Compiles in a context, where work memory has its one length.
fn compile_in(
    context: Context,
    policy: &[u8],
    out: &mut [u8],
    work: &mut [u64],
) -> Result<Compiled, Refusal>
    ensures { Compiles (given_in context policy.now out.old work.old) out.old out.new result }
{
    if work.len() != WORK_WORDS {
        return Err(Refusal::BadWork);
    }
    compile::compile(context, policy, out, work)
}

// Compiles in the context that has the number.
fn compile_numbered(
    context: u32,
    policy: &[u8],
    out: &mut [u8],
    work: &mut [u64],
) -> Result<Compiled, Refusal>
    ensures { Compiles (given context policy.now out.old work.old) out.old out.new result }
{
    match context {
        0 => compile_in(Context::Segwitv0, policy, out, work),
        1 => compile_in(Context::Tap, policy, out, work),
        _ => Err(Refusal::BadContext),
    }
}

// Tells what compile gave: document 01's number, and how many bytes were written, the bits of the cost, whether that is never (1, and then the bits
// are 0) and the nodes used, all four 0 on a refusal.
fn tell(
    r: Result<Compiled, Refusal>,
    bytes: &mut u64,
    cost: &mut u64,
    never: &mut u32,
    nodes: &mut u64,
) -> u32
    ensures number { result ≡ number_in r }
    ensures bytes { bytes.new ≡ bytes_in r }
    ensures cost { cost.new ≡ cost_in r }
    ensures never { never.new ≡ never_in r }
    ensures nodes { nodes.new ≡ nodes_in r }
{
    match r {
        Ok(c) => {
            *bytes = c.bytes as u64;
            *cost = c.cost;
            *never = c.never;
            *nodes = c.nodes as u64;
            0
        }
        Err(e) => {
            *bytes = NOT_GIVEN;
            *cost = NOT_GIVEN;
            *never = 0;
            *nodes = NOT_GIVEN;
            e.number()
        }
    }
}

// Compiles a policy: document 01's number, the records of the tree in `out`, and how many bytes they are, the bits of the tree's cost, whether
// that is never (1, and then the bits are 0) and the nodes used, all four 0 on a refusal. Work memory is zero afterwards.
pub fn claspwillow_compile(
    context: u32,
    policy: &[u8],
    out: &mut [u8],
    work: &mut [u64],
    bytes: &mut u64,
    cost: &mut u64,
    never: &mut u32,
    nodes: &mut u64,
) -> u32
    ensures { CompilePromise context policy.now out.old work.old result out.new bytes.new cost.new never.new nodes.new work.new }
{
    let r = compile_numbered(context, policy, out, work);
    words::clear(work);
    tell(r, bytes, cost, never, nodes)
}

// The one length of work memory that compile takes, in words.
pub fn claspwillow_compile_work() -> usize
    ensures { result ≡ work_words }
{
    WORK_WORDS
}

// Chooses the tree of a policy and leaves its bytes in work memory. They go through an output of zeros that has room for every tree that may be chosen.
fn choose_through(
    context: u32,
    policy: &[u8],
    out: &mut [u8],
    work: &mut [u64],
) -> Result<Compiled, Refusal>
    requires { (length out.old ≡ most_bytes) × (all_zero out.old ≡ true) }
    ensures { Chooses (choice context policy.now work.old) work.old work.new result }
{
    match compile_numbered(context, policy, out, work) {
        Ok(c) => {
            chosen::hold(out, c.bytes, work);
            Ok(c)
        }
        Err(e) => {
            words::clear(work);
            Err(e)
        }
    }
}

// Chooses the tree of a policy and leaves its bytes in work memory.
fn choose(context: u32, policy: &[u8], work: &mut [u64]) -> Result<Compiled, Refusal>
    ensures { Chooses (choice context policy.now work.old) work.old work.new result }
{
    let mut out = [0u8; 557056];
    choose_through(context, policy, &mut out, work)
}

// Chooses the tree of a policy: document 01's number, how many bytes the tree has, the bits of its cost, whether that is never (1, and then the bits are
// 0) and the nodes used, all four 0 on a refusal. Work memory holds the tree afterwards, and is zero on a refusal.
pub fn claspwillow_choose(
    context: u32,
    policy: &[u8],
    work: &mut [u64],
    bytes: &mut u64,
    cost: &mut u64,
    never: &mut u32,
    nodes: &mut u64,
) -> u32
    ensures { ChoosePromise context policy.now work.old result bytes.new cost.new never.new nodes.new work.new }
{
    let r = choose(context, policy, work);
    tell(r, bytes, cost, never, nodes)
}

// The one length of work memory that the choice takes, in words.
pub fn claspwillow_choose_work() -> usize
    ensures { result ≡ work_words }
{
    WORK_WORDS
}

// Writes the tree that a memory holds, where it fits.
fn put_held(out: &mut [u8], work: &[u64]) -> Result<usize, Refusal>
    ensures { Puts (writing (chosen_of work.now) (length out.old)) out.old out.new result }
{
    let Some(n) = chosen::tree_in(work) else {
        return Err(Refusal::BadWork);
    };
    if out.len() < n {
        return Err(Refusal::OutputTooSmall);
    }
    chosen::write(work, n, out);
    Ok(n)
}

// Writes the tree that work memory holds, whoever filled it: document 01's number, the records of the tree in `out` and how many bytes they are, 0 on a
// refusal. Work memory is zero afterwards.
pub fn claspwillow_write(out: &mut [u8], work: &mut [u64], bytes: &mut u64) -> u32
    ensures { WritePromise out.old work.old result out.new bytes.new work.new }
{
    let r = put_held(out, work);
    words::clear(work);
    match r {
        Ok(n) => {
            *bytes = n as u64;
            0
        }
        Err(e) => {
            *bytes = NOT_GIVEN;
            e.number()
        }
    }
}

// The one length of work memory that the writing takes, in words.
pub fn claspwillow_write_work() -> usize
    ensures { result ≡ work_words }
{
    WORK_WORDS
}
