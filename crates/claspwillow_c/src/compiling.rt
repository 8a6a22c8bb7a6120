// The tree check and compile, in one call or as a choice and a writing. The crate `claspwillow` has the entries; these call them.
ghost use Rattle.std.specs.Prelude.{◌≡◌};
ghost use Rattle.memory.specs.Layout.{work_words};
ghost use Rattle.trees.specs.Reading.{max_records};
ghost use Rattle.claspwillow.specs.Promises.{CheckPromise, CompilePromise, ChoosePromise, WritePromise};

// The tree check: document 01's number, and in `ty` the packed type of the root, 0 on a refusal. Work memory is zero afterwards.
#[unsafe(no_mangle)]
pub extern "C" fn claspwillow_check(
    context: u32,
    tree: &[u8],
    work: &mut [u64],
    ty: &mut u32,
) -> u32
    ensures { CheckPromise context tree.now work.old result ty.new work.new }
{
    claspwillow::claspwillow_check(context, tree, work, ty)
}

// The one length of work memory that the tree check takes, in words.
#[unsafe(no_mangle)]
pub extern "C" fn claspwillow_check_work() -> usize
    ensures { result ≡ max_records }
{
    claspwillow::claspwillow_check_work()
}

// Compiles a policy: document 01's number, the records of the tree in `out`, and how many bytes they are, the bits of the tree's cost, whether
// that is never (1, and then the bits are 0) and the nodes used, all four 0 on a refusal. Work memory is zero afterwards.
#[unsafe(no_mangle)]
pub extern "C" fn claspwillow_compile(
    context: u32,
    policy: &[u8],
    out: &mut [u8],
    work: &mut [u64],
    bytes: &mut u64,
    cost: &mut u64,
    never: &mut u32,
    nodes: &mut u64,
) -> u32
    ensures { CompilePromise context policy.now out.old work.old result out.new bytes.new cost.new never.new nodes.new work.new }
{
    claspwillow::claspwillow_compile(context, policy, out, work, bytes, cost, never, nodes)
}

// The one length of work memory that compile takes, in words.
#[unsafe(no_mangle)]
pub extern "C" fn claspwillow_compile_work() -> usize
    ensures { result ≡ work_words }
{
    claspwillow::claspwillow_compile_work()
}

// Chooses the tree of a policy: document 01's number, how many bytes the tree has, the bits of its cost, whether that is never (1, and then the bits are
// 0) and the nodes used, all four 0 on a refusal. Work memory holds the tree afterwards, and is zero on a refusal.
#[unsafe(no_mangle)]
pub extern "C" fn claspwillow_choose(
    context: u32,
    policy: &[u8],
    work: &mut [u64],
    bytes: &mut u64,
    cost: &mut u64,
    never: &mut u32,
    nodes: &mut u64,
) -> u32
    ensures { ChoosePromise context policy.now work.old result bytes.new cost.new never.new nodes.new work.new }
{
    claspwillow::claspwillow_choose(context, policy, work, bytes, cost, never, nodes)
}

// The one length of work memory that the choice takes, in words.
#[unsafe(no_mangle)]
pub extern "C" fn claspwillow_choose_work() -> usize
    ensures { result ≡ work_words }
{
    claspwillow::claspwillow_choose_work()
}

// Writes the tree that work memory holds, whoever filled it: document 01's number, the records of the tree in `out` and how many bytes they are, 0 on a
// refusal. Work memory is zero afterwards.
#[unsafe(no_mangle)]
pub extern "C" fn claspwillow_write(out: &mut [u8], work: &mut [u64], bytes: &mut u64) -> u32
    ensures { WritePromise out.old work.old result out.new bytes.new work.new }
{
    claspwillow::claspwillow_write(out, work, bytes)
}

// The one length of work memory that the writing takes, in words.
#[unsafe(no_mangle)]
pub extern "C" fn claspwillow_write_work() -> usize
    ensures { result ≡ work_words }
{
    claspwillow::claspwillow_write_work()
}
