// Where each fragment of a tree stands in its script. The crate `index_entry` has the entries; these call them.
ghost use Rattle.std.specs.Prelude.{◌≡◌};
ghost use Rattle.index_memory.specs.Memory.{work_words};
ghost use Rattle.index_entry.specs.Index.{IndexPromise, FindPromise};

// The index of a tree: the number of document 02, the index in `out`, 16 bytes for each record, and in `bytes` how many it has, 0 on a refusal. Work memory
// is zero afterwards.
#[unsafe(no_mangle)]
pub extern "C" fn claspwillow_index(
    context: u32,
    tree: &[u8],
    out: &mut [u8],
    work: &mut [u64],
    bytes: &mut u64,
) -> u32
    ensures { IndexPromise context tree.now out.old work.old result
        out.new bytes.new work.new }
{
    index_entry::claspwillow_index(context, tree, out, work, bytes)
}

// The one length of work memory that the entry takes, in words.
#[unsafe(no_mangle)]
pub extern "C" fn claspwillow_index_work() -> usize
    ensures { result ≡ work_words }
{
    index_entry::claspwillow_index_work()
}

// Looks byte `at` of the script up in the index of a tree: the number of document 02, in `found` whether the script has that byte, and in `it` the
// innermost fragment that holds it, by its record; zeros where there is none and on a refusal. Work memory is zero afterwards.
#[unsafe(no_mangle)]
pub extern "C" fn claspwillow_find(
    context: u32,
    tree: &[u8],
    index: &[u8],
    at: u64,
    work: &mut [u64],
    found: &mut u32,
    it: &mut u32,
) -> u32
    ensures { FindPromise context tree.now index.now at work.old result
        found.new it.new work.new }
{
    index_entry::claspwillow_find(context, tree, index, at, work, found, it)
}

// The one length of work memory that the entry takes, in words.
#[unsafe(no_mangle)]
pub extern "C" fn claspwillow_find_work() -> usize
    ensures { result ≡ work_words }
{
    index_entry::claspwillow_find_work()
}
