// What a spend of a tree costs, in whole bytes. The crate `witness_entry` has the entries; these call them.
ghost use Rattle.std.specs.Prelude.{◌≡◌};
ghost use Rattle.witness_entry.specs.Witness.{work_words, WitnessPromise};

// What a spend of a tree costs: the number of document 02, in `found` whether there is a way to satisfy the tree, and in `smallest` and
// `largest` the fewest and the most bytes of a witness that does; zeros on a refusal. Work memory is zero afterwards.
#[unsafe(no_mangle)]
pub extern "C" fn claspwillow_witness(
    context: u32,
    tree: &[u8],
    work: &mut [u64],
    found: &mut u32,
    smallest: &mut u64,
    largest: &mut u64,
) -> u32
    ensures { WitnessPromise context tree.now work.old result
        found.new smallest.new largest.new work.new }
{
    witness_entry::claspwillow_witness(context, tree, work, found, smallest, largest)
}

// The one length of work memory that the entry takes, in words.
#[unsafe(no_mangle)]
pub extern "C" fn claspwillow_witness_work() -> usize
    ensures { result ≡ work_words }
{
    witness_entry::claspwillow_witness_work()
}
