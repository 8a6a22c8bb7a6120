// What changed between two trees. The crate `differ` has the entries; these call them.
ghost use Rattle.std.specs.Prelude.{◌≡◌};
ghost use Rattle.differ.specs.Differ.{work_words, DifferPromise};

// What changed between two trees: the number of document 02, the differences in `out`, eight bytes each, and in `differences` how many there
// are, 0 on a refusal. Work memory is zero afterwards.
#[unsafe(no_mangle)]
pub extern "C" fn claspwillow_differ(
    context: u32,
    left: &[u8],
    right: &[u8],
    out: &mut [u8],
    work: &mut [u64],
    differences: &mut u64,
) -> u32
    ensures { DifferPromise context left.now right.now out.old work.old result
        out.new differences.new work.new }
{
    differ::claspwillow_differ(context, left, right, out, work, differences)
}

// The one length of work memory that the entry takes, in words.
#[unsafe(no_mangle)]
pub extern "C" fn claspwillow_differ_work() -> usize
    ensures { result ≡ work_words }
{
    differ::claspwillow_differ_work()
}
