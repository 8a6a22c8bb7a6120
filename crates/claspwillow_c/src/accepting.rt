// Whether a tree from elsewhere stands for a policy. The crate `accept_entry` has the entries; these call them.
ghost use Rattle.std.specs.Prelude.{◌≡◌};
ghost use Rattle.accept_entry.specs.Accept.{work_words, AcceptPromise};

// Whether a tree from elsewhere stands for a policy: 0, or the number of document 02. Work memory is zero afterwards.
#[unsafe(no_mangle)]
pub extern "C" fn claspwillow_accept(
    context: u32,
    policy: &[u8],
    tree: &[u8],
    work: &mut [u64],
) -> u32
    ensures { AcceptPromise context policy.now tree.now work.old result work.new }
{
    accept_entry::claspwillow_accept(context, policy, tree, work)
}

// The one length of work memory that the entry takes, in words.
#[unsafe(no_mangle)]
pub extern "C" fn claspwillow_accept_work() -> usize
    ensures { result ≡ work_words }
{
    accept_entry::claspwillow_accept_work()
}
