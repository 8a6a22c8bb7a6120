// Recorded spends run again. The crate `spend_entry` has the entries; these call them.
ghost use Rattle.std.specs.Prelude.{◌≡◌};
ghost use Rattle.spend_replay.specs.Replay.{replay_words, ReplayPromise};

// Runs every spend of a log again: the number of document 02, in `reports` eight bytes for each entry, and in `entries` how many there are, 0 on
// a refusal. Work memory is zero afterwards.
#[unsafe(no_mangle)]
pub extern "C" fn claspwillow_replay(
    log: &[u8],
    reports: &mut [u8],
    work: &mut [u64],
    entries: &mut u64,
) -> u32
    ensures { ReplayPromise log.now reports.old work.old result
        reports.new entries.new work.new }
{
    spend_entry::claspwillow_replay(log, reports, work, entries)
}

// The one length of work memory that the replay takes, in words.
#[unsafe(no_mangle)]
pub extern "C" fn claspwillow_replay_work() -> usize
    ensures { result ≡ replay_words }
{
    spend_entry::claspwillow_replay_work()
}
