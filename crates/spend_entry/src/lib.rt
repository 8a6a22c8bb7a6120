// The replay of a log of recorded spends: the entry, which claspwillow_c exports to C. It asks nothing of its caller.
//
// The entry's promise stands in `spend_replay`, specs/Replay.antt; proofs/Determined.antt there shows that it determines the outcome, and
// proofs/Laws.antt that entries don't affect one another. The inner contracts cite specs/Results.antt (reports in an output).
#![tactic(auto)]

ghost use Rattle.std.specs.Prelude.{◌≡◌, ◌+◌, ◌*◌, ◌-◌, ◌≤◌, length};
ghost use Rattle.refusals.specs.Numbers.{number_of};
ghost use Rattle.trees.specs.Fragment.{Fragment};
ghost use Rattle.walk.specs.TreeRecords.{TreeRecords, Written, fragment_at};
ghost use Rattle.walk.specs.Nodes.{AllPlaced};
ghost use Rattle.script_bytes.specs.Entries.{entries_below};
ghost use Rattle.spend_machine.specs.Verdicts.{verdict_number, verdict, reports};
ghost use Rattle.spend_log.specs.Places.{Lies, tree_in, tables_in};
ghost use Rattle.spend_stack.specs.Memory.{work_words, starts_in, Keeps};
ghost use Rattle.spend_judge.specs.Places.{entry_in, Lie, Stands};
ghost use Rattle.spend_judge.specs.Results.{report_number};
ghost use Rattle.spend_run.specs.Running.{Runs};
ghost use Rattle.spend_replay.specs.Replay.{replay_words, reports_in, replay_of, ReplayPromise};
ghost use Rattle.spend_entry.specs.Results.{put_numbers, put_reports, entries_from, Follow, Reported, Gives, Whole, wrong_length};

use contexts::Context;
use refusals::Refusal;
use script_leaves::Tables;
use spend_judge::{EntryAt, Verdict};
use spend_log::Offsets;

// The verdict on an entry: it is within the limits, and its run from its own stack is judged; or it is too large.
fn verdict_on(
    context: Context,
    log: &[u8],
    head: Offsets,
    tree: &[u8],
    root: usize,
    work: &mut [u64],
    e: EntryAt,
) -> Verdict
    requires { Runs context log.now head tree.now (starts_in work.old) root × Lie log.now e
        × (length work.old ≡ work_words) }
    ensures value { report_number result ≡ verdict_number (verdict context (tables_in log.now head) (fragment_at tree.now root)
        (entry_in log.now e)) }
    ensures keeps { Keeps work.old work.new }
{
    if spend_judge::small_entry(log, e) {
        let n = spend_judge::load(log, e.start, &mut work[0..spend_stack::ALT]);
        let m = spend_judge::begin(log, &work[0..spend_stack::ALT], n, e.outcomes);
        let r = spend_run::run_record(context, log, head, tree, root, work, m);
        return spend_judge::judge(log, &work[0..spend_stack::ALT], r, e.ending);
    }
    Verdict::TooLarge
}

// Writes a report as number i.
fn put_report(out: &mut [u8], i: usize, number: u32, verdict: u32)
    requires { 8 * i + 8 ≤ length out.old }
    ensures { out.new ≡ put_numbers out.old i number verdict }
{
    words::put_u32(out, 8 * i, number);
    words::put_u32(out, 8 * i + 4, verdict);
}

// Reports the entry that begins at `at` as number i, and gives where the next one begins.
fn report_entry(
    context: Context,
    log: &[u8],
    head: Offsets,
    tree: &[u8],
    root: usize,
    work: &mut [u64],
    at: usize,
    i: usize,
    out: &mut [u8],
) -> usize
    requires { Runs context log.now head tree.now (starts_in work.old) root × Stands log.now at
        × (length work.old ≡ work_words) × (8 * i + 8 ≤ length out.old) }
    ensures reported { Reported context (tables_in log.now head) (fragment_at tree.now root) log.now at i
        out.old out.new result }
    ensures keeps { Keeps work.old work.new }
{
    let e = spend_judge::entry_at(log, at);
    let verdict = verdict_on(context, log, head, tree, root, work, e);
    put_report(out, i, e.number, verdict.number());
    e.next
}

// Reports every entry, in order.
fn report_all(
    context: Context,
    log: &[u8],
    head: Offsets,
    tree: &[u8],
    root: usize,
    work: &mut [u64],
    out: &mut [u8],
)
    requires { Runs context log.now head tree.now (starts_in work.old) root × Follow log.now head.entries
        × (length work.old ≡ work_words) × (8 * length (entries_from log.now head.entries) ≤ length out.old) }
    ensures out_after { out.new ≡ put_reports out.old 0
        (reports context (tables_in log.now head) (fragment_at tree.now root)
        (entries_from log.now head.entries)) }
    ensures keeps { Keeps work.old work.new }
{
    let mut to = head.entries;
    let mut i = 0;
    // Entries are of unequal length.
    while to < log.len() {
        to = report_entry(context, log, head, tree, root, work, to, i, out);
        i += 1;
    }
}

// Whether the numbers of each of `count` records have whole entries in the log's tables.
fn has_entries(
    context: Context,
    log: &[u8],
    head: Offsets,
    tree: &[u8],
    starts: &[u64],
    count: usize,
) -> bool
    requires { Lies log.now head × AllPlaced tree.now starts.now (count - 1) }
    ensures { result ≡ entries_below context (tables_in log.now head) tree.now count }
{
    let tables = Tables {
        keys: &log[head.keys..head.key_hashes],
        key_hashes: &log[head.key_hashes..head.hashes32],
        hashes32: &log[head.hashes32..head.hashes20],
        hashes20: &log[head.hashes20..head.entries],
    };
    script_entry::all_entries(context, tree, tables, starts, count)
}

// The replay over a tree that the check passed.
fn replay_tree(
    context: Context,
    log: &[u8],
    head: Offsets,
    count: usize,
    tree: &[u8],
    out: &mut [u8],
    work: &mut [u64],
) -> Result<usize, Refusal>
    requires { Whole log.now head count × (tree.now ≡ tree_in log.now head) × Written tree.now × (length work.old ≡ work_words) }
    ensures gives { (f : Fragment) → TreeRecords tree.now f
        → Gives (reports_in context (tables_in log.now head) (length out.old)
        (entries_from log.now head.entries) f) out.old out.new result }
    ensures work_len_unchanged { length work.new ≡ length work.old }
{
    let n = walk::scan(tree, &mut work[spend_stack::STARTS..spend_stack::WORDS]);
    if has_entries(
        context,
        log,
        head,
        tree,
        &work[spend_stack::STARTS..spend_stack::WORDS],
        n,
    ) {
        if count <= out.len() / 8 {
            report_all(context, log, head, tree, n - 1, work, out);
            return Ok(count);
        }
        return Err(Refusal::OutputTooSmall);
    }
    Err(Refusal::NoEntry)
}

// The replay of a log that is not broken, where work memory has its one length.
fn replay_checked(
    log: &[u8],
    head: Offsets,
    count: usize,
    out: &mut [u8],
    work: &mut [u64],
) -> Result<usize, Refusal>
    requires { Whole log.now head count × (length work.old ≡ replay_words) }
    ensures gives { Gives (replay_of log.now out.old work.old) out.old out.new result }
    ensures work_len_unchanged { length work.new ≡ length work.old }
{
    let tree = &log[spend_log::TREE..head.keys];
    trees::check(
        head.context,
        tree,
        &mut work[spend_stack::STARTS..spend_stack::WORDS],
    )?;
    let context = claspwillow::context_of(head.context);
    replay_tree(context, log, head, count, tree, out, work)
}

// The refusal where work memory has another length.
fn wrong_length(context: u32) -> Refusal
    ensures { number_of result ≡ wrong_length context }
{
    match context {
        0 => Refusal::BadWork,
        1 => Refusal::BadWork,
        _ => Refusal::BadContext,
    }
}

// The replay of a log that is not broken.
fn replay_whole(
    log: &[u8],
    head: Offsets,
    count: usize,
    out: &mut [u8],
    work: &mut [u64],
) -> Result<usize, Refusal>
    requires { Whole log.now head count }
    ensures gives { Gives (replay_of log.now out.old work.old) out.old out.new result }
    ensures work_len_unchanged { length work.new ≡ length work.old }
{
    if work.len() == spend_stack::WORDS {
        return replay_checked(log, head, count, out, work);
    }
    Err(wrong_length(head.context))
}

// The replay of a log.
fn replay(log: &[u8], out: &mut [u8], work: &mut [u64]) -> Result<usize, Refusal>
    ensures gives { Gives (replay_of log.now out.old work.old) out.old out.new result }
    ensures work_len_unchanged { length work.new ≡ length work.old }
{
    // A broken log has the number of a broken tree.
    let Some(head) = spend_log::head_of(log) else {
        return Err(Refusal::BadTree);
    };
    let Some(count) = spend_log::count_entries(log, head.entries) else {
        return Err(Refusal::BadTree);
    };
    replay_whole(log, head, count, out, work)
}

// Runs every spend of a log again: the number of document 02, in `reports` eight bytes for each entry, and in `entries` how many there are, 0 on
// a refusal. Work memory is zero afterwards.
pub fn claspwillow_replay(
    log: &[u8],
    reports: &mut [u8],
    work: &mut [u64],
    entries: &mut u64,
) -> u32
    ensures { ReplayPromise log.now reports.old work.old result
        reports.new entries.new work.new }
{
    let r = replay(log, reports, work);
    words::clear(work);
    match r {
        Ok(count) => {
            *entries = count as u64;
            0
        }
        Err(e) => {
            *entries = 0;
            e.number()
        }
    }
}

// The one length of work memory that the replay takes, in words.
pub fn claspwillow_replay_work() -> usize
    ensures { result ≡ replay_words }
{
    spend_stack::WORDS
}
