// What changed between two trees, and the entry that lists it, which claspwillow_c exports to C. It asks nothing of its caller.
//
// The definition is specs/Numbered.antt and specs/Differences.antt, what holds of it specs/Laws.antt; the entry's promise stands in
// specs/Differ.antt, and proofs/Determined.antt shows that it determines the outcome. The inner contracts cite specs/Records.antt (two
// records side by side) and specs/Telling.antt (differences in an output).
#![tactic(auto)]

ghost use Rattle.std.specs.Prelude.{◌≡◌, [], ◌∷◌, ◌<◌, length};
ghost use Rattle.records.specs.Payloads.{first_keys};
ghost use Rattle.trees.specs.Fragment.{Fragment};
ghost use Rattle.trees.specs.Reading.{max_records};
ghost use Rattle.walk.specs.TreeRecords.{Written, TreeRecords, record_at};
ghost use Rattle.walk.specs.Nodes.{Placed};
ghost use Rattle.differ.specs.Numbered.{numbered};
ghost use Rattle.differ.specs.Differences.{same_keys, differences};
ghost use Rattle.differ.specs.Differ.{work_words, fitting, differ_of, DifferPromise};
ghost use Rattle.differ.specs.Records.{numbered_at, same_record, Walks};
ghost use Rattle.differ.specs.Telling.{Tells, Gives};
ghost use Rattle.differ.specs.Checks.{BothChecked};

use refusals::Refusal;

// The most records of a tree; work memory has a word for each record of the left tree, then one for each of the right.
const HALF: usize = 4096;

const WORK_WORDS: usize = 8192;

// Whether the first `count` keys of two records are the same.
fn same_keys(left: &[u8], right: &[u8], count: u16) -> bool
    ensures { result ≡ same_keys (first_keys left.now count) (first_keys right.now count) }
{
    for j in 0..count {
        let x = records::key_at(left, j);
        let y = records::key_at(right, j);
        if x != y {
            return false;
        }
    }
    true
}

// Whether two records differ in nothing but the numbers of their children.
fn same_record(left: &[u8], right: &[u8]) -> bool
    ensures { result ≡ same_record left.now right.now }
{
    let kind = records::kind_of(left);
    let other = records::kind_of(right);
    let x = records::fragment_parts(left);
    let y = records::fragment_parts(right);
    if kind != other {
        return false;
    }
    if x.number != y.number {
        return false;
    }
    if x.k != y.k {
        return false;
    }
    if x.count != y.count {
        return false;
    }
    if kind < 57 {
        return true;
    }
    same_keys(left, right, records::count_of(left))
}

// The same of record i of the left tree and record j of the right one.
fn same_at(
    left: &[u8],
    right: &[u8],
    left_starts: &[u64],
    right_starts: &[u64],
    i: usize,
    j: usize,
) -> bool
    requires { Placed left.now left_starts.now i × Placed right.now right_starts.now j }
    ensures { result ≡ same_record (record_at left.now i) (record_at right.now j) }
{
    let a = left_starts[i] as usize;
    let b = walk::record_end(left, a);
    let c = right_starts[j] as usize;
    let d = walk::record_end(right, c);
    same_record(&left[a..b], &right[c..d])
}

// Tells a difference as number `at`, where it fits.
fn tell(out: &mut [u8], at: usize, left: usize, right: usize) -> usize
    requires { (at < max_records) × (left < max_records) × (right < max_records) }
    ensures { Tells out.old out.new at (record { left = left; right = right } ∷ []) result }
{
    let place = 8 * at;
    if place + 8 <= out.len() {
        words::put_u32(out, place, left as u32);
        words::put_u32(out, place + 4, right as u32);
        return at + 1;
    }
    at + 1
}

// Tells the differences between record i of the left tree and record j of the right one, the first as number `at`.
fn differ_at(
    left: &[u8],
    right: &[u8],
    left_starts: &[u64],
    right_starts: &[u64],
    i: usize,
    j: usize,
    out: &mut [u8],
    at: usize,
) -> usize
    requires { Walks left.now right.now left_starts.now right_starts.now i j at }
    ensures { Tells out.old out.new at
        (differences (numbered_at left.now i) (numbered_at right.now j)) result }
{
    let same = same_at(left, right, left_starts, right_starts, i, j);
    if same {
        let x = walk::node_at(left, left_starts, i);
        let y = walk::node_at(right, right_starts, j);
        let xs = x.children;
        let ys = y.children;
        let n = x.n;
        let mut to = at;
        for c in 0..n {
            let a = xs[c] as usize;
            let b = ys[c] as usize;
            to = differ_at(left, right, left_starts, right_starts, a, b, out, to);
        }
        return to;
    }
    tell(out, at, i, j)
}

// Tells the differences between record i of the left tree and record j of the right one if they fit: a run over no output counts them first.
fn differ_roots(
    left: &[u8],
    right: &[u8],
    left_starts: &[u64],
    right_starts: &[u64],
    i: usize,
    j: usize,
    out: &mut [u8],
) -> Result<usize, Refusal>
    requires { Walks left.now right.now left_starts.now right_starts.now i j 0 }
    ensures { Gives (fitting (length out.old)
        (differences (numbered_at left.now i) (numbered_at right.now j))) out.old out.new result }
{
    let count = differ_at(
        left,
        right,
        left_starts,
        right_starts,
        i,
        j,
        &mut out[0..0],
        0,
    );
    if out.len() < 8 * count {
        return Err(Refusal::OutputTooSmall);
    }
    differ_at(left, right, left_starts, right_starts, i, j, out, 0);
    Ok(count)
}

// Tells the differences between two trees that the check passed.
fn differ_in(left: &[u8], right: &[u8], out: &mut [u8], work: &mut [u64]) -> Result<usize, Refusal>
    requires { Written left.now × Written right.now × (length work.old ≡ work_words) }
    ensures gives { Gives (fitting (length out.old) (differences (numbered left.now) (numbered right.now)))
        out.old out.new result }
    ensures work_len_unchanged { length work.new ≡ length work.old }
{
    let n = walk::scan(left, &mut work[0..HALF]);
    let m = walk::scan(right, &mut work[HALF..WORK_WORDS]);
    differ_roots(
        left,
        right,
        &work[0..HALF],
        &work[HALF..WORK_WORDS],
        n - 1,
        m - 1,
        out,
    )
}

// The check of two trees, one after the other: the first that does not pass is refused.
fn check_both(context: u32, left: &[u8], right: &[u8], work: &mut [u64]) -> Result<(), Refusal>
    requires { length work.old ≡ max_records }
    ensures both_checked { BothChecked context left.now right.now result }
    ensures work_len_unchanged { length work.new ≡ length work.old }
{
    trees::check(context, left, work)?;
    trees::check(context, right, work)?;
    Ok(())
}

// Tells what changed between two trees, and how many differences there are.
fn differ(
    context: u32,
    left: &[u8],
    right: &[u8],
    out: &mut [u8],
    work: &mut [u64],
) -> Result<usize, Refusal>
    ensures gives { Gives (differ_of context left.now right.now out.old work.old)
        out.old out.new result }
    ensures work_len_unchanged { length work.new ≡ length work.old }
{
    if 2 <= context {
        return Err(Refusal::BadContext);
    }
    if work.len() != WORK_WORDS {
        return Err(Refusal::BadWork);
    }
    check_both(context, left, right, &mut work[0..HALF])?;
    differ_in(left, right, out, work)
}

// What changed between two trees: the number of document 02, the differences in `out`, eight bytes each, and in `differences` how many there
// are, 0 on a refusal. Work memory is zero afterwards.
pub fn claspwillow_differ(
    context: u32,
    left: &[u8],
    right: &[u8],
    out: &mut [u8],
    work: &mut [u64],
    differences: &mut u64,
) -> u32
    ensures { DifferPromise context left.now right.now out.old work.old result
        out.new differences.new work.new }
{
    let r = differ(context, left, right, out, work);
    words::clear(work);
    match r {
        Ok(count) => {
            *differences = count as u64;
            0
        }
        Err(e) => {
            *differences = 0;
            e.number()
        }
    }
}

// The one length of work memory that the entry takes, in words.
pub fn claspwillow_differ_work() -> usize
    ensures { result ≡ work_words }
{
    WORK_WORDS
}
