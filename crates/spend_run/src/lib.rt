// The run of a checked tree's script over the replay's stacks, by recursion over the tree's records.
//
// Its contracts cite specs/Running.antt (what `run_record` asks and leaves, by `spend_machine`, specs/Playing.antt) and specs/Turns.antt (where
// the run of a fragment goes, child by child); the crate `walk` has the records, `spend_leaves` the fragments without children.
#![tactic(auto)]

ghost use Rattle.std.specs.Prelude.{◌≡◌, List, ◌≢◌, true, ◌&&◌, ℕ, ◌<◌, length, get_or};
ghost use Rattle.contexts.specs.declared.Context.{Context};
ghost use Rattle.walk.specs.TreeRecords.{record_at};
ghost use Rattle.walk.specs.Nodes.{Placed};
ghost use Rattle.script_bytes.specs.Tables.{Tables};
ghost use Rattle.script_bytes.specs.ScriptOf.{has_entries};
ghost use Rattle.script_leaves.specs.Leaves.{leaf_of};
ghost use Rattle.spend_machine.specs.Playing.{top_true, plays};
ghost use Rattle.spend_log.specs.Places.{tables_in};
ghost use Rattle.spend_stack.specs.Memory.{work_words, main_in, alt_in, starts_in, Keeps};
ghost use Rattle.spend_stack.specs.Machines.{run_of, Fits};
ghost use Rattle.spend_run.specs.Running.{Runs, Played};
ghost use Rattle.spend_run.specs.Turns.{branching, starting, behind_first, behind, ending, Turns, Moves};

use contexts::Context;
use spend_log::Offsets;
use spend_stack::{Machine, Pair};

// The kind of Alt, the one fragment that uses the alternate stack.
const ALT_WRAPPER: u16 = 42;

// A run between two children: the place of the child that is run next, as many as there are children if none is, and the machine.
#[derive(Clone, Copy)]
pub struct Turn {
    pub place: usize,
    pub m: Machine,
}

// Whether IF would take the branch: the run goes on, and the top element is true.
fn takes(log: &[u8], main: &[u64], m: Machine) -> bool
    requires { Fits log.now main.now m }
    ensures { (alt : List ℕ) → result ≡ top_true (run_of log.now main.now alt m) }
{
    spend_stack::is_going(m) && spend_stack::top_true(log, main, m)
}

// IF: its element is taken, and one child comes next where it is true, another where it is false.
fn branch(
    context: Context,
    log: &[u8],
    main: &[u64],
    m: Machine,
    holding: usize,
    failing: usize,
) -> Turn
    requires { Fits log.now main.now m }
    ensures turns { (t : Tables) (alt : List ℕ) → Turns (branching context t holding failing) log.now main.now alt
        main.now alt m result }
    ensures by_index { (p : ℕ) → p < holding → p < failing → p < result.place }
{
    let taken = takes(log, main, m);
    let m = spend_stack::open(context, log, main, m);
    if taken {
        return Turn { place: holding, m };
    }
    Turn { place: failing, m }
}

// Runs what stands before the first child of a fragment with n children that is no Alt.
fn start_on_main(
    context: Context,
    kind: u16,
    n: usize,
    log: &[u8],
    main: &mut [u64],
    m: Machine,
) -> Turn
    requires { Fits log.now main.old m × (kind ≢ 42) }
    ensures { (t : Tables) (alt : List ℕ) → Turns (starting context t kind n) log.now main.old alt
        main.new alt m result }
{
    // A kind stays a number: a record or a node holds one, and the contract answers on every number.
    match kind {
        43 => {
            let a = spend_stack::swap(log, main, m);
            Turn { place: 0, m: a }
        }
        45 => {
            let a = spend_stack::dup(log, main, m);
            branch(context, log, main, a, 0, n)
        }
        47 => {
            let a = spend_stack::size(log, main, m);
            let b = spend_stack::zero_not_equal(log, main, a);
            branch(context, log, main, b, 0, n)
        }
        54 => branch(context, log, main, m, 0, 1),
        _ => Turn { place: 0, m },
    }
}

// Runs what stands before the first child of a fragment with n children.
fn start(context: Context, kind: u16, n: usize, log: &[u8], work: &mut [u64], m: Machine) -> Turn
    requires { Fits log.now (main_in work.old) m × (length work.old ≡ work_words) }
    ensures turns { (t : Tables) → Turns (starting context t kind n) log.now (main_in work.old)
        (alt_in work.old) (main_in work.new) (alt_in work.new) m result }
    ensures keeps { Keeps work.old work.new }
{
    if kind == ALT_WRAPPER {
        let a = spend_stack::to_alt(log, work, m);
        return Turn { place: 0, m: a };
    }
    start_on_main(context, kind, n, log, &mut work[0..spend_stack::ALT], m)
}

// Runs what follows the first of n children.
fn next_first(
    context: Context,
    kind: u16,
    n: usize,
    log: &[u8],
    main: &mut [u64],
    m: Machine,
) -> Turn
    requires { Fits log.now main.old m × (0 < n) }
    ensures turns { (t : Tables) (alt : List ℕ) → Turns (behind_first context t kind n) log.now main.old alt
        main.new alt m result }
    ensures place_nonzero { 0 < result.place }
{
    // A kind stays a number: a record or a node holds one, and the contract answers on every number.
    match kind {
        49 => Turn { place: 1, m },
        50 => Turn { place: 1, m },
        51 => Turn { place: 1, m },
        52 => {
            let a = spend_stack::if_dup(log, main, m);
            branch(context, log, main, a, n, 1)
        }
        53 => branch(context, log, main, m, n, 1),
        55 => branch(context, log, main, m, 1, 2),
        56 => Turn { place: 1, m },
        _ => Turn { place: n, m },
    }
}

// Runs what follows child number j of n.
fn next(
    context: Context,
    kind: u16,
    n: usize,
    j: usize,
    log: &[u8],
    main: &mut [u64],
    m: Machine,
) -> Turn
    requires { Fits log.now main.old m × (j < n) }
    ensures turns { (t : Tables) (alt : List ℕ) → Turns (behind context t kind n j) log.now main.old alt
        main.new alt m result }
    ensures j_lt_place { j < result.place }
{
    if j == 0 {
        return next_first(context, kind, n, log, main, m);
    }
    if kind == 56 {
        let a = spend_stack::two_numbers(Pair::Add, log, main, m);
        return Turn { place: j + 1, m: a };
    }
    Turn { place: n, m }
}

// Runs what stands last in a fragment that is no Alt.
fn finish_on_main(kind: u16, k: u16, log: &[u8], main: &mut [u64], m: Machine) -> Machine
    requires { Fits log.now main.old m × (kind ≢ 42) }
    ensures { (c : Context) (t : Tables) (alt : List ℕ) → Moves (ending c t kind k) log.now main.old alt
        main.new alt m result }
{
    // A kind stays a number: a record or a node holds one, and the contract answers on every number.
    match kind {
        44 => spend_asks::check_sig(log, main, m),
        46 => spend_stack::verify(log, main, m),
        48 => spend_stack::zero_not_equal(log, main, m),
        49 => spend_stack::two_numbers(Pair::BoolAnd, log, main, m),
        51 => spend_stack::two_numbers(Pair::BoolOr, log, main, m),
        56 => {
            let a = spend_leaves::push_number(log, main, m, k as u32);
            spend_stack::equal(log, main, a)
        }
        _ => m,
    }
}

// Runs what stands last in a fragment.
fn finish(kind: u16, k: u16, log: &[u8], work: &mut [u64], m: Machine) -> Machine
    requires { Fits log.now (main_in work.old) m × (length work.old ≡ work_words) }
    ensures moves { (c : Context) (t : Tables) → Moves (ending c t kind k) log.now (main_in work.old)
        (alt_in work.old) (main_in work.new) (alt_in work.new) m result }
    ensures keeps { Keeps work.old work.new }
{
    if kind == ALT_WRAPPER {
        return spend_stack::from_alt(log, work, m);
    }
    finish_on_main(kind, k, log, &mut work[0..spend_stack::ALT], m)
}

// Where record i begins.
fn start_of(starts: &[u64], i: usize) -> usize
    requires { i < length starts.now }
    ensures { result ≡ get_or starts.now i 0 }
{
    starts[i] as usize
}

// Runs the leaf of record i.
fn run_leaf_at(
    context: Context,
    log: &[u8],
    head: Offsets,
    tree: &[u8],
    i: usize,
    work: &mut [u64],
    m: Machine,
) -> Machine
    requires { Placed tree.now (starts_in work.old) i × Fits log.now (main_in work.old) m × (length work.old ≡ work_words)
        × (has_entries context (tables_in log.now head) (leaf_of (record_at tree.now i)) ≡ true) }
    ensures moves { Moves (plays context (tables_in log.now head) (leaf_of (record_at tree.now i))) log.now
        (main_in work.old) (alt_in work.old) (main_in work.new) (alt_in work.new) m result }
    ensures keeps { Keeps work.old work.new }
{
    let start = start_of(&work[spend_stack::STARTS..spend_stack::WORDS], i);
    let end = walk::record_end(tree, start);
    spend_leaves::run_leaf(
        context,
        log,
        head,
        &tree[start..end],
        &mut work[0..spend_stack::ALT],
        m,
    )
}

// Runs the script of record i from where the machine stands.
pub fn run_record(
    context: Context,
    log: &[u8],
    head: Offsets,
    tree: &[u8],
    i: usize,
    work: &mut [u64],
    m: Machine,
) -> Machine
    requires { Runs context log.now head tree.now (starts_in work.old) i × Fits log.now (main_in work.old) m
        × (length work.old ≡ work_words) }
    ensures played { Played context log.now head tree.now i (main_in work.old) (alt_in work.old)
        (main_in work.new) (alt_in work.new) m result }
    ensures keeps { Keeps work.old work.new }
{
    if !spend_stack::is_going(m) {
        return m;
    }
    let node = walk::node_at(tree, &work[spend_stack::STARTS..spend_stack::WORDS], i);
    let kind = node.kind;
    let n = node.n;
    if n == 0 {
        return run_leaf_at(context, log, head, tree, i, work, m);
    }
    let children = node.children;
    let first = start(context, kind, n, log, work, m);
    let mut place = first.place;
    let mut at = first.m;
    // A run may leave children out.
    while place < n {
        let child = children[place] as usize;
        let r = run_record(context, log, head, tree, child, work, at);
        let turn = next(
            context,
            kind,
            n,
            place,
            log,
            &mut work[0..spend_stack::ALT],
            r,
        );
        place = turn.place;
        at = turn.m;
    }
    finish(kind, node.k, log, work, at)
}
