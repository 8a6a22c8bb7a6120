// What a search offers to its table besides pairs: leaves, and the casts of the entries of a remembered table (insert_best_wrapped in
// policy/compiler.rs); and which pairs need not be offered.
//
// Its contracts cite `specs/Offering.antt`.
#![tactic(auto)]

ghost use Rattle.std.specs.Prelude.{◌≡◌, ◌<◌, ◌≤◌, length, take};
ghost use Rattle.definition.specs.Tables.{probs};
ghost use Rattle.memory.specs.Layout.{work_words, node_count};
ghost use Rattle.nodes.specs.Answers.{Holds};
ghost use Rattle.table.specs.Rows.{TableHolds};
ghost use Rattle.offers.specs.Offering.{Empty, LeafOf, alone, leaves_all, SmallIfMade, InsertedCast, SlotReady, InsertedCasts};

use candidates::{Candidate, NotMade};
use closure::Closed;
use contexts::Context;
use table::Table;

// A table with no entry.
pub fn empty() -> Closed
    ensures { Empty result }
{
    Closed {
        table: Table {
            entries: [0; 128],
            len: 0,
        },
        end: Ok(()),
    }
}

// The candidate of a leaf that is no key, which record r is. Locks are below 2^31, so nothing of their number is lost.
pub fn leaf_of(kind: u64, number: u64, r: u16) -> Candidate
    ensures { LeafOf kind number r result }
{
    // A kind stays a number: a record or a node holds one, and the contract answers on every number.
    match kind {
        2 => Candidate::of_true(),
        4 => Candidate::after((number % 0x1_0000_0000) as u32, r),
        5 => Candidate::older((number % 0x1_0000_0000) as u32, r),
        6 => Candidate::sha256(r),
        7 => Candidate::hash256(r),
        8 => Candidate::ripemd160(r),
        9 => Candidate::hash160(r),
        _ => Candidate::of_false(),
    }
}

// Whether a candidate is offered with nothing more: there is no dissatisfaction, or the table is settled.
fn alone(dissat: Option<f64>, settled: bool) -> bool
    ensures { result ≡ alone dissat settled }
{
    settled || dissat.is_none()
}

// Whether what was made leaves a table with these first n entries as it is: it was passed over, or it is turned away by its type and its cost.
pub fn leaves_all(
    work: &[u64],
    sat: f64,
    dissat: Option<f64>,
    x: Result<Candidate, NotMade>,
    settled: bool,
    entries: &[u16],
    n: usize,
) -> bool
    requires { (length work.now ≡ work_words) × ((n ≤ length entries.now) × SmallIfMade x) }
    ensures { result ≡ leaves_all work.now (probs sat dissat) settled x (take n entries.now) }
{
    match x {
        Ok(y) => alone(dissat, settled) && table::turns_away(work, entries, n, sat, dissat, y),
        Err(NotMade::PassedOver) => true,
        Err(NotMade::Missing) => false,
    }
}

// The cast of a number of node e, with its closure.
pub fn insert_cast(
    context: Context,
    work: &mut [u64],
    sat: f64,
    dissat: Option<f64>,
    e: u16,
    number: u8,
    t: Table,
) -> Closed
    requires { Holds work.old × (TableHolds work.old t × ((e < node_count work.old) × (number < 10))) }
    ensures { InsertedCast context (probs sat dissat) e number t result work.old work.new }
{
    match nodes::node(work, e).cast(context, e, number) {
        Ok(y) => closure::insert_closure(context, work, sat, dissat, y, t),
        Err(_) => Closed {
            table: t,
            end: Ok(()),
        },
    }
}

// The cast of a number of each entry of slot s, each with its closure.
pub fn cast_entries(
    context: Context,
    work: &mut [u64],
    sat: f64,
    dissat: Option<f64>,
    s: u16,
    number: u8,
    t: Table,
) -> Closed
    requires { SlotReady work.old s × (TableHolds work.old t × (number < 10)) }
    ensures { InsertedCasts context (probs sat dissat) s number t result work.old work.new }
{
    let n = cache::length_of(work, s);
    let mut done = Closed {
        table: t,
        end: Ok(()),
    };
    for j in 0..n {
        let e = cache::entry(work, s, j);
        done = insert_cast(context, work, sat, dissat, e, number, done.table);
        if done.end.is_err() {
            return done;
        }
    }
    done
}
