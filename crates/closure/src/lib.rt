// The closure of casts: a candidate is offered to a table, and each candidate that is accepted is cast all ten ways, first in, first out
// (insert_elem_closure in policy/compiler.rs).
//
// Its contracts cite `specs/Closed.antt` and `specs/Typing.antt`.
#![tactic(auto)]

ghost use Rattle.std.specs.Prelude.{◌≡◌, ◌<◌, length};
ghost use Rattle.candidates.specs.Casts.{all_casts};
ghost use Rattle.definition.specs.Tables.{probs};
ghost use Rattle.memory.specs.Layout.{work_words, node_count};
ghost use Rattle.nodes.specs.Words.{node_at};
ghost use Rattle.nodes.specs.Answers.{Holds};
ghost use Rattle.nodes.specs.Offers.{Offerable};
ghost use Rattle.table.specs.Rows.{TableHolds};
ghost use Rattle.closure.specs.Typing.{is_typed, cast_type};
ghost use Rattle.closure.specs.Closed.{OfferedCast, OfferedCasts, Closes};

use candidates::Candidate;
use contexts::Context;
use correctness::TypeError;
use refusals::Refusal;
use table::Table;
use types::Type;

// The casts, and the most elements that one closure pops.
const CASTS: u8 = 10;

const MAX_POPS: usize = 4096;

// What a closure leaves: the table, and whether it was refused.
#[derive(Clone, Copy)]
pub struct Closed {
    pub table: Table,
    pub end: Result<(), Refusal>,
}

// The cast of a number of node e is offered.
fn offer_cast(
    context: Context,
    work: &mut [u64],
    sat: f64,
    dissat: Option<f64>,
    e: u16,
    number: u8,
    t: Table,
) -> Closed
    requires { Holds work.old × (TableHolds work.old t × ((e < node_count work.old) × (number < 10))) }
    ensures { OfferedCast context (probs sat dissat) e number t result work.old work.new }
{
    let x = nodes::node(work, e);
    let Ok(y) = x.cast(context, e, number) else {
        return Closed {
            table: t,
            end: Ok(()),
        };
    };
    let step = table::insert(context, work, sat, dissat, y, t);
    match step.offer {
        Ok(_) => Closed {
            table: step.table,
            end: Ok(()),
        },
        Err(n) => Closed {
            table: step.table,
            end: Err(n),
        },
    }
}

// The type of the cast of a number.
fn cast_type(context: Context, ty: Type, number: u8) -> Result<Type, TypeError>
    ensures { result ≡ cast_type (all_casts context) number ty }
{
    // A cast stays a number: the definition tries them in this order, 0 to 9.
    match number {
        0 => ty.cast_check(),
        1 => ty.cast_dupif(context),
        2 => ty.cast_likely(),
        3 => ty.cast_unlikely(),
        4 => ty.cast_verify(),
        5 => ty.cast_nonzero(),
        6 => ty.cast_true(),
        7 => ty.cast_swap(),
        8 => ty.cast_alt(),
        9 => ty.cast_zeronotequal(),
        10..=255 => Err(TypeError::IllTyped),
    }
}

// Whether the cast of a number of node e is well-typed, which the node's type tells.
fn castable(context: Context, work: &[u64], e: u16, number: u8) -> bool
    requires { length work.now ≡ work_words }
    ensures { result ≡ is_typed (cast_type (all_casts context) number (node_at work.now e).ty) }
{
    cast_type(context, nodes::type_at(work, e), number).is_ok()
}

// The ten casts of node e are offered, in their order; what is ill-typed is passed over before anything is made.
fn cast_all(
    context: Context,
    work: &mut [u64],
    sat: f64,
    dissat: Option<f64>,
    e: u16,
    t: Table,
) -> Closed
    requires { Holds work.old × (TableHolds work.old t × (e < node_count work.old)) }
    ensures { OfferedCasts context (probs sat dissat) e t result work.old work.new }
{
    let mut table = t;
    for number in 0..CASTS {
        if castable(context, work, e, number) {
            let c = offer_cast(context, work, sat, dissat, e, number, table);
            if c.end.is_err() {
                return c;
            }
            table = c.table;
        }
    }
    Closed { table, end: Ok(()) }
}

// The candidate x is offered, and all that casts make of it.
pub fn insert_closure(
    context: Context,
    work: &mut [u64],
    sat: f64,
    dissat: Option<f64>,
    x: Candidate,
    t: Table,
) -> Closed
    requires { Holds work.old × (TableHolds work.old t × Offerable work.old x) }
    ensures { Closes context (probs sat dissat) x t result work.old work.new }
{
    let first = nodes::count(work);
    let step = table::insert(context, work, sat, dissat, x, t);
    if let Err(n) = step.offer {
        return Closed {
            table: step.table,
            end: Err(n),
        };
    }
    let mut table = step.table;
    let mut pops = 0;
    // A `while`, since nodes are appended while the scan goes on.
    while first + pops < nodes::count(work) {
        if pops == MAX_POPS {
            return Closed {
                table,
                end: Err(Refusal::FuelSpent),
            };
        }
        let c = cast_all(context, work, sat, dissat, (first + pops) as u16, table);
        if c.end.is_err() {
            return c;
        }
        table = c.table;
        pops += 1;
    }
    Closed { table, end: Ok(()) }
}
