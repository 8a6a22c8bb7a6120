// What the search of a Thresh needs besides searching: the cheapest entry of a table that suits, which the root needs too, the child that gains
// most by being the E, the children's row, the Thresh itself, and the Multi of its keys.
//
// The names are those of policy/compiler.rs: `best`, `best_t` and the Thresh of `best_compilations`. The contracts cite specs/Chosen.antt,
// specs/Arranged.antt, specs/Keys.antt and specs/Threshes.antt, by the definition on what nodes stand for.
#![tactic(auto)]

ghost use Rattle.std.specs.Prelude.{◌≡◌, ◌&&◌, ◌<◌, ◌≤◌, length, take};
ghost use Rattle.policies.specs.Forms.{kind_of, children_of};
ghost use Rattle.policies.specs.Array.{policy_at, Good};
ghost use Rattle.writing.specs.WellFormed.{AllBelow};
ghost use Rattle.definition.specs.Tables.{probs};
ghost use Rattle.memory.specs.Layout.{work_words, max_rows, node_count, row_count};
ghost use Rattle.nodes.specs.Answers.{Holds};
ghost use Rattle.memory.specs.Layout.{table_count};
ghost use Rattle.cache.specs.Slots.{slot_at, Kept};
ghost use Rattle.choice.specs.Chosen.{suits_as, suits_type, price_at, cheaper_at, next_at, Chooses};
ghost use Rattle.choice.specs.Arranged.{gain_at, Gains, Arranges};
ghost use Rattle.choice.specs.Keys.{AllKeys, MultiOf};
ghost use Rattle.choice.specs.Threshes.{types_of, exts_of, costs_of, thresh_with, thresh_at, with_row, MakesThresh};

use candidates::{Candidate, NotMade};
use contexts::Context;
use correctness::Base;
use costs::{Cost, Price};
use figures::ExtData;
use types::Type;

// What an entry is wanted for: as the E or as the W of a Thresh's child, or for the root.
#[derive(Clone, Copy)]
pub enum Want {
    E,
    W,
    Root,
}

// The kind of a policy that is a key, and that of a fragment that is a Thresh.
const KEY: u64 = 3;

const THRESH: u16 = 56;

// What stands in the place of a child that a kind does not have, and for a kind that no context refuses.
const NO_CHILD: u16 = 0;

const NO_KIND: u16 = 0;

// Whether a type is of this base, u and e.
fn suits_as(base: Base, ty: Type) -> bool
    ensures { result ≡ suits_as base ty }
{
    ty.corr.base.same(base) && ty.corr.unit && ty.mall.dissat.is_unique()
}

// Whether a type suits what is wanted.
fn suits(want: Want, ty: Type) -> bool
    ensures { result ≡ suits_type want ty }
{
    match want {
        Want::E => suits_as(Base::B, ty),
        Want::W => suits_as(Base::W, ty),
        Want::Root => ty.corr.base.same(Base::B),
    }
}

// What node e costs at these probabilities.
pub fn price(work: &[u64], e: u16, sat: f64, dissat: Option<f64>) -> Price
    requires { length work.now ≡ work_words }
    ensures { result ≡ price_at work.now (probs sat dissat) e }
{
    nodes::node(work, e).cost_at(sat, dissat)
}

// The cheaper of entry e and the best of those after it, e where they cost the same.
fn cheaper(work: &[u64], e: u16, best: Option<u16>, sat: f64, dissat: Option<f64>) -> Option<u16>
    requires { length work.now ≡ work_words }
    ensures { result ≡ cheaper_at work.now (probs sat dissat) e best }
{
    match best {
        None => Some(e),
        Some(y) => {
            let own = price(work, e, sat, dissat);
            let other = price(work, y, sat, dissat);
            Some(if own.at_most(other) { e } else { y })
        }
    }
}

// The best of entry e and those after it.
fn next(
    work: &[u64],
    e: u16,
    best: Option<u16>,
    sat: f64,
    dissat: Option<f64>,
    want: Want,
) -> Option<u16>
    requires { length work.now ≡ work_words }
    ensures { result ≡ next_at work.now (probs sat dissat) want e best }
{
    if suits(want, nodes::type_at(work, e)) {
        cheaper(work, e, best, sat, dissat)
    } else {
        best
    }
}

// The cheapest entry of table s that suits, the first of them on a tie.
pub fn choose(work: &[u64], s: u16, sat: f64, dissat: Option<f64>, want: Want) -> Option<u16>
    requires { Kept work.now × ((s < table_count work.now) × AllBelow (node_count work.now) (slot_at work.now s).entries) }
    ensures { Chooses work.now s (probs sat dissat) want result }
{
    let mut best = None;
    for i in (0..cache::length_of(work, s)).rev() {
        let e = cache::entry(work, s, i);
        best = next(work, e, best, sat, dissat, want);
    }
    best
}

// By how much node e costs more than node w.
fn gain(work: &[u64], e: u16, w: u16, sat: f64, dissat: Option<f64>) -> f64
    requires { length work.now ≡ work_words }
    ensures { result ≡ gain_at work.now (probs sat dissat) e w }
{
    let own = price(work, e, sat, dissat);
    let other = price(work, w, sat, dissat);
    own.excess(other)
}

// Of n children, chosen as E and as W, the first that gains most by being the E.
pub fn most_gaining(
    work: &[u64],
    es: [u16; 16],
    ws: [u16; 16],
    n: usize,
    sat: f64,
    dissat: Option<f64>,
) -> usize
    requires { (length work.now ≡ work_words) × ((n ≤ 16) × (AllBelow (node_count work.now) (take n es) × AllBelow (node_count work.now) (take n ws))) }
    ensures { Gains work.now (probs sat dissat) es ws n result }
{
    let mut best: usize = 0;
    let mut least: f64 = 1.0 / 0.0;
    for i in 0..n {
        let d = gain(work, es[i], ws[i], sat, dissat);
        if d < least {
            least = d;
            best = i;
        }
    }
    best
}

// The row of a Thresh: the child that gains most stands first, as E, the others as W, and the first of all in its place.
pub fn arrange(es: [u16; 16], ws: [u16; 16], n: usize, gaining: usize) -> [u16; 16]
    requires { (n ≤ 16) × (gaining < n) }
    ensures { Arranges es ws n gaining result }
{
    let mut row = ws;
    row[gaining] = ws[0];
    row[0] = es[gaining];
    row
}

// Whether each of the n children of record r is a key.
pub fn all_keys(pol: &[u64], r: usize, n: usize) -> bool
    requires { Good pol.now × ((r < 64) × ((kind_of (policy_at pol.now r) ≡ 12) × (n ≡ length (children_of (policy_at pol.now r))))) }
    ensures { AllKeys (policy_at pol.now r) result }
{
    for i in 0..n {
        let c = policies::child(pol, r, i);
        if policies::head_of(pol, c).kind != KEY {
            return false;
        }
    }
    true
}

// The Multi, or the MultiA, of k of the n keys of record r.
pub fn multi_of(context: Context, r: u16, k: u16, n: u16) -> Candidate
    requires { (1 ≤ k) × (k ≤ n) }
    ensures { MultiOf context r k n result }
{
    match context {
        Context::Segwitv0 => Candidate::multi(k, n, r),
        Context::Tap => Candidate::multi_a(k, n, r),
    }
}

// The types of the nodes of a row.
fn types_of(work: &[u64], row: &[u16]) -> [Type; 16]
    requires { (length work.now ≡ work_words) × (length row.now ≤ 16) }
    ensures { take (length row.now) result ≡ types_of work.now row.now }
{
    let mut types = [Type::of_false(); 16];
    for (i, e) in row.iter().enumerate() {
        types[i] = nodes::type_at(work, *e);
    }
    types
}

// Their figures.
fn exts_of(work: &[u64], row: &[u16]) -> [ExtData; 16]
    requires { (length work.now ≡ work_words) × (length row.now ≤ 16) }
    ensures { take (length row.now) result ≡ exts_of work.now row.now }
{
    let mut exts = [ExtData::FALSE(); 16];
    for (i, e) in row.iter().enumerate() {
        exts[i] = nodes::node(work, *e).ext;
    }
    exts
}

// Their costs.
fn costs_of(work: &[u64], row: &[u16]) -> [Cost; 16]
    requires { (length work.now ≡ work_words) × (length row.now ≤ 16) }
    ensures { take (length row.now) result ≡ costs_of work.now row.now }
{
    let mut costs = [Cost::FALSE(); 16];
    for (i, e) in row.iter().enumerate() {
        costs[i] = nodes::node(work, *e).cost;
    }
    costs
}

// The Thresh of given figures, over the nodes of a row, which is not stored yet.
fn thresh_with(
    ext: ExtData,
    work: &[u64],
    r: u16,
    k: u16,
    row: &[u16],
) -> Result<Candidate, NotMade>
    requires { (length work.now ≡ work_words) × (length row.now ≤ 16) }
    ensures { result ≡ thresh_with ext work.now r k (length row.now) row.now }
{
    let Ok(ty) = Type::threshold(k as usize, row.len(), types_of(work, row)) else {
        return Err(NotMade::PassedOver);
    };
    let cost = Cost::threshold(k, row.len() as u16, costs_of(work, row)).ok_or(NotMade::Missing)?;
    Ok(Candidate {
        kind: THRESH,
        first: r,
        second: NO_CHILD,
        third: NO_CHILD,
        ty,
        ext,
        cost,
    })
}

// The Thresh of k of the nodes of a row, which is not stored yet, unless `from_ast` does not take it.
fn thresh_of(
    context: Context,
    work: &[u64],
    r: u16,
    k: u16,
    row: &[u16],
) -> Result<Candidate, NotMade>
    requires { Holds work.now × ((1 ≤ length row.now) × ((length row.now ≤ 16) × AllBelow (node_count work.now) row.now)) }
    ensures { result ≡ thresh_at context work.now r k (length row.now) row.now }
{
    let ext = thresholds::threshold(k, row.len() as u16, exts_of(work, row));
    if figures::from_ast(context, NO_KIND, ext) {
        return thresh_with(ext, work, r, k, row);
    }
    Err(NotMade::PassedOver)
}

// A candidate with its row.
fn with_row(x: Candidate, row: u16) -> Candidate
    ensures { result ≡ with_row x row }
{
    Candidate { second: row, ..x }
}

// The Thresh of record r, of k of the first n nodes of a row: where it is made, its row is stored.
pub fn thresh_made(
    context: Context,
    work: &mut [u64],
    r: u16,
    k: u16,
    n: u16,
    row: [u16; 16],
) -> Result<Candidate, NotMade>
    requires { Holds work.old × ((row_count work.old < max_rows) × ((1 ≤ k) × ((k ≤ n) × ((n ≤ 16) × AllBelow (node_count work.old) (take n row))))) }
    ensures { MakesThresh context r k n row work.old work.new result }
{
    let x = thresh_of(context, work, r, k, &row[..n as usize])?;
    let second = nodes::add_row(work, row);
    Ok(with_row(x, second))
}
