// The search for a policy's best compilations (best_compilations, insert_best_wrapped, compile_binary and compile_tern in policy/compiler.rs): the
// search of a policy, the wrapping of one result and the pairing of tables call one another. Every function works for the policy that number r of the
// array `pol` stands for, at the probabilities of satisfaction and of dissatisfaction.
//
// Its contracts cite `specs/Searching.antt`; crate `search_state` says what a search and work on a table leave.
#![tactic(auto)]

ghost use Rattle.std.specs.Prelude.{◌≡◌, map, ◌<◌, ◌≤◌, take, length};
ghost use Rattle.costs.specs.Arithmetic.{◌⊘◌, ◌⊗◌, float_of};
ghost use Rattle.policies.specs.Forms.{kind_of, children_of};
ghost use Rattle.policies.specs.Array.{policy_at};
ghost use Rattle.definition.specs.Candidates.{all_casts, cast_no};
ghost use Rattle.definition.specs.Tables.{probs};
ghost use Rattle.definition.specs.Refusals.{then};
ghost use Rattle.definition.specs.Search.{search, searcher, without, wrapped, wrapped_if_made, casts_of, and_ors, multi_of, keys_of, folded_or};
ghost use Rattle.definition_laws.specs.Bodies.{again_in, body_in};
ghost use Rattle.memory.specs.Layout.{node_count};
ghost use Rattle.nodes.specs.Views.{offered};
ghost use Rattle.nodes.specs.Answers.{Holds};
ghost use Rattle.nodes.specs.Offers.{Offerable};
ghost use Rattle.table.specs.Rows.{TableHolds};
ghost use Rattle.table.specs.Inserted.{seen_table};
ghost use Rattle.search_state.specs.State.{state_in, slot_table, flag_of};
ghost use Rattle.search_state.specs.Recalled.{Searched, Tabled, table_answer};
ghost use Rattle.stages.specs.Stages.{paired, pair_all, staged};
ghost use Rattle.nodes.specs.Offers.{made_seen};
ghost use Rattle.pairing.specs.Mades.{Paired};
ghost use Rattle.offers.specs.Offering.{IsLeaf};
ghost use Rattle.search.specs.Searching.{IsOr, IsThresh, child_searchers, Going, Doing};
ghost use Rattle.search.specs.Searching.{SettledIf, cast_once, AllLighter, Under, AskedAll};
ghost use Rattle.search.specs.Searching.{AllPlaced, AllPaired, OffersIfMade, child_dissat, FoundBest, FoundBests};

use candidates::{Candidate, NotMade};
use choice::Want;
use closure::Closed;
use contexts::Context;
use refusals::Refusal;
use stages::{Ask, Pairing};
use table::Table;

// The casts, and the kinds of policies.
const CASTS: u8 = 10;

const KEY: u64 = 3;

const AND: u64 = 10;

const OR: u64 = 11;

const THRESH: u64 = 12;

// What a pairing leaves: the table, and whether it is known to be settled.
#[derive(Clone, Copy)]
pub struct Outcome {
    pub closed: Closed,
    pub settled: bool,
}

// The best expressions of a Thresh's children as E and as W.
#[derive(Clone, Copy)]
pub struct Bests {
    pub es: [u16; 16],
    pub ws: [u16; 16],
}

// The table of the policy.
#[cycle(search_cycle)]
pub fn search(
    context: Context,
    pol: &[u64],
    work: &mut [u64],
    r: usize,
    sat: f64,
    dissat: Option<f64>,
) -> Result<u16, Refusal>
    requires { Going 0 pol.now r dissat work.old }
    ensures { Searched (search context (policy_at pol.now r) (probs sat dissat) (state_in pol.now work.old)) pol.now result work.old work.new }
{
    match search_state::recall(pol, work, r, sat, dissat) {
        Some(s) => Ok(s),
        None => {
            let c = body(context, pol, work, r, sat, dissat);
            search_state::remember(pol, work, r, sat, dissat, c)
        }
    }
}

// The table of the policy, made anew.
#[cycle(search_cycle)]
fn body(
    context: Context,
    pol: &[u64],
    work: &mut [u64],
    r: usize,
    sat: f64,
    dissat: Option<f64>,
) -> Closed
    requires { Going 0 pol.now r dissat work.old }
    ensures { Tabled 1 (body_in context (policy_at pol.now r) (probs sat dissat) (state_in pol.now work.old)) pol.now result work.old work.new }
{
    let head = policies::head_of(pol, r);
    match head.kind {
        AND => and_body(context, pol, work, r, sat, dissat),
        OR => or_body(
            context,
            pol,
            work,
            r,
            sat,
            dissat,
            head.left_weight as u32,
            head.right_weight as u32,
        ),
        THRESH => thresh_body(
            context,
            pol,
            work,
            r,
            sat,
            dissat,
            head.k as u16,
            head.count,
        ),
        kind => leaves(context, pol, work, r, sat, dissat, kind, head.number),
    }
}

// The table of a leaf.
#[cycle(search_cycle)]
fn leaves(
    context: Context,
    pol: &[u64],
    work: &mut [u64],
    r: usize,
    sat: f64,
    dissat: Option<f64>,
    kind: u64,
    number: u64,
) -> Closed
    requires { Going 0 pol.now r dissat work.old × IsLeaf (policy_at pol.now r) kind number }
    ensures { Tabled 0 (body_in context (policy_at pol.now r) (probs sat dissat) (state_in pol.now work.old)) pol.now result work.old work.new }
{
    if kind == KEY {
        let h = Candidate::pk_h(context, r as u16);
        let c = wrapped(
            context,
            pol,
            work,
            r,
            sat,
            dissat,
            h,
            offers::empty(),
            false,
        );
        let settled = search_state::settles(pol, work, r, sat, dissat, Ok(h));
        return wrapped(
            context,
            pol,
            work,
            r,
            sat,
            dissat,
            Candidate::pk_k(context, r as u16),
            c,
            settled,
        );
    }
    wrapped(
        context,
        pol,
        work,
        r,
        sat,
        dissat,
        offers::leaf_of(kind, number, r as u16),
        offers::empty(),
        false,
    )
}

// The table of an And.
#[cycle(search_cycle)]
fn and_body(
    context: Context,
    pol: &[u64],
    work: &mut [u64],
    r: usize,
    sat: f64,
    dissat: Option<f64>,
) -> Closed
    requires { Going 0 pol.now r dissat work.old × (kind_of (policy_at pol.now r) ≡ 10) }
    ensures { Tabled 0 (body_in context (policy_at pol.now r) (probs sat dissat) (state_in pol.now work.old)) pol.now result work.old work.new }
{
    let l = policies::child(pol, r, 0);
    let q = policies::child(pol, r, 1);
    let asks = stages::and_asks(l, q, sat, dissat);
    let pairings = stages::and_pairings();
    stage(
        context,
        pol,
        work,
        r,
        sat,
        dissat,
        asks,
        4,
        pairings,
        6,
        offers::empty(),
    )
}

// The table of an Or.
#[cycle(search_cycle)]
fn or_body(
    context: Context,
    pol: &[u64],
    work: &mut [u64],
    r: usize,
    sat: f64,
    dissat: Option<f64>,
    left_weight: u32,
    right_weight: u32,
) -> Closed
    requires { Going 0 pol.now r dissat work.old × IsOr (policy_at pol.now r) left_weight right_weight }
    ensures { Tabled 0 (body_in context (policy_at pol.now r) (probs sat dissat) (state_in pol.now work.old)) pol.now result work.old work.new }
{
    let l = policies::child(pol, r, 0);
    let q = policies::child(pol, r, 1);
    let w = costs::weights(left_weight, right_weight);
    let lw = w.lw;
    let rw = w.rw;
    let left = and_ors(
        context,
        pol,
        work,
        r,
        sat,
        dissat,
        l,
        q,
        lw,
        rw,
        offers::empty(),
    );
    let both = and_ors(context, pol, work, r, sat, dissat, q, l, rw, lw, left);
    let asks = stages::or_asks(l, q, sat, dissat, lw, rw);
    let pairings = stages::or_pairings(lw, rw);
    stage(
        context, pol, work, r, sat, dissat, asks, 8, pairings, 10, both,
    )
}

// The two sides of an And, number a, beside another policy, at the weights of both.
#[cycle(search_cycle)]
fn and_ors(
    context: Context,
    pol: &[u64],
    work: &mut [u64],
    r: usize,
    sat: f64,
    dissat: Option<f64>,
    a: usize,
    other: usize,
    w: f64,
    v: f64,
    c: Closed,
) -> Closed
    requires { Doing pol.now r dissat c work.old × (Under pol.now r a × Under pol.now r other) }
    ensures { Tabled 0 (then (table_answer pol.now work.old c) (λ t. and_ors context (probs sat dissat) (again_in context (policy_at pol.now r) (probs sat dissat)) (searcher context (policy_at pol.now a)) (searcher context (policy_at pol.now other)) w v t)) pol.now result work.old work.new }
{
    let head = policies::head_of(pol, a);
    if head.kind != AND {
        return c;
    }
    let x = policies::child(pol, a, 0);
    let y = policies::child(pol, a, 1);
    let asks = stages::and_or_asks(x, y, other, sat, dissat, w, v);
    let pairings = stages::and_or_pairings(w, v);
    stage(context, pol, work, r, sat, dissat, asks, 5, pairings, 2, c)
}

// A stage: its searches, then its pairings.
#[cycle(search_cycle)]
fn stage(
    context: Context,
    pol: &[u64],
    work: &mut [u64],
    r: usize,
    sat: f64,
    dissat: Option<f64>,
    asks: [Ask; 8],
    n: usize,
    pairings: [Pairing; 10],
    k: usize,
    c: Closed,
) -> Closed
    requires { Doing pol.now r dissat c work.old × ((n ≤ 8) × (AllLighter pol.now r dissat (take n asks) × ((k ≤ 10) × AllPlaced n (take k pairings)))) }
    ensures { Tabled 0 (then (table_answer pol.now work.old c) (λ t. staged context pol.now (probs sat dissat) (again_in context (policy_at pol.now r) (probs sat dissat)) (take n asks) (take k pairings) t)) pol.now result work.old work.new }
{
    if c.end.is_err() {
        return c;
    }
    match search_all(context, pol, work, r, dissat, asks, n) {
        Err(no) => Closed {
            table: c.table,
            end: Err(no),
        },
        Ok(slots) => pair_all(context, pol, work, r, sat, dissat, pairings, k, slots, c),
    }
}

// The searches, one after another.
#[cycle(search_cycle)]
fn search_all(
    context: Context,
    pol: &[u64],
    work: &mut [u64],
    r: usize,
    dissat: Option<f64>,
    asks: [Ask; 8],
    n: usize,
) -> Result<[u16; 8], Refusal>
    requires { Going 1 pol.now r dissat work.old × ((n ≤ 8) × AllLighter pol.now r dissat (take n asks)) }
    ensures { AskedAll context pol.now asks n result work.old work.new }
{
    let mut slots = [0; 8];
    for j in 0..n {
        let a = asks[j];
        slots[j] = search(context, pol, work, a.r, a.sat, a.dissat)?;
    }
    Ok(slots)
}

// The pairings, one after another: a table that one of them settled stays so.
#[cycle(search_cycle)]
fn pair_all(
    context: Context,
    pol: &[u64],
    work: &mut [u64],
    r: usize,
    sat: f64,
    dissat: Option<f64>,
    pairings: [Pairing; 10],
    k: usize,
    slots: [u16; 8],
    c: Closed,
) -> Closed
    requires { Doing pol.now r dissat c work.old × ((k ≤ 10) × AllPaired work.old slots (take k pairings)) }
    ensures { Tabled 0 (then (table_answer pol.now work.old c) (λ t. pair_all context (probs sat dissat) (again_in context (policy_at pol.now r) (probs sat dissat)) (map (slot_table pol.now work.old) slots) (take k pairings) t)) pol.now result work.old work.new }
{
    let mut done = c;
    let mut settled = false;
    for i in 0..k {
        let a = pairings[i];
        let next = pair(context, pol, work, r, sat, dissat, a, slots, done, settled);
        done = next.closed;
        settled = next.settled;
    }
    done
}

// All candidates of one pairing, each wrapped. The casts of what the search without dissatisfaction found are offered until the table is
// settled: from then on they would change nothing. What leaves the table as it is need not be wrapped.
#[cycle(search_cycle)]
fn pair(
    context: Context,
    pol: &[u64],
    work: &mut [u64],
    r: usize,
    sat: f64,
    dissat: Option<f64>,
    a: Pairing,
    slots: [u16; 8],
    c: Closed,
    already: bool,
) -> Outcome
    requires { Doing pol.now r dissat c work.old × Paired work.old a slots × SettledIf already context pol.now r sat dissat c work.old }
    ensures { Tabled 0 (then (table_answer pol.now work.old c) (λ t. paired context (probs sat dissat) (again_in context (policy_at pol.now r) (probs sat dissat)) (map (slot_table pol.now work.old) slots) a t)) pol.now result.closed work.old work.new × SettledIf result.settled context pol.now r sat dissat result.closed work.new }
{
    let many = pairing::count(work, a, slots);
    let mut done = c;
    let mut settled = already;
    for i in 0..many {
        let x = pairing::made(work, a, slots, i);
        if !offers::leaves_all(
            work,
            sat,
            dissat,
            x,
            settled,
            &done.table.entries,
            done.table.len,
        ) {
            done = wrapped_if_made(context, pol, work, r, sat, dissat, x, done, settled);
            if !settled {
                settled = search_state::settles(pol, work, r, sat, dissat, x);
            }
        }
    }
    Outcome {
        closed: done,
        settled,
    }
}

// What was made of others is wrapped, unless it was passed over.
#[cycle(search_cycle)]
fn wrapped_if_made(
    context: Context,
    pol: &[u64],
    work: &mut [u64],
    r: usize,
    sat: f64,
    dissat: Option<f64>,
    x: Result<Candidate, NotMade>,
    c: Closed,
    settled: bool,
) -> Closed
    requires { Doing pol.now r dissat c work.old × OffersIfMade work.old x × SettledIf settled context pol.now r sat dissat c work.old }
    ensures { Tabled 0 (then (table_answer pol.now work.old c) (λ t. wrapped_if_made context (probs sat dissat) (again_in context (policy_at pol.now r) (probs sat dissat)) (made_seen pol.now work.old x) t)) pol.now result work.old work.new }
{
    match x {
        Ok(y) => wrapped(context, pol, work, r, sat, dissat, y, c, settled),
        Err(NotMade::PassedOver) => c,
        Err(NotMade::Missing) => Closed {
            table: c.table,
            end: c.end.and(Err(Refusal::NotACost)),
        },
    }
}

// The candidate x with its closure, then each cast of what the search without dissatisfaction found, unless the table is settled.
#[cycle(search_cycle)]
fn wrapped(
    context: Context,
    pol: &[u64],
    work: &mut [u64],
    r: usize,
    sat: f64,
    dissat: Option<f64>,
    x: Candidate,
    c: Closed,
    settled: bool,
) -> Closed
    requires { Doing pol.now r dissat c work.old × Offerable work.old x × SettledIf settled context pol.now r sat dissat c work.old }
    ensures { Tabled 0 (then (table_answer pol.now work.old c) (λ t. wrapped context (probs sat dissat) (again_in context (policy_at pol.now r) (probs sat dissat)) (offered pol.now work.old x) t)) pol.now result work.old work.new }
{
    if c.end.is_err() {
        return c;
    }
    let closed = closure::insert_closure(context, work, sat, dissat, x, c.table);
    match dissat {
        None => closed,
        Some(_) => {
            if settled {
                return closed;
            }
            casts_of(context, pol, work, r, sat, dissat, closed)
        }
    }
}

// Each cast of what the search without dissatisfaction found.
#[cycle(search_cycle)]
fn casts_of(
    context: Context,
    pol: &[u64],
    work: &mut [u64],
    r: usize,
    sat: f64,
    dissat: Option<f64>,
    c: Closed,
) -> Closed
    requires { Doing pol.now r dissat c work.old × (flag_of dissat ≡ 1) }
    ensures { Tabled 0 (then (table_answer pol.now work.old c) (λ t. casts_of context (probs sat dissat) (search context (policy_at pol.now r) (without (probs sat dissat))) (all_casts context) t)) pol.now result work.old work.new }
{
    if c.end.is_err() {
        return c;
    }
    let mut done = c;
    for number in 0..CASTS {
        done = cast_once(context, pol, work, r, sat, dissat, number, done.table);
        if done.end.is_err() {
            return done;
        }
    }
    done
}

// One cast of what the search without dissatisfaction found.
#[cycle(search_cycle)]
fn cast_once(
    context: Context,
    pol: &[u64],
    work: &mut [u64],
    r: usize,
    sat: f64,
    dissat: Option<f64>,
    number: u8,
    t: Table,
) -> Closed
    requires { (Going 1 pol.now r dissat work.old × TableHolds work.old t) × ((flag_of dissat ≡ 1) × (number < 10)) }
    ensures { Tabled 0 (cast_once context (probs sat dissat) (search context (policy_at pol.now r) (without (probs sat dissat))) (cast_no context number) (seen_table pol.now work.old t) (state_in pol.now work.old)) pol.now result work.old work.new }
{
    match search(context, pol, work, r, sat, None) {
        Err(no) => Closed {
            table: t,
            end: Err(no),
        },
        Ok(s) => offers::cast_entries(context, work, sat, dissat, s, number, t),
    }
}

// The table of a Thresh.
#[cycle(search_cycle)]
fn thresh_body(
    context: Context,
    pol: &[u64],
    work: &mut [u64],
    r: usize,
    sat: f64,
    dissat: Option<f64>,
    k: u16,
    n: usize,
) -> Closed
    requires { Going 0 pol.now r dissat work.old × IsThresh (policy_at pol.now r) k n }
    ensures { Tabled 1 (body_in context (policy_at pol.now r) (probs sat dissat) (state_in pol.now work.old)) pol.now result work.old work.new }
{
    let ratio = k as f64 / (n as u16) as f64;
    let child_sat = sat * ratio;
    let child_dissat = child_dissat(dissat, ratio, sat);
    let b = match all_bests(context, pol, work, r, dissat, n, child_sat, child_dissat) {
        Err(no) => {
            return Closed {
                table: offers::empty().table,
                end: Err(no),
            };
        }
        Ok(b) => b,
    };
    let gaining = choice::most_gaining(work, b.es, b.ws, n, child_sat, child_dissat);
    let row = choice::arrange(b.es, b.ws, n, gaining);
    let x = choice::thresh_made(context, work, r as u16, k, n as u16, row);
    let one = wrapped_if_made(
        context,
        pol,
        work,
        r,
        sat,
        dissat,
        x,
        offers::empty(),
        false,
    );
    let two = multi(context, pol, work, r, sat, dissat, k, n, one);
    folded(context, pol, work, r, sat, dissat, k, n, two)
}

// The probability of dissatisfaction of a Thresh's child.
fn child_dissat(dissat: Option<f64>, ratio: f64, sat: f64) -> Option<f64>
    ensures { result ≡ child_dissat dissat ratio sat }
{
    Some(dissat.unwrap_or(0.0) + (1.0 - ratio) * sat)
}

// The best expressions of the n children of a Thresh, each searched twice, as E and as W.
#[cycle(search_cycle)]
fn all_bests(
    context: Context,
    pol: &[u64],
    work: &mut [u64],
    r: usize,
    dissat: Option<f64>,
    n: usize,
    child_sat: f64,
    child_dissat: Option<f64>,
) -> Result<Bests, Refusal>
    requires { Going 1 pol.now r dissat work.old × ((kind_of (policy_at pol.now r) ≡ 12) × (length (children_of (policy_at pol.now r)) ≡ n)) }
    ensures { FoundBests context (probs child_sat child_dissat) pol.now (policy_at pol.now r) n result work.old work.new }
{
    let mut es = [0; 16];
    let mut ws = [0; 16];
    for j in 0..n {
        let a = policies::child(pol, r, j);
        es[j] = best_of(context, pol, work, a, child_sat, child_dissat, Want::E)?;
        ws[j] = best_of(context, pol, work, a, child_sat, child_dissat, Want::W)?;
    }
    Ok(Bests { es, ws })
}

// The best entry, of those that are wanted, of the policy's table.
#[cycle(search_cycle)]
fn best_of(
    context: Context,
    pol: &[u64],
    work: &mut [u64],
    r: usize,
    sat: f64,
    dissat: Option<f64>,
    want: Want,
) -> Result<u16, Refusal>
    requires { Going 0 pol.now r dissat work.old }
    ensures { FoundBest context (probs sat dissat) pol.now (policy_at pol.now r) want result work.old work.new }
{
    let s = search(context, pol, work, r, sat, dissat)?;
    choice::choose(work, s, sat, dissat, want).ok_or(Refusal::LimitsExceeded)
}

// k of n keys, if all children of a Thresh are keys.
#[cycle(search_cycle)]
fn multi(
    context: Context,
    pol: &[u64],
    work: &mut [u64],
    r: usize,
    sat: f64,
    dissat: Option<f64>,
    k: u16,
    n: usize,
    c: Closed,
) -> Closed
    requires { Doing pol.now r dissat c work.old × IsThresh (policy_at pol.now r) k n }
    ensures { Tabled 0 (then (table_answer pol.now work.old c) (λ t. multi_of context (probs sat dissat) (again_in context (policy_at pol.now r) (probs sat dissat)) k (keys_of (child_searchers context (policy_at pol.now r))) t)) pol.now result work.old work.new }
{
    if choice::all_keys(pol, r, n) {
        let x = choice::multi_of(context, r as u16, k, n as u16);
        return wrapped(context, pol, work, r, sat, dissat, x, c, false);
    }
    c
}

// With k = n the table is that of the Ands that a Thresh folds to.
#[cycle(search_cycle)]
fn folded(
    context: Context,
    pol: &[u64],
    work: &mut [u64],
    r: usize,
    sat: f64,
    dissat: Option<f64>,
    k: u16,
    n: usize,
    c: Closed,
) -> Closed
    requires { Doing pol.now r dissat c work.old × IsThresh (policy_at pol.now r) k n }
    ensures { Tabled 0 (then (table_answer pol.now work.old c) (λ t. folded_or context (probs sat dissat) k (child_searchers context (policy_at pol.now r)) t)) pol.now result work.old work.new }
{
    if k as usize != n {
        return c;
    }
    if c.end.is_err() {
        return c;
    }
    let f = policies::folded_of(pol, r, n);
    match search(context, pol, work, f, sat, dissat) {
        Err(no) => Closed {
            table: c.table,
            end: Err(no),
        },
        Ok(s) => Closed {
            table: search_state::table_of(work, s),
            end: Ok(()),
        },
    }
}
