// The candidates that one pairing makes, by number: each entry of one table with each of another, and with each of a third where the
// pairing has three. So the search goes through them in one loop.
//
// Its contracts cite `specs/Mades.antt` and `specs/Fits.antt`. That these candidates, in turn, are the definition's `binary` and `ternary` is proved in
// `proofs/Turns.antt`.
#![tactic(auto)]

ghost use Rattle.std.specs.Prelude.{◌≡◌, ◌<◌, ◌≤◌, get_or, length, eqb, true, false};
ghost use Rattle.candidates.specs.Pairs.{all_pairs, pair_of, and_or};
ghost use Rattle.memory.specs.Layout.{work_words, node_count};
ghost use Rattle.nodes.specs.Words.{node_at};
ghost use Rattle.cache.specs.Slots.{Kept};
ghost use Rattle.pairing.specs.Fits.{fits_from};
ghost use Rattle.pairing.specs.Mades.{entries_at, length_at, count_of, PlaceHolds, Paired, Counted, MadeAt};

use cache::{entry, length_of};
use candidates::{Candidate, NotMade};
use nodes::{node, type_at};
use stages::Pairing;
use types::Type;

// The kind of a triple.
const AND_OR: u16 = 55;

// In the place of a table: False alone.
const FALSE: u8 = 8;

// How many entries the table at a place has.
fn length_at(work: &[u64], slots: [u16; 8], place: u8) -> usize
    requires { Kept work.now × PlaceHolds work.now slots place }
    ensures { (result ≡ length_at work.now slots place) × (result ≤ 128) }
{
    if place == FALSE {
        return 1;
    }
    length_of(work, slots[place as usize])
}

// Entry j of the table at a place.
fn entry_at(work: &[u64], slots: [u16; 8], place: u8, j: usize) -> u16
    requires { Kept work.now × (PlaceHolds work.now slots place × (j < length_at work.now slots place)) }
    ensures { (result ≡ get_or (entries_at work.now slots place) j 0) × (result < node_count work.now) }
{
    if place == FALSE {
        return 0;
    }
    entry(work, slots[place as usize], j)
}

// How many candidates the pairing makes.
pub fn count(work: &[u64], a: Pairing, slots: [u16; 8]) -> usize
    requires { Paired work.now a slots }
    ensures { Counted work.now a slots result }
{
    let pairs = length_at(work, slots, a.first) * length_at(work, slots, a.second);
    let triples = pairs * length_at(work, slots, a.third);
    if a.kind == AND_OR {
        return triples;
    }
    pairs
}

// Whether the pair of a kind, of entries of these types, is well-typed.
fn fits(kind: u16, l: Type, r: Type) -> bool
    ensures { result ≡ fits_from all_pairs kind l r }
{
    // A kind stays a number: a record or a node holds one, and the contract answers on every number.
    match kind {
        0..=48 => false,
        49 => Type::and_b(l, r).is_ok(),
        50 => Type::and_v(l, r).is_ok(),
        51 => Type::or_b(l, r).is_ok(),
        52 => Type::or_d(l, r).is_ok(),
        53 => Type::or_c(l, r).is_ok(),
        54 => Type::or_i(l, r).is_ok(),
        55..=65535 => false,
    }
}

// The pair of a kind of nodes l and r. Most are ill-typed, which their types tell, so that no more of the nodes is read.
fn pair_of(work: &[u64], kind: u16, l: u16, r: u16, lw: f64, rw: f64) -> Result<Candidate, NotMade>
    requires { length work.now ≡ work_words }
    ensures { result ≡ pair_of kind (node_at work.now l) l (node_at work.now r) r lw rw }
{
    if fits(kind, type_at(work, l), type_at(work, r)) {
        let x = node(work, l);
        let y = node(work, r);
        return Candidate::pair(kind, x, l, y, r, lw, rw);
    }
    Err(NotMade::PassedOver)
}

// The triple of nodes l, r and e, in the same way.
fn triple_of(work: &[u64], l: u16, r: u16, e: u16, lw: f64, rw: f64) -> Result<Candidate, NotMade>
    requires { length work.now ≡ work_words }
    ensures { result ≡ and_or (node_at work.now l) l (node_at work.now r) r (node_at work.now e) e lw rw }
{
    if Type::and_or(type_at(work, l), type_at(work, r), type_at(work, e)).is_ok() {
        let x = node(work, l);
        let y = node(work, r);
        let z = node(work, e);
        return Candidate::and_or(x, l, y, r, z, e, lw, rw);
    }
    Err(NotMade::PassedOver)
}

// The i-th pair.
fn pair_at(work: &[u64], a: Pairing, slots: [u16; 8], i: usize) -> Result<Candidate, NotMade>
    requires { Paired work.now a slots × ((eqb a.kind 55 ≡ false) × (i < count_of work.now a slots)) }
    ensures { MadeAt work.now a slots i result }
{
    let n = length_at(work, slots, a.second);
    let l = entry_at(work, slots, a.first, i / n);
    let r = entry_at(work, slots, a.second, i % n);
    pair_of(work, a.kind, l, r, a.lw, a.rw)
}

// The i-th triple.
fn triple_at(work: &[u64], a: Pairing, slots: [u16; 8], i: usize) -> Result<Candidate, NotMade>
    requires { Paired work.now a slots × ((eqb a.kind 55 ≡ true) × (i < count_of work.now a slots)) }
    ensures { MadeAt work.now a slots i result }
{
    let nb = length_at(work, slots, a.second);
    let nc = length_at(work, slots, a.third);
    let l = entry_at(work, slots, a.first, i / nc / nb);
    let r = entry_at(work, slots, a.second, i / nc % nb);
    let e = entry_at(work, slots, a.third, i % nc);
    triple_of(work, l, r, e, a.lw, a.rw)
}

// The i-th candidate that the pairing makes.
pub fn made(work: &[u64], a: Pairing, slots: [u16; 8], i: usize) -> Result<Candidate, NotMade>
    requires { Paired work.now a slots × (i < count_of work.now a slots) }
    ensures { MadeAt work.now a slots i result }
{
    if a.kind == AND_OR {
        return triple_at(work, a, slots, i);
    }
    pair_at(work, a, slots, i)
}
