// The extremes of a record's fragment from those of its children: the rows of BIP 379's satisfaction table as code.
//
// Contracts cite `witness_ways`, specs/Extremes.antt (each row), and specs/ByKind.antt (which row a record's kind has). Nothing here reads
// memory: extremes come and go by value.
#![tactic(auto, using(crate::proofs::Bounds::loose))]

ghost use Rattle.std.specs.Prelude.{◌≡◌, ◌-◌, ◌≤◌, ◌<◌, min, max, take};
ghost use Rattle.witness_ways.specs.Elements.{signature_bytes, key_bytes};
ghost use Rattle.witness_ways.specs.Extremes.{just, ◌and◌, ◌or◌, some_of, false_ways, true_ways, hash_ways, pk_k_ways, pk_h_ways};
ghost use Rattle.witness_ways.specs.Extremes.{multi_ways, multi_a_ways, and_b_ways, and_v_ways, or_b_ways, or_c_ways, or_d_ways, or_i_ways, and_or_ways};
ghost use Rattle.witness_rules.specs.Bounds.{Below, BothBelow, AllBelow, RowBelow, small, large};
ghost use Rattle.witness_rules.specs.ByKind.{leaf_of, cast_of, pair_of, thresh_ways, ways_of, count_in, one_more_at, Counted};

use contexts::Context;
use witness_ways::{Both, Bytes};

// Ways that all have so many bytes.
fn just(n: u64) -> Option<Bytes>
    ensures { result ≡ just n }
{
    Some(Bytes { fewest: n, most: n })
}

// A way of each.
fn and(x: Option<Bytes>, y: Option<Bytes>) -> Option<Bytes>
    requires { Below large x × Below large y }
    ensures { result ≡ x and y }
{
    let x = x?;
    let y = y?;
    Some(Bytes {
        fewest: x.fewest + y.fewest,
        most: x.most + y.most,
    })
}

// A way of either.
fn or(x: Option<Bytes>, y: Option<Bytes>) -> Option<Bytes>
    ensures { result ≡ x or y }
{
    match (x, y) {
        (Some(a), Some(b)) => Some(Bytes {
            fewest: a.fewest.min(b.fewest),
            most: a.most.max(b.most),
        }),
        _ => x.or(y),
    }
}

// The bytes of a signature.
fn signature_bytes(context: Context) -> u64
    ensures { result ≡ signature_bytes context }
{
    match context {
        Context::Segwitv0 => 73,
        Context::Tap => 66,
    }
}

// The bytes of a key.
fn key_bytes(context: Context) -> u64
    ensures { result ≡ key_bytes context }
{
    match context {
        Context::Segwitv0 => 34,
        Context::Tap => 33,
    }
}

// False.
fn of_false() -> Both
    ensures { result ≡ false_ways }
{
    Both {
        satisfied: None,
        dissatisfied: just(0),
    }
}

// True and the locks.
fn of_true() -> Both
    ensures { result ≡ true_ways }
{
    Both {
        satisfied: just(0),
        dissatisfied: None,
    }
}

// A hash.
fn hash() -> Both
    ensures { result ≡ hash_ways }
{
    Both {
        satisfied: just(33),
        dissatisfied: None,
    }
}

// A key.
fn pk_k(context: Context) -> Both
    ensures { result ≡ pk_k_ways context }
{
    Both {
        satisfied: just(signature_bytes(context)),
        dissatisfied: just(1),
    }
}

// A key by its hash.
fn pk_h(context: Context) -> Both
    ensures { result ≡ pk_h_ways context }
{
    let key = key_bytes(context);
    Both {
        satisfied: just(signature_bytes(context) + key),
        dissatisfied: just(1 + key),
    }
}

// The way of k of n keys that sign, with so many bytes.
fn some_of(k: u64, n: u64, bytes: u64) -> Option<Bytes>
    ensures { result ≡ some_of k n bytes }
{
    if k <= n { just(bytes) } else { None }
}

// Multi, k of n keys.
fn multi(context: Context, k: u64, n: u64) -> Both
    requires { k < 65536 }
    ensures { result ≡ multi_ways context k n }
{
    let signatures = k * signature_bytes(context);
    Both {
        satisfied: and(just(1), some_of(k, n, signatures)),
        dissatisfied: just(1 + k),
    }
}

// MultiA, k of n keys.
fn multi_a(context: Context, k: u64, n: u64) -> Both
    requires { (k < 65536) × (n < 65536) }
    ensures { result ≡ multi_a_ways context k n }
{
    let signatures = k * signature_bytes(context);
    Both {
        satisfied: some_of(k, n, signatures + n.saturating_sub(k)),
        dissatisfied: just(n),
    }
}

// A leaf of this kind.
#[tactic(auto, unfolding(trees::specs::Tree::find))]
fn leaf(context: Context, kind: u16, k: u64, n: u64) -> Both
    requires { (k < 65536) × (n < 65536) }
    ensures { result ≡ leaf_of context kind k n }
{
    // A kind stays a number: a record or a node holds one, and the contract answers on every number.
    match kind {
        32 => of_false(),
        34 => pk_k(context),
        35 => pk_h(context),
        38..=41 => hash(),
        57 => multi(context, k, n),
        58 => multi_a(context, k, n),
        _ => of_true(),
    }
}

// A wrapper of this kind.
#[tactic(auto, unfolding(trees::specs::Tree::find))]
fn cast(kind: u16, x: Both) -> Both
    requires { BothBelow small x }
    ensures { result ≡ cast_of kind x }
{
    // A kind stays a number: a record or a node holds one, and the contract answers on every number.
    match kind {
        45 => Both {
            satisfied: and(x.satisfied, just(2)),
            dissatisfied: just(1),
        },
        46 => Both {
            satisfied: x.satisfied,
            dissatisfied: None,
        },
        47 => Both {
            satisfied: x.satisfied,
            dissatisfied: just(1),
        },
        _ => x,
    }
}

// AndB: both satisfied, or both dissatisfied.
fn and_b(x: Both, y: Both) -> Both
    requires { BothBelow small x × BothBelow small y }
    ensures { result ≡ and_b_ways x y }
{
    Both {
        satisfied: and(y.satisfied, x.satisfied),
        dissatisfied: and(y.dissatisfied, x.dissatisfied),
    }
}

// AndV: both satisfied.
fn and_v(x: Both, y: Both) -> Both
    requires { BothBelow small x × BothBelow small y }
    ensures { result ≡ and_v_ways x y }
{
    Both {
        satisfied: and(y.satisfied, x.satisfied),
        dissatisfied: None,
    }
}

// OrB: one satisfied and the other dissatisfied, or both dissatisfied.
fn or_b(x: Both, z: Both) -> Both
    requires { BothBelow small x × BothBelow small z }
    ensures { result ≡ or_b_ways x z }
{
    Both {
        satisfied: or(
            and(z.dissatisfied, x.satisfied),
            and(z.satisfied, x.dissatisfied),
        ),
        dissatisfied: and(z.dissatisfied, x.dissatisfied),
    }
}

// The first satisfied, or else the second.
fn or_else(x: Both, z: Both) -> Option<Bytes>
    requires { BothBelow small x × BothBelow small z }
    ensures { result ≡ (x.satisfied or (z.satisfied and x.dissatisfied)) }
{
    or(x.satisfied, and(z.satisfied, x.dissatisfied))
}

// OrC: it has no dissatisfaction.
fn or_c(x: Both, z: Both) -> Both
    requires { BothBelow small x × BothBelow small z }
    ensures { result ≡ or_c_ways x z }
{
    Both {
        satisfied: or_else(x, z),
        dissatisfied: None,
    }
}

// OrD: or both dissatisfied.
fn or_d(x: Both, z: Both) -> Both
    requires { BothBelow small x × BothBelow small z }
    ensures { result ≡ or_d_ways x z }
{
    Both {
        satisfied: or_else(x, z),
        dissatisfied: and(z.dissatisfied, x.dissatisfied),
    }
}

// One of two branches, with the element that chooses it.
fn branch(x: Option<Bytes>, z: Option<Bytes>) -> Option<Bytes>
    requires { Below small x × Below small z }
    ensures { result ≡ ((x and just 2) or (z and just 1)) }
{
    or(and(x, just(2)), and(z, just(1)))
}

// OrI: either branch.
fn or_i(x: Both, z: Both) -> Both
    requires { BothBelow small x × BothBelow small z }
    ensures { result ≡ or_i_ways x z }
{
    Both {
        satisfied: branch(x.satisfied, z.satisfied),
        dissatisfied: branch(x.dissatisfied, z.dissatisfied),
    }
}

// A fragment of this kind with two children.
#[tactic(auto, unfolding(trees::specs::Tree::find))]
fn pair(kind: u16, x: Both, y: Both) -> Both
    requires { BothBelow small x × BothBelow small y }
    ensures { result ≡ pair_of kind x y }
{
    // A kind stays a number: a record or a node holds one, and the contract answers on every number.
    match kind {
        49 => and_b(x, y),
        50 => and_v(x, y),
        51 => or_b(x, y),
        52 => or_d(x, y),
        53 => or_c(x, y),
        _ => or_i(x, y),
    }
}

// AndOr: the first and the second satisfied, or else the third.
fn and_or(x: Both, y: Both, z: Both) -> Both
    requires { BothBelow small x × BothBelow small y × BothBelow small z }
    ensures { result ≡ and_or_ways x y z }
{
    Both {
        satisfied: or(
            and(y.satisfied, x.satisfied),
            and(z.satisfied, x.dissatisfied),
        ),
        dissatisfied: and(z.dissatisfied, x.dissatisfied),
    }
}

// So many satisfied once a child more is counted: from one fewer with it satisfied, or from as many with it dissatisfied.
fn one_more(x: Both, fewer: Option<Bytes>, same: Option<Bytes>) -> Option<Bytes>
    requires { BothBelow small x × Below large fewer × Below large same }
    ensures { result ≡ ((fewer and x.satisfied) or (same and x.dissatisfied)) }
{
    or(and(fewer, x.satisfied), and(same, x.dissatisfied))
}

// The extremes by how many children are satisfied, from 0 to 16, once a child more is counted.
fn count_child(row: [Option<Bytes>; 17], x: Both) -> [Option<Bytes>; 17]
    requires { BothBelow small x × RowBelow row }
    ensures { Counted (one_more_at x row) result }
{
    let mut out = row;
    out[0] = and(row[0], x.dissatisfied);
    for j in 1..17 {
        out[j] = one_more(x, row[j - 1], row[j]);
    }
    out
}

// Those of k satisfied.
fn count_at(row: [Option<Bytes>; 17], k: usize) -> Option<Bytes>
    ensures { result ≡ count_in row k }
{
    if k < 17 {
        return row[k];
    }
    None
}

// Thresh, k of the first n children: they are counted from the last to the first.
fn threshold(k: usize, n: usize, children: [Both; 16]) -> Both
    requires { (n ≤ 16) × AllBelow small children }
    ensures { result ≡ thresh_ways k (take n children) }
{
    let mut row = [None; 17];
    row[0] = just(0);
    for i in (0..n).rev() {
        row = count_child(row, children[i]);
    }
    Both {
        satisfied: count_at(row, k),
        dissatisfied: count_at(row, 0),
    }
}

// The extremes of a record's fragment, from its kind, its k, how many children or keys it has, and its children's extremes.
pub fn ways_of(context: Context, kind: u16, k: u16, n: usize, children: [Both; 16]) -> Both
    requires { (n ≤ 16) × AllBelow small children }
    ensures { result ≡ ways_of context kind k n children }
{
    // A kind stays a number: a record or a node holds one, and the contract answers on every number.
    match kind {
        42..=48 => cast(kind, children[0]),
        49..=54 => pair(kind, children[0], children[1]),
        55 => and_or(children[0], children[1], children[2]),
        56 => threshold(k as usize, n, children),
        _ => leaf(context, kind, k as u64, n as u64),
    }
}
