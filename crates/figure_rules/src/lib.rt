// The figures of a record's fragment from those of its children: which rule of `figures` and `thresholds` a record's kind has.
//
// Contracts cite specs/ByKind.antt. Nothing here reads memory: figures come and go by value.
#![tactic(auto)]

ghost use Rattle.std.specs.Prelude.{◌≡◌, ℕ, ◌≤◌, ◌<◌};
ghost use Rattle.figures.specs.Bounds.{Small};
ghost use Rattle.figure_rules.specs.ByKind.{lock_or_hash, leaf_of, cast_of, pair_of, figures_by, Ready};

use contexts::Context;
use figures::ExtData;

// A lock or a hash.
#[tactic(auto, unfolding(trees::specs::Tree::find))]
fn lock_or_hash(kind: u16, number: u64) -> ExtData
    requires { 36 ≤ kind → kind ≤ 37 → number < 4294967296 }
    ensures { result ≡ lock_or_hash kind number }
{
    // A kind stays a number: a record or a node holds one, and the contract answers on every number.
    match kind {
        36 => ExtData::after(number as u32),
        37 => ExtData::older(number as u32),
        38 => ExtData::sha256(),
        39 => ExtData::hash256(),
        40 => ExtData::ripemd160(),
        _ => ExtData::hash160(),
    }
}

// A leaf of this kind.
#[tactic(auto, unfolding(trees::specs::Tree::find))]
fn leaf(context: Context, kind: u16, number: u64, k: u16, n: u16) -> ExtData
    requires { (36 ≤ kind → kind ≤ 37 → number < 4294967296) × (56 ≤ kind → (1 ≤ k) × (k ≤ n) × (n ≤ 16)) }
    ensures { result ≡ leaf_of context kind number k n }
{
    // A kind stays a number: a record or a node holds one, and the contract answers on every number.
    match kind {
        32 => ExtData::FALSE(),
        33 => ExtData::TRUE(),
        34 => ExtData::pk_k(context),
        35 => ExtData::pk_h(context),
        57 => ExtData::multi(k, n),
        58 => ExtData::multi_a(k, n),
        _ => lock_or_hash(kind, number),
    }
}

// A wrapper of this kind.
#[tactic(auto, unfolding(trees::specs::Tree::find))]
fn cast(kind: u16, x: ExtData) -> ExtData
    requires { Small x }
    ensures { result ≡ cast_of kind x }
{
    // A kind stays a number: a record or a node holds one, and the contract answers on every number.
    match kind {
        42 => x.cast_alt(),
        43 => x.cast_swap(),
        44 => x.cast_check(),
        45 => x.cast_dupif(),
        46 => x.cast_verify(),
        47 => x.cast_nonzero(),
        _ => x.cast_zeronotequal(),
    }
}

// A fragment of this kind with two children.
#[tactic(auto, unfolding(trees::specs::Tree::find))]
fn pair(kind: u16, x: ExtData, y: ExtData) -> ExtData
    requires { Small x × Small y }
    ensures { result ≡ pair_of kind x y }
{
    // A kind stays a number: a record or a node holds one, and the contract answers on every number.
    match kind {
        49 => ExtData::and_b(x, y),
        50 => ExtData::and_v(x, y),
        51 => ExtData::or_b(x, y),
        52 => ExtData::or_d(x, y),
        53 => ExtData::or_c(x, y),
        _ => ExtData::or_i(x, y),
    }
}

// The figures of a record's fragment, from its kind, its number, its k, how many children or keys it has, and its children's figures.
pub fn figures_of(
    context: Context,
    kind: u16,
    number: u64,
    k: u16,
    n: u16,
    children: [ExtData; 16],
) -> ExtData
    requires { (h : ℕ) × Ready h kind number k n children }
    ensures { result ≡ figures_by context kind number k n children }
{
    // A kind stays a number: a record or a node holds one, and the contract answers on every number.
    match kind {
        42..=48 => {
            let x = children[0];
            cast(kind, x)
        }
        49..=54 => {
            let x = children[0];
            let y = children[1];
            pair(kind, x, y)
        }
        55 => {
            let x = children[0];
            let y = children[1];
            let z = children[2];
            ExtData::and_or(x, y, z)
        }
        56 => thresholds::threshold(k, n, children),
        _ => leaf(context, kind, number, k, n),
    }
}
