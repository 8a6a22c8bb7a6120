// How many bytes of the script a leaf has, and the pieces around a fragment's children: the sizes of crate `index_places`, computed.
#![tactic(auto)]

ghost use Rattle.std.specs.Prelude.{◌≡◌, ◌≤◌, ◌<◌, length};
ghost use Rattle.script_leaves.specs.Leaves.{numbered, leaf_of};
ghost use Rattle.script_entry.specs.Pieces.{front, after, last};
ghost use Rattle.index_places.specs.Sizes.{verify_size, number_size, key_push, size_of};

use contexts::Context;

// The push of a number.
fn number_size(n: u32) -> u64
    ensures { (result ≡ number_size n) × (result ≤ 256) }
{
    if n <= 16 {
        return 1;
    }
    1 + script_leaves::width_of(n) as u64
}

// A VERIFY that is not merged.
fn verify_size(verified: bool) -> u64
    ensures { (result ≡ verify_size verified) × (result ≤ 1) }
{
    if verified { 1 } else { 0 }
}

// The push of a key.
fn key_push(context: Context) -> u64
    ensures { (result ≡ key_push context) × (result ≤ 34) }
{
    match context {
        Context::Segwitv0 => 34,
        Context::Tap => 33,
    }
}

// A leaf that holds one number or none; a lock's is a u32.
#[tactic(auto, unfolding(trees::specs::Tree::find, script_leaves::specs::Leaves::numbered, index_places::specs::Sizes::size_of))]
fn numbered_size(context: Context, kind: u16, n: u64, verified: bool) -> u64
    requires { 35 < kind → kind < 38 → n < 4294967296 }
    ensures { (result ≡ size_of context verified (numbered kind n)) × (result ≤ 512) }
{
    let more = verify_size(verified);
    // A kind stays a number: a record or a node holds one, and the contract answers on every number.
    match kind {
        33 => 1 + more,
        34 => key_push(context) + more,
        35 => 24 + more,
        36..=37 => number_size(n as u32) + (1 + more),
        38..=39 => 39,
        40..=41 => 27,
        _ => 1 + more,
    }
}

// A leaf.
pub fn leaf_size(context: Context, bytes: &[u8], verified: bool) -> u64
    ensures { result ≡ size_of context verified (leaf_of bytes.now) }
{
    let kind = records::kind_of(bytes);
    let k = records::k_of(bytes) as u32;
    let count = records::count_of(bytes) as u32;
    // A kind stays a number: a record or a node holds one, and the contract answers on every number.
    match kind {
        57 => number_size(k) + key_push(context) * (count as u64) + (number_size(count) + 1),
        58 => (key_push(context) + 1) * (count as u64) + (number_size(k) + 1),
        _ => numbered_size(context, kind, records::number_of(bytes), verified),
    }
}

// What stands before the first child.
#[tactic(auto, unfolding(trees::specs::Tree::find))]
pub fn front_size(kind: u16) -> u64
    ensures { (result ≡ length (front kind)) × (result ≤ 3) }
{
    // A kind stays a number: a record or a node holds one, and the contract answers on every number.
    match kind {
        42 | 43 | 54 => 1,
        45 => 2,
        47 => 3,
        _ => 0,
    }
}

// What follows the first child.
#[tactic(auto, unfolding(trees::specs::Tree::find))]
fn after_first_size(kind: u16) -> u64
    ensures { (result ≡ length (after kind 0)) × (result ≤ 2) }
{
    // A kind stays a number: a record or a node holds one, and the contract answers on every number.
    match kind {
        52 => 2,
        53..=55 => 1,
        _ => 0,
    }
}

// What follows child number j.
#[tactic(auto, unfolding(trees::specs::Tree::find))]
pub fn after_size(kind: u16, j: usize) -> u64
    ensures { (result ≡ length (after kind j)) × (result ≤ 2) }
{
    if j == 0 {
        return after_first_size(kind);
    }
    // A kind stays a number: a record or a node holds one, and the contract answers on every number.
    match kind {
        55 if j == 1 => 1,
        56 => 1,
        _ => 0,
    }
}

// What stands last.
#[tactic(auto, unfolding(trees::specs::Tree::find))]
pub fn last_size(kind: u16, k: u16, verified: bool) -> u64
    ensures { (result ≡ length (last kind k verified)) × (result ≤ 512) }
{
    // A kind stays a number: a record or a node holds one, and the contract answers on every number.
    match kind {
        43 | 50 => 0,
        44 => 1,
        46 => verify_size(verified),
        56 => number_size(k as u32) + 1,
        _ => 1 + verify_size(verified),
    }
}
