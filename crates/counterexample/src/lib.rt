// One assignment under which a policy holds and a fragment tree does not, or the other way round: the first in the order of the truth tables.
//
// The contracts cite specs/Example.antt.
#![tactic(auto)]

ghost use Rattle.std.specs.Prelude.{◌≡◌, ◌<◌, length, get_or};
ghost use Rattle.policies.specs.Policy.{Policy};
ghost use Rattle.policies.specs.Array.{policy_at, Good};
ghost use Rattle.policies.specs.Reading as policies;
ghost use Rattle.policies.specs.Reading.{max_records, read_policy};
ghost use Rattle.trees.specs.Fragment.{Fragment};
ghost use Rattle.walk.specs.TreeRecords.{TreeRecords, Written};
ghost use Rattle.variables.specs.Gathering.{row_of, Roomy};
ghost use Rattle.truth.specs.Words.{bit_at, block_words};
ghost use Rattle.counterexample.specs.Example.{ApartAt, Shows, Tells};

use variables::Vars;

// The words of work memory that it takes, and the part of them that the tree check takes.
const WORK_WORDS: usize = 65536;

const CHECK_WORDS: usize = 4096;

// The blocks of assignments, and the assignments of a block.
const BLOCKS: u64 = 64;

const BITS: u64 = 64;

// A bit in which two words differ, and that bit of the left word.
#[derive(Clone, Copy)]
pub struct Apart {
    pub bit: u64,
    pub left: bool,
}

// An assignment, by its block and its bit in the truth tables, and whether the policy holds under it.
#[derive(Clone, Copy)]
pub struct Example {
    pub block: u64,
    pub bit: u64,
    pub holds: bool,
}

// The same with the variables.
#[derive(Clone, Copy)]
pub struct Told {
    pub vars: Vars,
    pub example: Example,
}

// Bit j of a word.
fn bit_of(word: u64, j: u64) -> bool
    ensures { result ≡ bit_at word j }
{
    let mut x = word;
    for i in 0..j {
        x /= 2;
    }
    x % 2 == 1
}

// The first bit in which two words differ.
fn first_apart(left: u64, right: u64) -> Option<Apart>
    ensures { ApartAt left right result }
{
    for bit in 0..BITS {
        let a = bit_of(left, bit);
        let b = bit_of(right, bit);
        if a != b {
            return Some(Apart { bit, left: a });
        }
    }
    None
}

// The first assignment of a block.
fn in_block(
    pol: &[u64],
    root: usize,
    tree: &[u8],
    work: &mut [u64],
    t: Vars,
    block: u64,
) -> Option<Example>
    requires { (Good pol.now × (root < max_records)) × (Written tree.now × ((length work.old ≡ 65536) × Roomy t)) }
    ensures shows { (f : Fragment) → TreeRecords tree.now f → Shows (policy_at pol.now root) f (row_of t) result }
    ensures work_len_unchanged { length work.new ≡ length work.old }
{
    let words = truth::block_words(block);
    let left = truth::policy_word(pol, root, t, words);
    let right = truth::tree_word(tree, work, t, words);
    let apart = first_apart(left, right)?;
    Some(Example {
        block,
        bit: apart.bit,
        holds: apart.left,
    })
}

// The first assignment of all.
fn in_blocks(pol: &[u64], root: usize, tree: &[u8], work: &mut [u64], t: Vars) -> Option<Example>
    requires { (Good pol.now × (root < max_records)) × (Written tree.now × ((length work.old ≡ 65536) × Roomy t)) }
    ensures { (f : Fragment) → TreeRecords tree.now f → Shows (policy_at pol.now root) f (row_of t) result }
{
    for block in 0..BLOCKS {
        if let Some(example) = in_block(pol, root, tree, work, t, block) {
            return Some(example);
        }
    }
    None
}

// That of a policy that was read and a tree that the check passed.
fn in_both(pol: &[u64], root: usize, tree: &[u8], work: &mut [u64]) -> Option<Told>
    requires { (Good pol.now × (root < max_records)) × (Written tree.now × (length work.old ≡ 65536)) }
    ensures { (f : Fragment) → TreeRecords tree.now f → Tells (policy_at pol.now root) f result }
{
    let first = variables::none_yet();
    let second = variables::add_policy(pol, root, first);
    let vars = variables::add_tree(tree, second);
    let example = in_blocks(pol, root, tree, work, vars)?;
    Some(Told { vars, example })
}

// That of a policy that was read and a tree, if the tree check passes it.
fn in_tree(context: u32, pol: &[u64], root: usize, tree: &[u8], work: &mut [u64]) -> Option<Told>
    requires { (Good pol.now × (root < max_records)) × (length work.old ≡ 65536) }
    ensures { (f : Fragment) → TreeRecords tree.now f → Tells (policy_at pol.now root) f result }
{
    match trees::check(context, tree, &mut work[0..CHECK_WORDS]) {
        Ok(_) => in_both(pol, root, tree, work),
        Err(_) => None,
    }
}

// An assignment under which a policy and a tree differ, if both are read and one is found in the truth tables.
pub fn example_of(context: u32, policy: &[u8], tree: &[u8], work: &mut [u64]) -> Option<Told>
    ensures { (p : Policy) → read_policy policy.now ≡ policies.done p
        → (f : Fragment) → TreeRecords tree.now f → Tells p f result }
{
    if work.len() != WORK_WORDS {
        return None;
    }
    let mut pol = [0u64; 2560];
    match policies::read_policy(policy, &mut pol) {
        Ok(root) => in_tree(context, &pol, root, tree, work),
        Err(_) => None,
    }
}

// Whether variable i holds under an assignment.
pub fn value_of(example: Example, i: usize) -> bool
    requires { i < 12 }
    ensures { result ≡ bit_at (get_or (block_words example.block) i 0) example.bit }
{
    let words = truth::block_words(example.block);
    bit_of(words[i], example.bit)
}
