// Whether a fragment tree from elsewhere stands for a policy: the entry, which claspwillow_c exports to C. It asks nothing of its caller.
//
// The entry's promise stands in specs/Accept.antt, and proofs/Determined.antt shows that it determines the outcome. The inner contracts cite
// specs/Verdicts.antt.
#![tactic(auto)]

ghost use Rattle.std.specs.Prelude.{◌≡◌, ◌<◌, length, Some};
ghost use Rattle.contexts.specs.declared.Context.{Context};
ghost use Rattle.policies.specs.Array.{policy_at, Good};
ghost use Rattle.policies.specs.Reading.{max_records, read_policy};
ghost use Rattle.trees.specs.Fragment.{Fragment};
ghost use Rattle.trees.specs.TreeCheck.{context_of};
ghost use Rattle.walk.specs.TreeRecords.{TreeRecords, Written};
ghost use Rattle.claspwillow.specs.Results.{number_in};
ghost use Rattle.accept_entry.specs.Accept.{work_words, read_both, tree_passing, Verdict, Results, pair_in, AcceptPromise};
ghost use Rattle.accept_entry.specs.Verdicts.{demanded, TypedResults};

use contexts::Context;
use correctness::Base;
use refusals::Refusal;
use types::Type;

// The one length of work memory, sixteen words a record, and the part of it that the tree check takes.
const WORK_WORDS: usize = 65536;

const CHECK_WORDS: usize = 4096;

// The first demand on its type that a tree does not meet.
fn demand(t: Type) -> Result<(), Refusal>
    ensures { result ≡ demanded t }
{
    if t.corr.base != Base::B {
        return Err(Refusal::NotB);
    }
    if !t.mall.safe {
        return Err(Refusal::NotSafe);
    }
    if !t.mall.non_malleable {
        return Err(Refusal::Malleable);
    }
    Ok(())
}

// Judges a tree that passes by itself: its variables and its meaning.
fn accept_meaning(pol: &[u64], root: usize, tree: &[u8], work: &mut [u64]) -> Result<(), Refusal>
    requires { (Good pol.now × (root < max_records)) × (Written tree.now × (length work.old ≡ work_words)) }
    ensures verdict { (f : Fragment) → TreeRecords tree.now f → Verdict (policy_at pol.now root) f (number_in result) }
    ensures work_len_unchanged { length work.new ≡ length work.old }
{
    let first = variables::none_yet();
    let second = variables::add_policy(pol, root, first);
    let all = variables::add_tree(tree, second);
    if all.over {
        return Err(Refusal::TooManyVariables);
    }
    if !truth::alike(pol, root, tree, work, all) {
        return Err(Refusal::OtherMeaning);
    }
    Ok(())
}

// Judges a tree that the check passed with this type.
fn accept_typed(
    context: Context,
    t: Type,
    pol: &[u64],
    root: usize,
    tree: &[u8],
    work: &mut [u64],
) -> Result<(), Refusal>
    requires { (Good pol.now × (root < max_records)) × (Written tree.now × (length work.old ≡ work_words)) }
    ensures typed_results { TypedResults context (policy_at pol.now root) tree.now t (number_in result) }
    ensures work_len_unchanged { length work.new ≡ length work.old }
{
    demand(t)?;
    if !tree_figures::all_valid(context, tree, work) {
        return Err(Refusal::LocallyInvalid);
    }
    accept_meaning(pol, root, tree, work)
}

// Judges a tree, where the policy is read.
fn accept_tree(
    context: u32,
    pol: &[u64],
    root: usize,
    tree: &[u8],
    work: &mut [u64],
) -> Result<(), Refusal>
    requires { (Good pol.now × (root < max_records)) × (length work.old ≡ work_words) }
    ensures results { (c : Context) → context_of context ≡ Some c
        → Results (tree_passing c context (policy_at pol.now root) tree.now) (number_in result) }
    ensures work_len_unchanged { length work.new ≡ length work.old }
{
    let t = trees::check(context, tree, &mut work[0..CHECK_WORDS])?;
    accept_typed(claspwillow::context_of(context), t, pol, root, tree, work)
}

// Judges a tree for a policy, in a context and with work memory of its one length.
fn accept_read(context: u32, policy: &[u8], tree: &[u8], work: &mut [u64]) -> Result<(), Refusal>
    requires { length work.old ≡ work_words }
    ensures results { (c : Context) → context_of context ≡ Some c → Results (read_both c context policy.now tree.now) (number_in result) }
    ensures work_len_unchanged { length work.new ≡ length work.old }
{
    let mut pol = [0u64; 2560];
    let root = policies::read_policy(policy, &mut pol)?;
    accept_tree(context, &pol, root, tree, work)
}

// Judges a tree for a policy, unless there is no such context or work memory has another length.
fn accept(context: u32, policy: &[u8], tree: &[u8], work: &mut [u64]) -> Result<(), Refusal>
    ensures results { Results (pair_in context policy.now tree.now work.old) (number_in result) }
    ensures work_len_unchanged { length work.new ≡ length work.old }
{
    if 2 <= context {
        return Err(Refusal::BadContext);
    }
    if work.len() != WORK_WORDS {
        return Err(Refusal::BadWork);
    }
    accept_read(context, policy, tree, work)
}

// Whether a tree from elsewhere stands for a policy: 0, or the number of document 02. Work memory is zero afterwards.
pub fn claspwillow_accept(context: u32, policy: &[u8], tree: &[u8], work: &mut [u64]) -> u32
    ensures { AcceptPromise context policy.now tree.now work.old result work.new }
{
    let r = accept(context, policy, tree, work);
    words::clear(work);
    match r {
        Ok(()) => 0,
        Err(e) => e.number(),
    }
}

// The one length of work memory that the entry takes, in words.
pub fn claspwillow_accept_work() -> usize
    ensures { result ≡ work_words }
{
    WORK_WORDS
}
