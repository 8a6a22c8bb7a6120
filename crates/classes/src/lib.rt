// Classes of equal policies: whether two numbers of a policy's array stand for equal policies, and for each number its class, the least
// number that stands for an equal one, so that what is remembered by policy structure is found by comparing numbers.
//
// Its contracts cite `specs/Classes.antt`. The laws that crates above cite stand in `proofs/Laws.antt`.
#![tactic(auto)]

ghost use Rattle.std.specs.Prelude.{◌≡◌, ◌<◌};
ghost use Rattle.policies.specs.Array.{policy_at, Good, Named};
ghost use Rattle.classes.specs.Classes.{Decides, Stands, Least, ClassPut, max_numbers, class_place, class_at, Classified, ClassesRead};

use policies::Head;
use refusals::Refusal;

// The numbers below 64 are those of records; sixteen for each record follow, of the Ands over its children.
const MAX_RECORDS: usize = 64;

const MAX_CHILDREN: usize = 16;

const MAX_NUMBERS: usize = 1088;

// The words of a row, and the places of its class and of the classes of its Ands.
const ROW_WORDS: usize = 40;

const CLASS: usize = 23;

const AND_CLASSES: usize = 24;

// Whether two heads are equal.
fn same_heads(a: Head, b: Head) -> bool
    ensures { Decides result (a ≡ b) }
{
    if a.kind != b.kind {
        return false;
    }
    if a.number != b.number {
        return false;
    }
    if a.k != b.k {
        return false;
    }
    if a.count != b.count {
        return false;
    }
    if a.left_weight != b.left_weight {
        return false;
    }
    if a.right_weight != b.right_weight {
        return false;
    }
    true
}

// Whether two numbers stand for equal policies.
pub fn same(pol: &[u64], r: usize, q: usize) -> bool
    requires { Good pol.now × (Named pol.now r × Named pol.now q) }
    ensures { Decides result (policy_at pol.now r ≡ policy_at pol.now q) }
{
    let a = policies::head_of(pol, r);
    let b = policies::head_of(pol, q);
    if !same_heads(a, b) {
        return false;
    }
    let n = a.count;
    for j in 0..n {
        let x = policies::child(pol, r, j);
        let y = policies::child(pol, q, j);
        if !same(pol, x, y) {
            return false;
        }
    }
    true
}

// Whether number r is a record's, or of an And over a record's children.
fn is_named(pol: &[u64], r: usize) -> bool
    requires { Good pol.now }
    ensures { Decides result (Named pol.now r) }
{
    if r < MAX_RECORDS {
        return true;
    }
    let i = (r - MAX_RECORDS) / MAX_CHILDREN;
    if MAX_RECORDS <= i {
        return false;
    }
    let n = policies::head_of(pol, i).count;
    (r - MAX_RECORDS) % MAX_CHILDREN + 1 < n
}

// Whether number c stands for the policy that r stands for.
fn is_same(pol: &[u64], c: usize, r: usize) -> bool
    requires { Good pol.now × Named pol.now r }
    ensures { Decides result (Stands pol.now r c) }
{
    if !is_named(pol, c) {
        return false;
    }
    same(pol, c, r)
}

// The class of number r.
fn find_class(pol: &[u64], r: usize) -> usize
    requires { Good pol.now × Named pol.now r }
    ensures { Least pol.now r result }
{
    for c in 0..r {
        if is_same(pol, c, r) {
            return c;
        }
    }
    r
}

// The place of a number's class in the array.
fn class_place(r: usize) -> usize
    requires { r < max_numbers }
    ensures { result ≡ class_place r }
{
    if r < MAX_RECORDS {
        return ROW_WORDS * r + CLASS;
    }
    let i = (r - MAX_RECORDS) / MAX_CHILDREN;
    ROW_WORDS * i + (AND_CLASSES + (r - MAX_RECORDS) % MAX_CHILDREN)
}

// The class that the array has of number r, and 0 where it has none.
pub fn class_of(pol: &[u64], r: usize) -> usize
    ensures { result ≡ class_at pol.now r }
{
    if r < MAX_NUMBERS {
        let at = class_place(r);
        if at < pol.len() {
            return pol[at] as usize;
        }
    }
    0
}

// Writes the class of number r, if it is one.
fn put_class(pol: &mut [u64], r: usize)
    requires { Good pol.old × (r < max_numbers) }
    ensures { ClassPut pol.old pol.new r }
{
    if !is_named(pol, r) {
        return;
    }
    let c = find_class(pol, r);
    let at = class_place(r);
    pol[at] = c as u64;
}

// Writes the class of every number.
pub fn classify(pol: &mut [u64])
    requires { Good pol.old }
    ensures { Classified pol.old pol.new }
{
    for r in 0..MAX_NUMBERS {
        put_class(pol, r);
    }
}

// Reads a policy into the array that is lent, with the class of every number.
pub fn read_classified(bytes: &[u8], pol: &mut [u64]) -> Result<usize, Refusal>
    ensures { ClassesRead bytes.now pol.old result pol.new }
{
    let root = policies::read_policy(bytes, pol)?;
    classify(pol);
    Ok(root)
}
