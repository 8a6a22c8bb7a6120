// The distinct variables of a policy and a fragment tree together, at most twelve, in the order in which they are met.
//
// specs/Variables.antt says which variables each has. Contracts cite specs/Gathering.antt: variables as a class and a number, the row of those
// met so far, and what stands in one record.
#![tactic(auto)]

ghost use Rattle.std.specs.Prelude.{◌≡◌, List, [], ◌∷◌, map, ◌++◌, ◌<◌, ◌≤◌, length, take};
ghost use Rattle.records.specs.Payloads.{first_keys};
ghost use Rattle.walk.specs.Heads.{head_in};
ghost use Rattle.trees.specs.Fragment.{Fragment};
ghost use Rattle.walk.specs.TreeRecords.{TreeRecords, Written};
ghost use Rattle.policies.specs.Reading.{max_records};
ghost use Rattle.policies.specs.Array.{policy_at, Good};
ghost use Rattle.meaning.specs.Meaning.{Variable};
ghost use Rattle.variables.specs.Variables.{policy_variables, tree_variables};
ghost use Rattle.variables.specs.Gathering.{code_of, has_code, row_of, Roomy, add_code, Gathered, code, key_code, class_in, OwnIs, Fits};

// The most distinct variables.
const MAX_VARIABLES: usize = 12;

// A variable: 0 a key, 1 After, 2 Older, 3 to 6 the four hashes; and its number.
#[derive(Clone, Copy, PartialEq, Eq)]
pub struct Var {
    pub class: u64,
    pub number: u64,
}

// What stands where no variable does.
const NO_VAR: Var = Var {
    class: 0,
    number: 0,
};

// The distinct variables met so far, or that there are more than twelve.
#[derive(Clone, Copy)]
pub struct Vars {
    pub list: [Var; 12],
    pub len: usize,
    pub over: bool,
}

// The variables that stand in one record.
#[derive(Clone, Copy)]
pub struct Own {
    pub list: [Var; 16],
    pub n: usize,
}

// No variables yet.
pub fn none_yet() -> Vars
    ensures gathered { Gathered result [] }
    ensures roomy { Roomy result }
{
    Vars {
        list: [NO_VAR; 12],
        len: 0,
        over: false,
    }
}

// Whether a variable was met.
fn has(t: Vars, x: Var) -> bool
    requires { Roomy t }
    ensures { result ≡ has_code x (row_of t) }
{
    t.list[..t.len].contains(&x)
}

// The variables with one more met.
pub fn add(t: Vars, x: Var) -> Vars
    requires { Roomy t }
    ensures value { result ≡ add_code t x }
    ensures roomy { Roomy result }
{
    if t.over {
        return t;
    }
    if has(t, x) {
        return t;
    }
    let n = t.len;
    if n == MAX_VARIABLES {
        return Vars { over: true, ..t };
    }
    let mut list = t.list;
    list[n] = x;
    Vars {
        list,
        len: n + 1,
        over: false,
    }
}

// The first n keys of a Multi's or a MultiA's record.
fn keys_of(bytes: &[u8], n: usize) -> [Var; 16]
    requires { n ≤ 16 }
    ensures result_len { length result ≡ 16 }
    ensures result_value { take n result ≡ map key_code (first_keys bytes.now n) }
{
    let mut list = [NO_VAR; 16];
    for j in 0..n {
        let number = records::key_at(bytes, j as u16);
        list[j] = Var { class: 0, number };
    }
    list
}

// The one variable of a leaf: kinds 34 and 35 are both keys.
fn one_of(kind: u16, number: u64) -> Own
    ensures { (result.n ≡ 1) × (length result.list ≡ 16) × (take 1 result.list ≡ code (class_in kind) number ∷ []) }
{
    let x = Var {
        class: u64::from(kind.saturating_sub(35)),
        number,
    };
    Own {
        list: [x; 16],
        n: 1,
    }
}

// No variable.
fn nothing() -> Own
    ensures { (result.n ≡ 0) × (length result.list ≡ 16) }
{
    Own {
        list: [NO_VAR; 16],
        n: 0,
    }
}

// The variables that stand in a record.
pub fn own_of(bytes: &[u8]) -> Own
    requires { Fits bytes.now }
    ensures { OwnIs bytes.now result }
{
    let parts = records::fragment_parts(bytes);
    let kind = records::kind_of(bytes);
    if kind < 34 {
        return nothing();
    }
    if kind < 42 {
        return one_of(kind, parts.number);
    }
    if kind < 57 {
        return nothing();
    }
    let list = keys_of(bytes, parts.count);
    Own {
        list,
        n: parts.count,
    }
}

// The variables with those of a record met.
fn add_own(t: Vars, own: Own) -> Vars
    requires { Roomy t × ((own.n ≤ 16) × (length own.list ≡ 16)) }
    ensures gathered { (l vs : List Variable) → take own.n own.list ≡ map code_of vs → Gathered t l → Gathered result (l ++ vs) }
    ensures roomy { Roomy result }
{
    let list = own.list;
    let n = own.n;
    let mut all = t;
    for j in 0..n {
        all = add(all, list[j]);
    }
    all
}

// The variables with those of a tree met, record by record.
pub fn add_tree(tree: &[u8], t: Vars) -> Vars
    requires { Written tree.now × Roomy t }
    ensures gathered { (f : Fragment) → TreeRecords tree.now f → (l : List Variable) → Gathered t l → Gathered result (l ++ tree_variables f) }
    ensures roomy { Roomy result }
{
    let mut all = t;
    // Records are of unequal length.
    let mut at = 0;
    while at < tree.len() {
        let end = walk::record_end(tree, at);
        let own = own_of(&tree[at..end]);
        all = add_own(all, own);
        at = end;
    }
    all
}

// The variables with those of record i of a policy met.
pub fn add_policy(pol: &[u64], i: usize, t: Vars) -> Vars
    requires { Good pol.now × ((i < max_records) × Roomy t) }
    ensures gathered { (l : List Variable) → Gathered t l → Gathered result (l ++ policy_variables (policy_at pol.now i)) }
    ensures roomy { Roomy result }
{
    let head = policies::head_of(pol, i);
    let kind = head.kind;
    if kind < 3 {
        return t;
    }
    if kind < 10 {
        let x = Var {
            class: kind - 3,
            number: head.number,
        };
        return add(t, x);
    }
    let n = head.count;
    let mut all = t;
    for j in 0..n {
        let c = policies::child(pol, i, j);
        all = add_policy(pol, c, all);
    }
    all
}
