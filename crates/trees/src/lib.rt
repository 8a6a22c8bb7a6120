// Fragment trees: when a byte string writes one, and the tree check, which gives its type.
//
// specs/Fragment.antt has the trees, specs/Typing.antt the type of a tree by the rules of the crate `types`, specs/Height.antt how tall it is,
// specs/Reading.antt and specs/Tree.antt when bytes write a tree, specs/TreeCheck.antt the check. The contract of `check` cites specs/Checked.antt and
// specs/TreeCheck.antt; those of the inner functions cite specs/Rules.antt and specs/WorkMemory.antt.
#![tactic(auto)]

ghost use Rattle.std.specs.Prelude.{[], ◌∷◌, ◌++◌, ◌≡◌, ℕ, max, ◌+◌, ◌-◌, ◌<◌, ◌≤◌, length, get_or, set, take, None, Some};
ghost use Rattle.types.specs.TypeRules.{multi, multi_a};
ghost use Rattle.trees.specs.Typing.{in_segwitv0, in_tap};
ghost use Rattle.trees.specs.Height.{max_height};
ghost use Rattle.trees.specs.Reading.{done, or_refuse, bad_tree, max_records, take_all, read_tree};
ghost use Rattle.trees.specs.Rules.{answered, rule_of, types_of, tallest, make_subtree};
ghost use Rattle.trees.specs.TreeCheck.{check_of, check_in};
ghost use Rattle.trees.specs.Checked.{answer_of, type_only};
ghost use Rattle.trees.specs.WorkMemory.{slot_of, slots_in, children_taken, type_in, Placed, Stepped};
ghost use Rattle.records.specs.Shapes.{arity};
ghost use Rattle.words.specs.Memory.{zeroed};

use contexts::Context;
use correctness::TypeError;
use refusals::Refusal;
use types::Type;

// The type of a tree, and how tall it is.
#[derive(Clone, Copy)]
pub struct Subtree {
    pub ty: Type,
    pub height: u64,
}

// The most records that a tree may have; work memory has a word for each.
pub const MAX_RECORDS: usize = 4096;

// How tall a tree may be, a leaf being 1.
pub const MAX_HEIGHT: u64 = 128;

// A slot's height counts from here, above its type.
const HEIGHTS: u64 = 0x400;

// The type of a record of kind 32 to 41.
fn leaf_type(kind: u16) -> Type
    requires { (32 ≤ kind) × (kind ≤ 41) }
    ensures { (c : Context) (k : ℕ) → rule_of kind c k [] ≡ done result }
{
    // A kind stays a number: a record or a node holds one, and the contract answers on every number.
    match kind {
        32 => Type::of_false(),
        33 => Type::of_true(),
        34 => Type::pk_k(),
        35 => Type::pk_h(),
        36 => Type::time(),
        37 => Type::time(),
        _ => Type::hash(),
    }
}

// The type of a cast of kind 42 to 48.
fn cast_type(context: Context, kind: u16, x: Type) -> Result<Type, TypeError>
    requires { (42 ≤ kind) × (kind ≤ 48) }
    ensures { (k : ℕ) → rule_of kind context k (x ∷ []) ≡ answered result }
{
    // A kind stays a number: a record or a node holds one, and the contract answers on every number.
    match kind {
        42 => x.cast_alt(),
        43 => x.cast_swap(),
        44 => x.cast_check(),
        45 => x.cast_dupif(context),
        46 => x.cast_verify(),
        47 => x.cast_nonzero(),
        _ => x.cast_zeronotequal(),
    }
}

// The type of a pair of kind 49 to 54.
fn pair_type(kind: u16, x: Type, y: Type) -> Result<Type, TypeError>
    requires { (49 ≤ kind) × (kind ≤ 54) }
    ensures { (c : Context) (k : ℕ) → rule_of kind c k (x ∷ y ∷ []) ≡ answered result }
{
    // A kind stays a number: a record or a node holds one, and the contract answers on every number.
    match kind {
        49 => Type::and_b(x, y),
        50 => Type::and_v(x, y),
        51 => Type::or_b(x, y),
        52 => Type::or_d(x, y),
        53 => Type::or_c(x, y),
        _ => Type::or_i(x, y),
    }
}

// The type of Multi, which SegWit v0 alone has.
fn multi_type(context: Context) -> Result<Type, TypeError>
    ensures { result ≡ in_segwitv0 context multi }
{
    match context {
        Context::Segwitv0 => Ok(Type::multi()),
        Context::Tap => Err(TypeError::IllTyped),
    }
}

// The type of MultiA, which Tapscript alone has.
fn multi_a_type(context: Context) -> Result<Type, TypeError>
    ensures { result ≡ in_tap context multi_a }
{
    match context {
        Context::Segwitv0 => Err(TypeError::IllTyped),
        Context::Tap => Ok(Type::multi_a()),
    }
}

// What a word of work memory holds.
pub fn slot_of(word: u64) -> Option<Subtree>
    ensures { result ≡ slot_of word }
{
    let packed = word % HEIGHTS;
    if packed == 0 {
        return None;
    }
    let ty = Type::unpack((packed - 1) as u32)?;
    Some(Subtree {
        ty,
        height: word / HEIGHTS,
    })
}

// The type of a record of this kind, that has `count` children or keys, from the types of its children.
pub fn rule_of(
    context: Context,
    kind: u16,
    k: usize,
    count: usize,
    types: [Type; 16],
) -> Result<Type, TypeError>
    requires { (32 ≤ kind) × (kind ≤ 58) × (count ≤ 16) }
    ensures { rule_of kind context k (take (arity kind count) types) ≡ answered result }
{
    // A kind stays a number: a record or a node holds one, and the contract answers on every number.
    match kind {
        32..=41 => Ok(leaf_type(kind)),
        42..=48 => { cast_type(context, kind, types[0]) }
        49..=54 => { pair_type(kind, types[0], types[1]) }
        55 => { Type::and_or(types[0], types[1], types[2]) }
        56 => Type::threshold(k, count, types),
        57 => multi_type(context),
        58 => multi_a_type(context),
        _ => Err(TypeError::IllTyped),
    }
}

// Takes a child from the slots of the first `read` records and says what it held.
fn take_child(work: &mut [u64], read: usize, child: usize) -> Option<Subtree>
    requires { read ≤ length work.old }
    ensures value { result ≡ get_or (slots_in work.old read) child None }
    ensures read_after { slots_in work.new read ≡ set (slots_in work.old read) child None }
    ensures work_len_unchanged { length work.new ≡ length work.old }
{
    if child < read {
        let word = work[child];
        work[child] = 0;
        return slot_of(word);
    }
    None
}

// Takes the first n of some children, from left to right, if all are there.
fn take_children(
    work: &mut [u64],
    read: usize,
    children: [u16; 16],
    n: usize,
) -> Option<[Subtree; 16]>
    requires { (read ≤ length work.old) × (n ≤ 16) }
    ensures read_value { take_all (take n children) (slots_in work.old read) ≡ children_taken result n (slots_in work.new read) }
    ensures work_len_unchanged { length work.new ≡ length work.old }
{
    let none = Subtree {
        ty: Type::of_false(),
        height: 0,
    };
    let mut subtrees = [none; 16];
    for i in 0..n {
        let child = children[i] as usize;
        subtrees[i] = take_child(work, read, child)?;
    }
    Some(subtrees)
}

// The types of some trees.
pub fn types_of(subtrees: [Subtree; 16]) -> [Type; 16]
    ensures { result ≡ types_of subtrees }
{
    let none = Type::of_false();
    let mut types = [none; 16];
    for i in 0..16 {
        types[i] = subtrees[i].ty;
    }
    types
}

// How tall the tallest of the first n trees is, and 0 for none.
pub fn tallest(subtrees: [Subtree; 16], n: usize) -> u64
    requires { n ≤ 16 }
    ensures { result ≡ tallest (take n subtrees) }
{
    let mut tall = 0u64;
    for i in 0..n {
        tall = tall.max(subtrees[i].height);
    }
    tall
}

// Adds a slot that holds a tree behind those of the first `read` records.
fn add_slot(work: &mut [u64], read: usize, x: Subtree)
    requires { (read < length work.old) × (x.height ≤ max_height) }
    ensures read_after { slots_in work.new (read + 1) ≡ slots_in work.old read ++ (Some x ∷ []) }
    ensures work_len_unchanged { length work.new ≡ length work.old }
{
    let ty = x.ty;
    work[read] = (ty.pack() as u64) + 1 + x.height * HEIGHTS;
}

// Adds the slot of a well-typed record with n children, unless it is too tall.
fn add_record(
    work: &mut [u64],
    read: usize,
    ty: Type,
    children: [Subtree; 16],
    n: usize,
) -> Result<usize, Refusal>
    requires { (read < length work.old) × (n ≤ 16) }
    ensures { Placed work.old work.new read ty (take n children) n result }
{
    let below = tallest(children, n);
    if below >= MAX_HEIGHT {
        return Err(Refusal::TreeTooTall);
    }
    let x = Subtree {
        ty,
        height: below + 1,
    };
    add_slot(work, read, x);
    Ok(n)
}

// Reads a whole record when `read` records are read: takes its children and adds its own slot.
fn check_record(
    context: Context,
    bytes: &[u8],
    work: &mut [u64],
    read: usize,
) -> Result<usize, Refusal>
    requires { read < length work.old }
    ensures { Stepped context bytes.now work.old work.new read result }
{
    let parts = records::fragment_parts(bytes);
    if !parts.fits {
        return Err(Refusal::BadTree);
    }
    let kind = records::kind_of(bytes);
    let n = records::arity(kind, parts.count);
    let Some(subtrees) = take_children(work, read, parts.children, n) else {
        return Err(Refusal::BadTree);
    };
    let types = types_of(subtrees);
    let Ok(ty) = rule_of(context, kind, parts.k as usize, parts.count, types) else {
        return Err(Refusal::IllTyped);
    };
    add_record(work, read, ty, subtrees, n)
}

// The type of the root where one of `read` slots is free, which is the last.
fn root_type(work: &mut [u64], read: usize) -> Result<Type, Refusal>
    requires { (1 ≤ read) × (read ≤ length work.old) }
    ensures result_value { answer_of result ≡ type_in (or_refuse bad_tree (get_or (slots_in work.old read) (read - 1) None)) }
    ensures work_unchanged { work.new ≡ work.old }
{
    let Some(root) = slot_of(work[read - 1]) else {
        return Err(Refusal::BadTree);
    };
    Ok(root.ty)
}

// Reads all records of a tree.
fn check_records(context: Context, tree: &[u8], work: &mut [u64]) -> Result<Type, Refusal>
    requires { length work.old ≡ max_records }
    ensures result_value { answer_of result ≡ type_in (read_tree (make_subtree context) tree.now) }
    ensures work_len_unchanged { length work.new ≡ length work.old }
{
    let mut at = 0;
    let mut read = 0;
    let mut free = 0;
    // A `while`, since records are of unequal length.
    while at < tree.len() {
        if read == MAX_RECORDS {
            return Err(Refusal::TreeTooLarge);
        }
        let Some(len) = records::length_at(tree, at) else {
            return Err(Refusal::BadTree);
        };
        let end = at + len;
        let children = check_record(context, &tree[at..end], work, read)?;
        free = free + 1 - children;
        at = end;
        read += 1;
    }
    if free == 1 {
        return root_type(work, read);
    }
    Err(Refusal::BadTree)
}

// The tree check in one context.
fn check_in(context: Context, tree: &[u8], work: &mut [u64]) -> Result<Type, Refusal>
    ensures result_value { answer_of result ≡ type_only (check_in context tree.now (length work.old)) }
    ensures work_after { work.new ≡ zeroed work.old }
{
    if work.len() != MAX_RECORDS {
        words::clear(work);
        return Err(Refusal::BadWork);
    }
    let r = check_records(context, tree, work);
    words::clear(work);
    r
}

// The tree check: the type of the tree that some bytes write in a context, or its refusal. Work memory is zero afterwards.
pub fn check(context: u32, tree: &[u8], work: &mut [u64]) -> Result<Type, Refusal>
    ensures result_value { answer_of result ≡ type_only (check_of context tree.now (length work.old)) }
    ensures work_after { work.new ≡ zeroed work.old }
{
    match context {
        0 => check_in(Context::Segwitv0, tree, work),
        1 => check_in(Context::Tap, tree, work),
        _ => {
            words::clear(work);
            Err(Refusal::BadContext)
        }
    }
}
