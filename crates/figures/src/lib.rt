//! The figures of a fragment: script cost, free-verify, operations, what satisfying and dissatisfying it take, and its height.
//! The contracts cite specs/Rules.antt (the figures of each fragment), specs/Validity.antt (when a context takes them) and
//! specs/Bounds.antt (figures so small that no sum wraps).
#![tactic(auto)]

ghost use Rattle.std.specs.Prelude.{◌≡◌, not, ◌<◌, ◌≤◌};
ghost use Rattle.figures.specs.Bounds.{limit, SmallData, SmallSat, Small};
ghost use Rattle.figures.specs.Validity.{global_consensus, global_policy, ops_within, stack_within, items_within};
ghost use Rattle.figures.specs.Validity.{local_consensus, local_policy, check_global_validity, check_local_validity, from_ast};
ghost use Rattle.figures.specs.Rules.{max, num, fieldwise_max, fieldwise_max_opt, map_sat, concat, sat_concat, script_num_size};
ghost use Rattle.figures.specs.Rules.{false_ext, true_ext, key_bytes, max_sig_bytes, pk_k, pk_h, num_cost, multi, multi_a};
ghost use Rattle.figures.specs.Rules.{hash, sha256, hash256, ripemd160, hash160, lock, after, older};
ghost use Rattle.figures.specs.Rules.{cast_alt, cast_swap, cast_check, dup_if, one_element, cast_dupif, cast_verify, cast_nonzero};
ghost use Rattle.figures.specs.Rules.{cast_zeronotequal, cast_true, cast_unlikely, cast_likely};
ghost use Rattle.figures.specs.Rules.{over, and_b, and_v, or_b, or_d, or_c, with0, with1, either_branch, or_i, and_or};

use contexts::Context;

// Document 01's numbers of the two kinds that one context refuses.
const MULTI: u16 = 57;

const MULTI_A: u16 = 58;

// The limits of scripts, and of the height of a tree.
const MAX_OPS_PER_SCRIPT: u64 = 201;

const MAX_STANDARD_P2WSH_STACK_ITEMS: u64 = 100;

const MAX_SCRIPT_SIZE: u64 = 10_000;

const MAX_STANDARD_P2WSH_SCRIPT_SIZE: u64 = 3_600;

const MAX_STACK_SIZE: u64 = 1_000;

const MAX_BLOCK_WEIGHT: u64 = 4_000_000;

const MAX_RECURSION_DEPTH: u64 = 402;

// The worst case of satisfying, or of dissatisfying, a fragment.
#[derive(Clone, Copy)]
pub struct SatData {
    pub max_witness_stack_size: u64,
    pub max_witness_stack_count: u64,
    pub max_script_sig_size: u64,
    pub max_exec_stack_count: u64,
    pub max_exec_op_count: u64,
}

// The figures of a fragment.
#[derive(Clone, Copy)]
pub struct ExtData {
    pub pk_cost: u64,
    pub has_free_verify: bool,
    pub static_ops: u64,
    pub sat_data: Option<SatData>,
    pub dissat_data: Option<SatData>,
    pub tree_height: u64,
}

// The larger of two numbers.
pub fn max(a: u64, b: u64) -> u64
    ensures { result ≡ max a b }
{
    if a <= b { b } else { a }
}

// The height over two fragments of these heights.
fn over(l: u64, r: u64) -> u64
    requires { (l < limit) × (r < limit) }
    ensures { result ≡ over l r }
{
    1 + max(l, r)
}

// How many bytes push the number n.
pub fn script_num_size(n: u64) -> u64
    ensures { result ≡ script_num_size n }
{
    if n <= 16 {
        1
    } else if n < 0x80 {
        2
    } else if n < 0x8000 {
        3
    } else if n < 0x80_0000 {
        4
    } else if n < 0x8000_0000 {
        5
    } else {
        6
    }
}

impl SatData {
    // The larger of two cases, figure by figure.
    fn fieldwise_max(self, other: SatData) -> SatData
        ensures { result ≡ fieldwise_max self other }
    {
        SatData {
            max_witness_stack_size: max(self.max_witness_stack_size, other.max_witness_stack_size),
            max_witness_stack_count: max(
                self.max_witness_stack_count,
                other.max_witness_stack_count,
            ),
            max_script_sig_size: max(self.max_script_sig_size, other.max_script_sig_size),
            max_exec_stack_count: max(self.max_exec_stack_count, other.max_exec_stack_count),
            max_exec_op_count: max(self.max_exec_op_count, other.max_exec_op_count),
        }
    }

    // This case and then another, over `kept` elements that this one leaves.
    fn concat(self, kept: u64, other: SatData) -> SatData
        requires { (kept ≤ 1) × (SmallData self × SmallData other) }
        ensures { result ≡ concat kept self other }
    {
        SatData {
            max_witness_stack_size: self.max_witness_stack_size + other.max_witness_stack_size,
            max_witness_stack_count: self.max_witness_stack_count + other.max_witness_stack_count,
            max_script_sig_size: self.max_script_sig_size + other.max_script_sig_size,
            max_exec_stack_count: max(self.max_exec_stack_count, kept + other.max_exec_stack_count),
            max_exec_op_count: self.max_exec_op_count + other.max_exec_op_count,
        }
    }

    // This case under DUP IF, for which the source adds one byte and two elements.
    fn dup_if(self) -> SatData
        requires { SmallData self }
        ensures { result ≡ dup_if self }
    {
        SatData {
            max_witness_stack_size: self.max_witness_stack_size + 1,
            max_witness_stack_count: self.max_witness_stack_count + 2,
            max_script_sig_size: self.max_script_sig_size + 1,
            max_exec_stack_count: max(1, self.max_exec_stack_count),
            max_exec_op_count: self.max_exec_op_count,
        }
    }

    // This case under a 0 that chooses the second branch.
    fn with_0(self) -> SatData
        requires { SmallData self }
        ensures { result ≡ with0 self }
    {
        SatData {
            max_witness_stack_size: 1 + self.max_witness_stack_size,
            max_witness_stack_count: 1 + self.max_witness_stack_count,
            max_script_sig_size: 1 + self.max_script_sig_size,
            max_exec_stack_count: self.max_exec_stack_count,
            max_exec_op_count: self.max_exec_op_count,
        }
    }

    // This case under a 1 that chooses the first branch.
    fn with_1(self) -> SatData
        requires { SmallData self }
        ensures { result ≡ with1 self }
    {
        SatData {
            max_witness_stack_size: 2 + self.max_witness_stack_size,
            max_witness_stack_count: 1 + self.max_witness_stack_count,
            max_script_sig_size: 1 + self.max_script_sig_size,
            max_exec_stack_count: self.max_exec_stack_count,
            max_exec_op_count: self.max_exec_op_count,
        }
    }
}

// The larger of two cases; one alone where the other is missing.
pub fn fieldwise_max_opt(one: Option<SatData>, other: Option<SatData>) -> Option<SatData>
    ensures { result ≡ fieldwise_max_opt one other }
{
    match one {
        None => other,
        Some(x) => match other {
            None => Some(x),
            Some(y) => Some(x.fieldwise_max(y)),
        },
    }
}

// One case and then another, where neither is missing.
pub fn sat_concat(one: Option<SatData>, kept: u64, other: Option<SatData>) -> Option<SatData>
    requires { (kept ≤ 1) × (SmallSat one × SmallSat other) }
    ensures { result ≡ sat_concat kept one other }
{
    let x = one?;
    let y = other?;
    Some(x.concat(kept, y))
}

// A case, if any, under DUP IF.
fn map_dup_if(sat: Option<SatData>) -> Option<SatData>
    requires { SmallSat sat }
    ensures { result ≡ map_sat dup_if sat }
{
    let x = sat?;
    Some(x.dup_if())
}

// A case, if any, under a 0.
fn map_with_0(sat: Option<SatData>) -> Option<SatData>
    requires { SmallSat sat }
    ensures { result ≡ map_sat with0 sat }
{
    let x = sat?;
    Some(x.with_0())
}

// A case, if any, under a 1.
fn map_with_1(sat: Option<SatData>) -> Option<SatData>
    requires { SmallSat sat }
    ensures { result ≡ map_sat with1 sat }
{
    let x = sat?;
    Some(x.with_1())
}

// The bytes of a key with its push.
pub fn key_bytes(context: Context) -> u64
    ensures { result ≡ key_bytes context }
{
    match context {
        Context::Segwitv0 => 34,
        Context::Tap => 33,
    }
}

// The most bytes of a signature with its length.
pub fn max_sig_bytes(context: Context) -> u64
    ensures { result ≡ max_sig_bytes context }
{
    match context {
        Context::Segwitv0 => 73,
        Context::Tap => 66,
    }
}

// The bytes that push k and n.
fn num_cost(k: u64, n: u64) -> u64
    ensures { result ≡ num_cost k n }
{
    if 16 < k {
        if 16 < n { 4 } else { 3 }
    } else {
        if 16 < n { 3 } else { 2 }
    }
}

// The figures of a hash, of which the push has so many bytes.
fn hash(push: u64) -> ExtData
    requires { push ≤ 33 }
    ensures { result ≡ hash push }
{
    ExtData {
        pk_cost: push + 6,
        has_free_verify: true,
        static_ops: 4,
        sat_data: Some(SatData {
            max_witness_stack_size: 33,
            max_witness_stack_count: 1,
            max_script_sig_size: 33,
            max_exec_stack_count: 2,
            max_exec_op_count: 0,
        }),
        dissat_data: Some(SatData {
            max_witness_stack_size: 33,
            max_witness_stack_count: 2,
            max_script_sig_size: 33,
            max_exec_stack_count: 2,
            max_exec_op_count: 0,
        }),
        tree_height: 0,
    }
}

// The figures that both locks have.
fn lock(t: u32) -> ExtData
    ensures { result ≡ lock t }
{
    ExtData {
        pk_cost: script_num_size(t as u64) + 1,
        has_free_verify: false,
        static_ops: 1,
        sat_data: Some(SatData {
            max_witness_stack_size: 0,
            max_witness_stack_count: 0,
            max_script_sig_size: 0,
            max_exec_stack_count: 1,
            max_exec_op_count: 0,
        }),
        dissat_data: None,
        tree_height: 0,
    }
}

// The case of one empty element, which dissatisfies `d:X` and `j:X`.
fn one_element() -> Option<SatData>
    ensures { result ≡ one_element }
{
    Some(SatData {
        max_witness_stack_size: 1,
        max_witness_stack_count: 1,
        max_script_sig_size: 1,
        max_exec_stack_count: 1,
        max_exec_op_count: 0,
    })
}

impl ExtData {
    // The figures of `0`.
    #[tactic(auto, unfolding(crate::specs::Rules::false_ext))]
    pub fn FALSE() -> ExtData
        ensures { result ≡ false_ext }
    {
        ExtData {
            pk_cost: 1,
            has_free_verify: false,
            static_ops: 0,
            sat_data: None,
            dissat_data: Some(SatData {
                max_witness_stack_size: 0,
                max_witness_stack_count: 0,
                max_script_sig_size: 0,
                max_exec_stack_count: 1,
                max_exec_op_count: 0,
            }),
            tree_height: 0,
        }
    }

    // The figures of `1`.
    #[tactic(auto, unfolding(crate::specs::Rules::true_ext))]
    pub fn TRUE() -> ExtData
        ensures { result ≡ true_ext }
    {
        ExtData {
            pk_cost: 1,
            has_free_verify: false,
            static_ops: 0,
            sat_data: Some(SatData {
                max_witness_stack_size: 0,
                max_witness_stack_count: 0,
                max_script_sig_size: 0,
                max_exec_stack_count: 1,
                max_exec_op_count: 0,
            }),
            dissat_data: None,
            tree_height: 0,
        }
    }

    // The figures of a key.
    #[tactic(auto, unfolding(crate::specs::Rules::pk_k))]
    pub fn pk_k(c: Context) -> ExtData
        ensures { result ≡ pk_k c }
    {
        let key_bytes = key_bytes(c);
        let max_sig_bytes = max_sig_bytes(c);
        ExtData {
            pk_cost: key_bytes,
            has_free_verify: false,
            static_ops: 0,
            sat_data: Some(SatData {
                max_witness_stack_size: max_sig_bytes,
                max_witness_stack_count: 1,
                max_script_sig_size: max_sig_bytes,
                max_exec_stack_count: 1,
                max_exec_op_count: 0,
            }),
            dissat_data: Some(SatData {
                max_witness_stack_size: 1,
                max_witness_stack_count: 1,
                max_script_sig_size: 1,
                max_exec_stack_count: 1,
                max_exec_op_count: 0,
            }),
            tree_height: 0,
        }
    }

    // The figures of a key's hash.
    #[tactic(auto, unfolding(crate::specs::Rules::pk_h))]
    pub fn pk_h(c: Context) -> ExtData
        ensures { result ≡ pk_h c }
    {
        let key_bytes = key_bytes(c);
        let max_sig_bytes = max_sig_bytes(c);
        ExtData {
            pk_cost: 24,
            has_free_verify: false,
            static_ops: 3,
            sat_data: Some(SatData {
                max_witness_stack_size: key_bytes + max_sig_bytes,
                max_witness_stack_count: 2,
                max_script_sig_size: key_bytes + max_sig_bytes,
                max_exec_stack_count: 2,
                max_exec_op_count: 0,
            }),
            dissat_data: Some(SatData {
                max_witness_stack_size: key_bytes + 1,
                max_witness_stack_count: 2,
                max_script_sig_size: key_bytes + 1,
                max_exec_stack_count: 2,
                max_exec_op_count: 0,
            }),
            tree_height: 0,
        }
    }

    // The figures of k of n keys by CHECKMULTISIG.
    #[tactic(auto, unfolding(crate::specs::Rules::multi))]
    pub fn multi(k: u16, n: u16) -> ExtData
        ensures { result ≡ multi k n }
    {
        let k = k as u64;
        let n = n as u64;
        ExtData {
            pk_cost: num_cost(k, n) + 34 * n + 1,
            has_free_verify: true,
            static_ops: 1,
            sat_data: Some(SatData {
                max_witness_stack_size: 1 + 73 * k,
                max_witness_stack_count: k + 1,
                max_script_sig_size: 1 + 73 * k,
                max_exec_stack_count: n,
                max_exec_op_count: n,
            }),
            dissat_data: Some(SatData {
                max_witness_stack_size: 1 + k,
                max_witness_stack_count: k + 1,
                max_script_sig_size: 1 + k,
                max_exec_stack_count: n,
                max_exec_op_count: n,
            }),
            tree_height: 0,
        }
    }

    // The figures of k of n keys by CHECKSIGADD.
    #[tactic(auto, unfolding(crate::specs::Rules::multi_a))]
    pub fn multi_a(k: u16, n: u16) -> ExtData
        requires { (1 ≤ k) × (k ≤ n) }
        ensures { result ≡ multi_a k n }
    {
        let k = k as u64;
        let n = n as u64;
        ExtData {
            pk_cost: num_cost(k, n) + 33 * n + (n - 1) + 1,
            has_free_verify: true,
            static_ops: 0,
            sat_data: Some(SatData {
                max_witness_stack_size: n - k + 66 * k,
                max_witness_stack_count: n,
                max_script_sig_size: 0,
                max_exec_stack_count: 2,
                max_exec_op_count: 0,
            }),
            dissat_data: Some(SatData {
                max_witness_stack_size: n,
                max_witness_stack_count: n,
                max_script_sig_size: 0,
                max_exec_stack_count: 2,
                max_exec_op_count: 0,
            }),
            tree_height: 0,
        }
    }

    // The figures of `sha256`.
    #[tactic(auto, unfolding(crate::specs::Rules::sha256))]
    pub fn sha256() -> ExtData
        ensures { result ≡ sha256 }
    {
        hash(33)
    }

    // The figures of `hash256`.
    #[tactic(auto, unfolding(crate::specs::Rules::hash256))]
    pub fn hash256() -> ExtData
        ensures { result ≡ hash256 }
    {
        hash(33)
    }

    // The figures of `ripemd160`.
    #[tactic(auto, unfolding(crate::specs::Rules::ripemd160))]
    pub fn ripemd160() -> ExtData
        ensures { result ≡ ripemd160 }
    {
        hash(21)
    }

    // The figures of `hash160`.
    #[tactic(auto, unfolding(crate::specs::Rules::hash160))]
    pub fn hash160() -> ExtData
        ensures { result ≡ hash160 }
    {
        hash(21)
    }

    // The figures of `after(t)`.
    #[tactic(auto, unfolding(crate::specs::Rules::after))]
    pub fn after(t: u32) -> ExtData
        ensures { result ≡ after t }
    {
        lock(t)
    }

    // The figures of `older(t)`.
    #[tactic(auto, unfolding(crate::specs::Rules::older))]
    pub fn older(t: u32) -> ExtData
        ensures { result ≡ older t }
    {
        lock(t)
    }

    // The figures of `a:X`.
    #[tactic(auto, unfolding(crate::specs::Rules::cast_alt))]
    pub fn cast_alt(self) -> ExtData
        requires { Small self }
        ensures { result ≡ cast_alt self }
    {
        ExtData {
            pk_cost: self.pk_cost + 2,
            has_free_verify: false,
            static_ops: 2 + self.static_ops,
            sat_data: self.sat_data,
            dissat_data: self.dissat_data,
            tree_height: self.tree_height + 1,
        }
    }

    // The figures of `s:X`.
    #[tactic(auto, unfolding(crate::specs::Rules::cast_swap))]
    pub fn cast_swap(self) -> ExtData
        requires { Small self }
        ensures { result ≡ cast_swap self }
    {
        ExtData {
            pk_cost: self.pk_cost + 1,
            has_free_verify: self.has_free_verify,
            static_ops: 1 + self.static_ops,
            sat_data: self.sat_data,
            dissat_data: self.dissat_data,
            tree_height: self.tree_height + 1,
        }
    }

    // The figures of `c:X`.
    #[tactic(auto, unfolding(crate::specs::Rules::cast_check))]
    pub fn cast_check(self) -> ExtData
        requires { Small self }
        ensures { result ≡ cast_check self }
    {
        ExtData {
            pk_cost: self.pk_cost + 1,
            has_free_verify: true,
            static_ops: 1 + self.static_ops,
            sat_data: self.sat_data,
            dissat_data: self.dissat_data,
            tree_height: self.tree_height + 1,
        }
    }

    // The figures of `d:X`.
    #[tactic(auto, unfolding(crate::specs::Rules::cast_dupif))]
    pub fn cast_dupif(self) -> ExtData
        requires { Small self }
        ensures { result ≡ cast_dupif self }
    {
        let sat_data = map_dup_if(self.sat_data);
        let dissat_data = one_element();
        ExtData {
            pk_cost: self.pk_cost + 3,
            has_free_verify: false,
            static_ops: 3 + self.static_ops,
            sat_data,
            dissat_data,
            tree_height: self.tree_height + 1,
        }
    }

    // The figures of `v:X`.
    #[tactic(auto, unfolding(crate::specs::Rules::cast_verify))]
    pub fn cast_verify(self) -> ExtData
        requires { Small self }
        ensures { result ≡ cast_verify self }
    {
        let verify_cost = verify_cost(self.has_free_verify);
        ExtData {
            pk_cost: self.pk_cost + verify_cost,
            has_free_verify: false,
            static_ops: verify_cost + self.static_ops,
            sat_data: self.sat_data,
            dissat_data: None,
            tree_height: self.tree_height + 1,
        }
    }

    // The figures of `j:X`.
    #[tactic(auto, unfolding(crate::specs::Rules::cast_nonzero))]
    pub fn cast_nonzero(self) -> ExtData
        requires { Small self }
        ensures { result ≡ cast_nonzero self }
    {
        let dissat_data = one_element();
        ExtData {
            pk_cost: self.pk_cost + 4,
            has_free_verify: false,
            static_ops: 4 + self.static_ops,
            sat_data: self.sat_data,
            dissat_data,
            tree_height: self.tree_height + 1,
        }
    }

    // The figures of `n:X`.
    #[tactic(auto, unfolding(crate::specs::Rules::cast_zeronotequal))]
    pub fn cast_zeronotequal(self) -> ExtData
        requires { Small self }
        ensures { result ≡ cast_zeronotequal self }
    {
        ExtData {
            pk_cost: self.pk_cost + 1,
            has_free_verify: false,
            static_ops: 1 + self.static_ops,
            sat_data: self.sat_data,
            dissat_data: self.dissat_data,
            tree_height: self.tree_height + 1,
        }
    }

    // The figures of `t:X`, that is `and_v(X,1)`.
    #[tactic(auto, unfolding(crate::specs::Rules::cast_true, crate::specs::Rules::and_v, crate::specs::Rules::true_ext))]
    pub fn cast_true(self) -> ExtData
        requires { Small self }
        ensures { result ≡ cast_true self }
    {
        ExtData::and_v(self, ExtData::TRUE())
    }

    // The figures of `u:X`, that is `or_i(X,0)`.
    #[tactic(auto, unfolding(crate::specs::Rules::cast_unlikely, crate::specs::Rules::or_i, crate::specs::Rules::false_ext))]
    pub fn cast_unlikely(self) -> ExtData
        requires { Small self }
        ensures { result ≡ cast_unlikely self }
    {
        ExtData::or_i(self, ExtData::FALSE())
    }

    // The figures of `l:X`, that is `or_i(0,X)`.
    #[tactic(auto, unfolding(crate::specs::Rules::cast_likely, crate::specs::Rules::or_i, crate::specs::Rules::false_ext))]
    pub fn cast_likely(self) -> ExtData
        requires { Small self }
        ensures { result ≡ cast_likely self }
    {
        ExtData::or_i(ExtData::FALSE(), self)
    }

    // The figures of `and_b(l,r)`.
    #[tactic(auto, unfolding(crate::specs::Rules::and_b))]
    pub fn and_b(l: ExtData, r: ExtData) -> ExtData
        requires { Small l × Small r }
        ensures { result ≡ and_b l r }
    {
        let sat_data = sat_concat(l.sat_data, 1, r.sat_data);
        let dissat_data = sat_concat(l.dissat_data, 1, r.dissat_data);
        ExtData {
            pk_cost: l.pk_cost + r.pk_cost + 1,
            has_free_verify: false,
            static_ops: 1 + l.static_ops + r.static_ops,
            sat_data,
            dissat_data,
            tree_height: over(l.tree_height, r.tree_height),
        }
    }

    // The figures of `and_v(l,r)`.
    #[tactic(auto, unfolding(crate::specs::Rules::and_v))]
    pub fn and_v(l: ExtData, r: ExtData) -> ExtData
        requires { Small l × Small r }
        ensures { result ≡ and_v l r }
    {
        let sat_data = sat_concat(l.sat_data, 0, r.sat_data);
        ExtData {
            pk_cost: l.pk_cost + r.pk_cost,
            has_free_verify: r.has_free_verify,
            static_ops: l.static_ops + r.static_ops,
            sat_data,
            dissat_data: None,
            tree_height: over(l.tree_height, r.tree_height),
        }
    }

    // The figures of `or_b(l,r)`.
    #[tactic(auto, unfolding(crate::specs::Rules::or_b))]
    pub fn or_b(l: ExtData, r: ExtData) -> ExtData
        requires { Small l × Small r }
        ensures { result ≡ or_b l r }
    {
        let first = sat_concat(l.sat_data, 1, r.dissat_data);
        let second = sat_concat(l.dissat_data, 1, r.sat_data);
        let sat_data = fieldwise_max_opt(first, second);
        let dissat_data = sat_concat(l.dissat_data, 1, r.dissat_data);
        ExtData {
            pk_cost: l.pk_cost + r.pk_cost + 1,
            has_free_verify: false,
            static_ops: 1 + l.static_ops + r.static_ops,
            sat_data,
            dissat_data,
            tree_height: over(l.tree_height, r.tree_height),
        }
    }

    // The figures of `or_d(l,r)`.
    #[tactic(auto, unfolding(crate::specs::Rules::or_d))]
    pub fn or_d(l: ExtData, r: ExtData) -> ExtData
        requires { Small l × Small r }
        ensures { result ≡ or_d l r }
    {
        let second = sat_concat(l.dissat_data, 0, r.sat_data);
        let sat_data = fieldwise_max_opt(l.sat_data, second);
        let dissat_data = sat_concat(l.dissat_data, 0, r.dissat_data);
        ExtData {
            pk_cost: l.pk_cost + r.pk_cost + 3,
            has_free_verify: false,
            static_ops: 3 + l.static_ops + r.static_ops,
            sat_data,
            dissat_data,
            tree_height: over(l.tree_height, r.tree_height),
        }
    }

    // The figures of `or_c(l,r)`.
    #[tactic(auto, unfolding(crate::specs::Rules::or_c))]
    pub fn or_c(l: ExtData, r: ExtData) -> ExtData
        requires { Small l × Small r }
        ensures { result ≡ or_c l r }
    {
        let second = sat_concat(l.dissat_data, 0, r.sat_data);
        let sat_data = fieldwise_max_opt(l.sat_data, second);
        ExtData {
            pk_cost: l.pk_cost + r.pk_cost + 2,
            has_free_verify: false,
            static_ops: 2 + l.static_ops + r.static_ops,
            sat_data,
            dissat_data: None,
            tree_height: over(l.tree_height, r.tree_height),
        }
    }

    // The figures of `or_i(l,r)`.
    #[tactic(auto, unfolding(crate::specs::Rules::or_i))]
    pub fn or_i(l: ExtData, r: ExtData) -> ExtData
        requires { Small l × Small r }
        ensures { result ≡ or_i l r }
    {
        let sat_data = either_branch(l.sat_data, r.sat_data);
        let dissat_data = either_branch(l.dissat_data, r.dissat_data);
        ExtData {
            pk_cost: l.pk_cost + r.pk_cost + 3,
            has_free_verify: false,
            static_ops: 3 + l.static_ops + r.static_ops,
            sat_data,
            dissat_data,
            tree_height: over(l.tree_height, r.tree_height),
        }
    }

    // The figures of `andor(a,b,c)`.
    #[tactic(auto, unfolding(crate::specs::Rules::and_or))]
    pub fn and_or(a: ExtData, b: ExtData, c: ExtData) -> ExtData
        requires { Small a × (Small b × Small c) }
        ensures { result ≡ and_or a b c }
    {
        let first = sat_concat(a.sat_data, 0, b.sat_data);
        let second = sat_concat(a.dissat_data, 0, c.sat_data);
        let sat_data = fieldwise_max_opt(first, second);
        let dissat_data = sat_concat(a.dissat_data, 0, c.dissat_data);
        ExtData {
            pk_cost: a.pk_cost + b.pk_cost + c.pk_cost + 3,
            has_free_verify: false,
            static_ops: 3 + a.static_ops + b.static_ops + c.static_ops,
            sat_data,
            dissat_data,
            tree_height: over(a.tree_height, max(b.tree_height, c.tree_height)),
        }
    }
}

// The bytes, and the operations, that a VERIFY takes.
fn verify_cost(free: bool) -> u64
    ensures { result ≡ num (not free) }
{
    !free as u64
}

// The larger of the first case under a 1 and the second under a 0.
fn either_branch(l: Option<SatData>, r: Option<SatData>) -> Option<SatData>
    requires { SmallSat l × SmallSat r }
    ensures { result ≡ either_branch l r }
{
    let first = map_with_1(l);
    let second = map_with_0(r);
    fieldwise_max_opt(first, second)
}

// Whether the operations of a satisfaction, executed or not, are few enough.
fn ops_within(static_ops: u64, sat: Option<SatData>) -> bool
    requires { SmallSat sat × (static_ops < limit) }
    ensures { result ≡ ops_within static_ops sat }
{
    match sat {
        None => false,
        Some(x) => static_ops + x.max_exec_op_count <= MAX_OPS_PER_SCRIPT,
    }
}

// Whether the elements of a satisfaction, with those that execution adds, are few enough.
fn stack_within(sat: Option<SatData>) -> bool
    requires { SmallSat sat }
    ensures { result ≡ stack_within sat }
{
    match sat {
        None => true,
        Some(x) => x.max_witness_stack_count + x.max_exec_stack_count <= MAX_STACK_SIZE,
    }
}

// Whether the elements of a satisfaction, with the witness script, are few enough.
fn items_within(sat: Option<SatData>) -> bool
    requires { SmallSat sat }
    ensures { result ≡ items_within sat }
{
    match sat {
        None => false,
        Some(x) => x.max_witness_stack_count + 1 <= MAX_STANDARD_P2WSH_STACK_ITEMS,
    }
}

// Whether consensus allows the kind, and a script of this size.
fn global_consensus(context: Context, kind: u16, x: ExtData) -> bool
    ensures { result ≡ global_consensus context kind x }
{
    match context {
        Context::Segwitv0 => kind != MULTI_A && x.pk_cost <= MAX_SCRIPT_SIZE,
        Context::Tap => kind != MULTI && x.pk_cost <= MAX_BLOCK_WEIGHT,
    }
}

// Whether a script of this size is standard.
fn global_policy(context: Context, x: ExtData) -> bool
    ensures { result ≡ global_policy context x }
{
    match context {
        Context::Segwitv0 => x.pk_cost <= MAX_STANDARD_P2WSH_SCRIPT_SIZE,
        Context::Tap => true,
    }
}

// Whether consensus allows a satisfaction.
fn local_consensus(context: Context, x: ExtData) -> bool
    requires { Small x }
    ensures { result ≡ local_consensus context x }
{
    match context {
        Context::Segwitv0 => ops_within(x.static_ops, x.sat_data),
        Context::Tap => stack_within(x.sat_data),
    }
}

// Whether a satisfaction is standard.
fn local_policy(context: Context, x: ExtData) -> bool
    requires { Small x }
    ensures { result ≡ local_policy context x }
{
    match context {
        Context::Segwitv0 => items_within(x.sat_data),
        Context::Tap => true,
    }
}

// Whether the context takes a fragment of this kind and these figures, whatever satisfies it.
#[tactic(auto, unfolding(crate::specs::Validity::check_global_validity))]
pub fn check_global_validity(context: Context, kind: u16, x: ExtData) -> bool
    ensures { result ≡ check_global_validity context kind x }
{
    global_consensus(context, kind, x) && global_policy(context, x)
}

// Whether the context takes a fragment of this kind and these figures, with what satisfies it.
#[tactic(auto, unfolding(crate::specs::Validity::check_local_validity, crate::specs::Validity::check_global_validity))]
pub fn check_local_validity(context: Context, kind: u16, x: ExtData) -> bool
    requires { Small x }
    ensures { result ≡ check_local_validity context kind x }
{
    check_global_validity(context, kind, x)
        && local_consensus(context, x)
        && local_policy(context, x)
}

// Whether `from_ast` takes a well-typed fragment of this kind and these figures.
#[tactic(auto, unfolding(crate::specs::Validity::from_ast))]
pub fn from_ast(context: Context, kind: u16, x: ExtData) -> bool
    ensures { result ≡ from_ast context kind x }
{
    x.tree_height <= MAX_RECURSION_DEPTH && check_global_validity(context, kind, x)
}
