// A candidate of the compiler: a fragment with its type, its figures and its cost, made from leaves by casts, pairs and triples.
//
// The names are those of policy/compiler.rs. The contracts cite specs/Leaves.antt (leaves), specs/Casts.antt (the ten casts),
// specs/Pairs.antt (pairs and triples) and specs/Candidates.antt (what a candidate costs).
#![tactic(auto)]

ghost use Rattle.std.specs.Prelude.{◌≡◌, ◌≤◌};
ghost use Rattle.figures.specs.Bounds.{Small};
ghost use Rattle.candidates.specs.declared.CastError.TheVariants as CastError;
ghost use Rattle.candidates.specs.declared.NotMade.TheVariants as NotMade;
ghost use Rattle.candidates.specs.Candidates.{candidate, cost_at};
ghost use Rattle.candidates.specs.Leaves.{sig_type, false_candidate, true_candidate, pk_k, pk_h, after, older};
ghost use Rattle.candidates.specs.Leaves.{sha256, hash256, ripemd160, hash160, multi, multi_a};
ghost use Rattle.candidates.specs.Casts.{check, dupif, likely, unlikely, verify, nonzero, true', swap, alt, zeronotequal};
ghost use Rattle.candidates.specs.Casts.{cast_by, cast_of};
ghost use Rattle.candidates.specs.Pairs.{and_b, and_v, or_b, or_d, or_c, or_i, pair_by, pair_of, and_or};

use contexts::Context;
use correctness::TypeError;
use costs::{Cost, Price, SigType, cost_1d};
use figures::ExtData;
use types::Type;

// Document 01's numbers of the kinds of fragments.
pub const FALSE: u16 = 32;

pub const TRUE: u16 = 33;

pub const PK_K: u16 = 34;

pub const PK_H: u16 = 35;

pub const AFTER: u16 = 36;

pub const OLDER: u16 = 37;

pub const SHA256: u16 = 38;

pub const HASH256: u16 = 39;

pub const RIPEMD160: u16 = 40;

pub const HASH160: u16 = 41;

pub const ALT: u16 = 42;

pub const SWAP: u16 = 43;

pub const CHECK: u16 = 44;

pub const DUP_IF: u16 = 45;

pub const VERIFY: u16 = 46;

pub const NON_ZERO: u16 = 47;

pub const ZERO_NOT_EQUAL: u16 = 48;

pub const AND_B: u16 = 49;

pub const AND_V: u16 = 50;

pub const OR_B: u16 = 51;

pub const OR_D: u16 = 52;

pub const OR_C: u16 = 53;

pub const OR_I: u16 = 54;

pub const AND_OR: u16 = 55;

pub const MULTI: u16 = 57;

pub const MULTI_A: u16 = 58;

// The nodes of False and of True.
pub const FALSE_NODE: u16 = 0;

pub const TRUE_NODE: u16 = 1;

// What stands in the place of a child that a kind does not have.
const NO_CHILD: u16 = 0;

// A fragment that the search may take: its kind, the nodes of its children (a leaf has there a number that the caller chose), its type,
// its figures and its cost.
#[derive(Clone, Copy)]
pub struct Candidate {
    pub kind: u16,
    pub first: u16,
    pub second: u16,
    pub third: u16,
    pub ty: Type,
    pub ext: ExtData,
    pub cost: Cost,
}

// Why a cast gives no candidate: it is ill-typed, or there is no cast of this number.
#[derive(Clone, Copy)]
pub enum CastError {
    IllTyped,
    Unknown,
}

impl From<TypeError> for CastError {
    ghost from_gives = { λ _ e. e ≡ CastError.IllTyped };

    fn from(_error: TypeError) -> CastError {
        CastError::IllTyped
    }
}

// Why candidates put together give none: they are ill-typed and passed over, or a dissatisfaction cost that is needed is missing.
#[derive(Clone, Copy)]
pub enum NotMade {
    PassedOver,
    Missing,
}

impl From<TypeError> for NotMade {
    ghost from_gives = { λ _ e. e ≡ NotMade.PassedOver };

    fn from(_error: TypeError) -> NotMade {
        NotMade::PassedOver
    }
}

// The kind of signature that a context checks.
fn sig_type(context: Context) -> SigType
    ensures { result ≡ sig_type context }
{
    match context {
        Context::Segwitv0 => SigType::Ecdsa,
        Context::Tap => SigType::Schnorr,
    }
}

// The candidate of a kind over children of these nodes.
fn over(
    kind: u16,
    first: u16,
    second: u16,
    third: u16,
    ty: Type,
    ext: ExtData,
    cost: Cost,
) -> Candidate
    ensures { result ≡ candidate kind first second third ty ext cost }
{
    Candidate {
        kind,
        first,
        second,
        third,
        ty,
        ext,
        cost,
    }
}

impl Candidate {
    // The candidate of False.
    pub fn of_false() -> Candidate
        ensures { result ≡ false_candidate }
    {
        let ty = Type::of_false();
        let ext = ExtData::FALSE();
        let cost = Cost::FALSE();
        over(FALSE, NO_CHILD, NO_CHILD, NO_CHILD, ty, ext, cost)
    }

    // The candidate of True.
    pub fn of_true() -> Candidate
        ensures { result ≡ true_candidate }
    {
        let ty = Type::of_true();
        let ext = ExtData::TRUE();
        let cost = Cost::TRUE();
        over(TRUE, NO_CHILD, NO_CHILD, NO_CHILD, ty, ext, cost)
    }

    // The candidate of a key.
    pub fn pk_k(context: Context, held: u16) -> Candidate
        ensures { result ≡ pk_k context held }
    {
        let ty = Type::pk_k();
        let ext = ExtData::pk_k(context);
        let cost = Cost::pk_k(sig_type(context));
        over(PK_K, held, NO_CHILD, NO_CHILD, ty, ext, cost)
    }

    // The candidate of a key's hash.
    pub fn pk_h(context: Context, held: u16) -> Candidate
        ensures { result ≡ pk_h context held }
    {
        let ty = Type::pk_h();
        let ext = ExtData::pk_h(context);
        let cost = Cost::pk_h(sig_type(context));
        over(PK_H, held, NO_CHILD, NO_CHILD, ty, ext, cost)
    }

    // The candidate of After.
    pub fn after(t: u32, held: u16) -> Candidate
        ensures { result ≡ after t held }
    {
        let ty = Type::time();
        let ext = ExtData::after(t);
        let cost = Cost::time();
        over(AFTER, held, NO_CHILD, NO_CHILD, ty, ext, cost)
    }

    // The candidate of Older.
    pub fn older(t: u32, held: u16) -> Candidate
        ensures { result ≡ older t held }
    {
        let ty = Type::time();
        let ext = ExtData::older(t);
        let cost = Cost::time();
        over(OLDER, held, NO_CHILD, NO_CHILD, ty, ext, cost)
    }

    // The candidate of Sha256.
    pub fn sha256(held: u16) -> Candidate
        ensures { result ≡ sha256 held }
    {
        let ty = Type::hash();
        let ext = ExtData::sha256();
        let cost = Cost::hash();
        over(SHA256, held, NO_CHILD, NO_CHILD, ty, ext, cost)
    }

    // The candidate of Hash256.
    pub fn hash256(held: u16) -> Candidate
        ensures { result ≡ hash256 held }
    {
        let ty = Type::hash();
        let ext = ExtData::hash256();
        let cost = Cost::hash();
        over(HASH256, held, NO_CHILD, NO_CHILD, ty, ext, cost)
    }

    // The candidate of Ripemd160.
    pub fn ripemd160(held: u16) -> Candidate
        ensures { result ≡ ripemd160 held }
    {
        let ty = Type::hash();
        let ext = ExtData::ripemd160();
        let cost = Cost::hash();
        over(RIPEMD160, held, NO_CHILD, NO_CHILD, ty, ext, cost)
    }

    // The candidate of Hash160.
    pub fn hash160(held: u16) -> Candidate
        ensures { result ≡ hash160 held }
    {
        let ty = Type::hash();
        let ext = ExtData::hash160();
        let cost = Cost::hash();
        over(HASH160, held, NO_CHILD, NO_CHILD, ty, ext, cost)
    }

    // The candidate of k of n keys in SegWit v0.
    pub fn multi(k: u16, n: u16, held: u16) -> Candidate
        ensures { result ≡ multi k n held }
    {
        let ty = Type::multi();
        let ext = ExtData::multi(k, n);
        let cost = Cost::multi(k, n);
        over(MULTI, held, NO_CHILD, NO_CHILD, ty, ext, cost)
    }

    // The candidate of k of n keys in Tapscript.
    pub fn multi_a(k: u16, n: u16, held: u16) -> Candidate
        requires { (1 ≤ k) × (k ≤ n) }
        ensures { result ≡ multi_a k n held }
    {
        let ty = Type::multi_a();
        let ext = ExtData::multi_a(k, n);
        let cost = Cost::multi_a(k, n);
        over(MULTI_A, held, NO_CHILD, NO_CHILD, ty, ext, cost)
    }

    // The cast Check of this, which is node `node`.
    pub fn cast_check(self, node: u16) -> Result<Candidate, CastError>
        requires { Small self.ext }
        ensures { result ≡ cast_by check self node }
    {
        let ty = self.ty.cast_check()?;
        let ext = self.ext.cast_check();
        let cost = self.cost.cast_check();
        Ok(over(CHECK, node, NO_CHILD, NO_CHILD, ty, ext, cost))
    }

    // The cast DupIf of this, which is node `node`, in a context.
    pub fn cast_dupif(self, context: Context, node: u16) -> Result<Candidate, CastError>
        requires { Small self.ext }
        ensures { result ≡ cast_by (dupif context) self node }
    {
        let ty = self.ty.cast_dupif(context)?;
        let ext = self.ext.cast_dupif();
        let cost = self.cost.cast_dupif();
        Ok(over(DUP_IF, node, NO_CHILD, NO_CHILD, ty, ext, cost))
    }

    // The cast OrI(False, X), X being this, which is node `node`.
    pub fn cast_likely(self, node: u16) -> Result<Candidate, CastError>
        requires { Small self.ext }
        ensures { result ≡ cast_by likely self node }
    {
        let ty = self.ty.cast_likely()?;
        let ext = self.ext.cast_likely();
        let cost = self.cost.cast_likely();
        Ok(over(OR_I, FALSE_NODE, node, NO_CHILD, ty, ext, cost))
    }

    // The cast OrI(X, False), X being this, which is node `node`.
    pub fn cast_unlikely(self, node: u16) -> Result<Candidate, CastError>
        requires { Small self.ext }
        ensures { result ≡ cast_by unlikely self node }
    {
        let ty = self.ty.cast_unlikely()?;
        let ext = self.ext.cast_unlikely();
        let cost = self.cost.cast_unlikely();
        Ok(over(OR_I, node, FALSE_NODE, NO_CHILD, ty, ext, cost))
    }

    // The cast Verify of this, which is node `node`.
    pub fn cast_verify(self, node: u16) -> Result<Candidate, CastError>
        requires { Small self.ext }
        ensures { result ≡ cast_by verify self node }
    {
        let ty = self.ty.cast_verify()?;
        let ext = self.ext.cast_verify();
        let cost = self.cost.cast_verify();
        Ok(over(VERIFY, node, NO_CHILD, NO_CHILD, ty, ext, cost))
    }

    // The cast NonZero of this, which is node `node`.
    pub fn cast_nonzero(self, node: u16) -> Result<Candidate, CastError>
        requires { Small self.ext }
        ensures { result ≡ cast_by nonzero self node }
    {
        let ty = self.ty.cast_nonzero()?;
        let ext = self.ext.cast_nonzero();
        let cost = self.cost.cast_nonzero();
        Ok(over(NON_ZERO, node, NO_CHILD, NO_CHILD, ty, ext, cost))
    }

    // The cast AndV(X, True), X being this, which is node `node`.
    pub fn cast_true(self, node: u16) -> Result<Candidate, CastError>
        requires { Small self.ext }
        ensures { result ≡ cast_by true' self node }
    {
        let ty = self.ty.cast_true()?;
        let ext = self.ext.cast_true();
        let cost = self.cost.cast_true();
        Ok(over(AND_V, node, TRUE_NODE, NO_CHILD, ty, ext, cost))
    }

    // The cast Swap of this, which is node `node`.
    pub fn cast_swap(self, node: u16) -> Result<Candidate, CastError>
        requires { Small self.ext }
        ensures { result ≡ cast_by swap self node }
    {
        let ty = self.ty.cast_swap()?;
        let ext = self.ext.cast_swap();
        let cost = self.cost.cast_swap();
        Ok(over(SWAP, node, NO_CHILD, NO_CHILD, ty, ext, cost))
    }

    // The cast Alt of this, which is node `node`.
    pub fn cast_alt(self, node: u16) -> Result<Candidate, CastError>
        requires { Small self.ext }
        ensures { result ≡ cast_by alt self node }
    {
        let ty = self.ty.cast_alt()?;
        let ext = self.ext.cast_alt();
        let cost = self.cost.cast_alt();
        Ok(over(ALT, node, NO_CHILD, NO_CHILD, ty, ext, cost))
    }

    // The cast ZeroNotEqual of this, which is node `node`.
    pub fn cast_zeronotequal(self, node: u16) -> Result<Candidate, CastError>
        requires { Small self.ext }
        ensures { result ≡ cast_by zeronotequal self node }
    {
        let ty = self.ty.cast_zeronotequal()?;
        let ext = self.ext.cast_zeronotequal();
        let cost = self.cost.cast_zeronotequal();
        Ok(over(ZERO_NOT_EQUAL, node, NO_CHILD, NO_CHILD, ty, ext, cost))
    }

    // The cast of a number, of this, which is node `node`, in a context.
    #[tactic(auto, unfolding(crate::specs::Casts::cast_from))]
    pub fn cast(self, context: Context, node: u16, number: u8) -> Result<Candidate, CastError>
        requires { Small self.ext }
        ensures { result ≡ cast_of context number self node }
    {
        // A cast stays a number: the definition tries them in this order, 0 to 9.
        match number {
            0 => self.cast_check(node),
            1 => self.cast_dupif(context, node),
            2 => self.cast_likely(node),
            3 => self.cast_unlikely(node),
            4 => self.cast_verify(node),
            5 => self.cast_nonzero(node),
            6 => self.cast_true(node),
            7 => self.cast_swap(node),
            8 => self.cast_alt(node),
            9 => self.cast_zeronotequal(node),
            10..=255 => Err(CastError::Unknown),
        }
    }

    // The pair AndB of l and r, each followed by its node, at the probabilities of its branches.
    pub fn and_b(
        l: Candidate,
        l_node: u16,
        r: Candidate,
        r_node: u16,
        lprob: f64,
        rprob: f64,
    ) -> Result<Candidate, NotMade>
        requires { Small l.ext × Small r.ext }
        ensures { result ≡ pair_by and_b l l_node r r_node lprob rprob }
    {
        let ty = Type::and_b(l.ty, r.ty)?;
        let ext = ExtData::and_b(l.ext, r.ext);
        let cost = Cost::and_b(l.cost, r.cost);
        Ok(over(AND_B, l_node, r_node, NO_CHILD, ty, ext, cost))
    }

    // The pair AndV of l and r, each followed by its node, at the probabilities of its branches.
    pub fn and_v(
        l: Candidate,
        l_node: u16,
        r: Candidate,
        r_node: u16,
        lprob: f64,
        rprob: f64,
    ) -> Result<Candidate, NotMade>
        requires { Small l.ext × Small r.ext }
        ensures { result ≡ pair_by and_v l l_node r r_node lprob rprob }
    {
        let ty = Type::and_v(l.ty, r.ty)?;
        let ext = ExtData::and_v(l.ext, r.ext);
        let cost = Cost::and_v(l.cost, r.cost);
        Ok(over(AND_V, l_node, r_node, NO_CHILD, ty, ext, cost))
    }

    // The pair OrB of l and r, each followed by its node, at the probabilities of its branches.
    pub fn or_b(
        l: Candidate,
        l_node: u16,
        r: Candidate,
        r_node: u16,
        lprob: f64,
        rprob: f64,
    ) -> Result<Candidate, NotMade>
        requires { Small l.ext × Small r.ext }
        ensures { result ≡ pair_by or_b l l_node r r_node lprob rprob }
    {
        let ty = Type::or_b(l.ty, r.ty)?;
        let ext = ExtData::or_b(l.ext, r.ext);
        let cost = Cost::or_b(l.cost, r.cost, lprob, rprob).ok_or(NotMade::Missing)?;
        Ok(over(OR_B, l_node, r_node, NO_CHILD, ty, ext, cost))
    }

    // The pair OrD of l and r, each followed by its node, at the probabilities of its branches.
    pub fn or_d(
        l: Candidate,
        l_node: u16,
        r: Candidate,
        r_node: u16,
        lprob: f64,
        rprob: f64,
    ) -> Result<Candidate, NotMade>
        requires { Small l.ext × Small r.ext }
        ensures { result ≡ pair_by or_d l l_node r r_node lprob rprob }
    {
        let ty = Type::or_d(l.ty, r.ty)?;
        let ext = ExtData::or_d(l.ext, r.ext);
        let cost = Cost::or_d(l.cost, r.cost, lprob, rprob).ok_or(NotMade::Missing)?;
        Ok(over(OR_D, l_node, r_node, NO_CHILD, ty, ext, cost))
    }

    // The pair OrC of l and r, each followed by its node, at the probabilities of its branches.
    pub fn or_c(
        l: Candidate,
        l_node: u16,
        r: Candidate,
        r_node: u16,
        lprob: f64,
        rprob: f64,
    ) -> Result<Candidate, NotMade>
        requires { Small l.ext × Small r.ext }
        ensures { result ≡ pair_by or_c l l_node r r_node lprob rprob }
    {
        let ty = Type::or_c(l.ty, r.ty)?;
        let ext = ExtData::or_c(l.ext, r.ext);
        let cost = Cost::or_c(l.cost, r.cost, lprob, rprob).ok_or(NotMade::Missing)?;
        Ok(over(OR_C, l_node, r_node, NO_CHILD, ty, ext, cost))
    }

    // The pair OrI of l and r, each followed by its node, at the probabilities of its branches.
    pub fn or_i(
        l: Candidate,
        l_node: u16,
        r: Candidate,
        r_node: u16,
        lprob: f64,
        rprob: f64,
    ) -> Result<Candidate, NotMade>
        requires { Small l.ext × Small r.ext }
        ensures { result ≡ pair_by or_i l l_node r r_node lprob rprob }
    {
        let ty = Type::or_i(l.ty, r.ty)?;
        let ext = ExtData::or_i(l.ext, r.ext);
        let cost = Cost::or_i(l.cost, r.cost, lprob, rprob);
        Ok(over(OR_I, l_node, r_node, NO_CHILD, ty, ext, cost))
    }

    // The pair of a kind, of l and r, each followed by its node, at the probabilities of its branches.
    #[tactic(auto, unfolding(crate::specs::Pairs::pair_from))]
    pub fn pair(
        kind: u16,
        l: Candidate,
        l_node: u16,
        r: Candidate,
        r_node: u16,
        lprob: f64,
        rprob: f64,
    ) -> Result<Candidate, NotMade>
        requires { Small l.ext × Small r.ext }
        ensures { result ≡ pair_of kind l l_node r r_node lprob rprob }
    {
        // A kind stays a number: a record or a node holds one, and the contract answers on every number.
        match kind {
            0..=48 => Err(NotMade::PassedOver),
            49 => Candidate::and_b(l, l_node, r, r_node, lprob, rprob),
            50 => Candidate::and_v(l, l_node, r, r_node, lprob, rprob),
            51 => Candidate::or_b(l, l_node, r, r_node, lprob, rprob),
            52 => Candidate::or_d(l, l_node, r, r_node, lprob, rprob),
            53 => Candidate::or_c(l, l_node, r, r_node, lprob, rprob),
            54 => Candidate::or_i(l, l_node, r, r_node, lprob, rprob),
            55..=65535 => Err(NotMade::PassedOver),
        }
    }

    // The triple AndOr of a, b and c, each followed by its node, at the probability of a and b and at that of c.
    pub fn and_or(
        a: Candidate,
        a_node: u16,
        b: Candidate,
        b_node: u16,
        c: Candidate,
        c_node: u16,
        aprob: f64,
        cprob: f64,
    ) -> Result<Candidate, NotMade>
        requires { Small a.ext × (Small b.ext × Small c.ext) }
        ensures { result ≡ and_or a a_node b b_node c c_node aprob cprob }
    {
        let ty = Type::and_or(a.ty, b.ty, c.ty)?;
        let ext = ExtData::and_or(a.ext, b.ext, c.ext);
        let cost = Cost::and_or(a.cost, b.cost, c.cost, aprob, cprob).ok_or(NotMade::Missing)?;
        Ok(over(AND_OR, a_node, b_node, c_node, ty, ext, cost))
    }

    // What this costs at the probabilities of satisfaction and of dissatisfaction.
    pub fn cost_at(self, sat_prob: f64, dissat_prob: Option<f64>) -> Price
        requires { Small self.ext }
        ensures { result ≡ cost_at self sat_prob dissat_prob }
    {
        cost_1d(self.ext.pk_cost as u32, self.cost, sat_prob, dissat_prob)
    }
}
