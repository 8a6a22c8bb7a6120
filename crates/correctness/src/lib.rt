// The correctness properties of a fragment: its base, z o n, d and u. The rules are those of specs/CorrectnessRules.antt, the digits of a
// packed type those of specs/Digits.antt. Bools are joined by & and |: both sides are at hand, and there is nothing to skip.
#![tactic(auto)]

ghost use Rattle.std.specs.Prelude.{◌≡◌};
ghost use Rattle.correctness.specs.Letters.{is_b, is_k, is_v, is_w, base_eq, is_zero, is_one, is_non_zero};
ghost use Rattle.correctness.specs.CorrectnessRules.{correctness, ok_if, TRUE, FALSE, pk_k, pk_h, multi, multi_a, hash, time};
ghost use Rattle.correctness.specs.CorrectnessRules.{cast_alt, cast_swap, cast_check, dupif_unit, cast_dupif, cast_verify, cast_nonzero};
ghost use Rattle.correctness.specs.CorrectnessRules.{cast_zeronotequal, cast_true, cast_or_i_false};
ghost use Rattle.correctness.specs.CorrectnessRules.{is_bdu, same_bkv, one_if_zero, and_input, or_b_input, or_d_input, or_i_input, branch_input, and_or_input};
ghost use Rattle.correctness.specs.CorrectnessRules.{num_args, threshold_input, and_b, and_v, or_b, or_d, or_c, or_i, and_or};
ghost use Rattle.correctness.specs.ThresholdSteps.{corr_first, corr_next, corr_result};
ghost use Rattle.correctness.specs.Digits.{base_rank, input_rank, base_of, input_of, unpack_corr};

use contexts::Context;

// Where a fragment can stand.
#[derive(Clone, Copy, PartialEq, Eq)]
pub enum Base {
    B,
    K,
    V,
    W,
}

impl Base {
    // Whether this is B.
    pub fn is_b(self) -> bool
        ensures { result ≡ is_b self }
    {
        matches!(self, Base::B)
    }

    // Whether this is K.
    pub fn is_k(self) -> bool
        ensures { result ≡ is_k self }
    {
        matches!(self, Base::K)
    }

    // Whether this is V.
    pub fn is_v(self) -> bool
        ensures { result ≡ is_v self }
    {
        matches!(self, Base::V)
    }

    // Whether this is W.
    pub fn is_w(self) -> bool
        ensures { result ≡ is_w self }
    {
        matches!(self, Base::W)
    }

    // Whether the two bases are one.
    pub fn same(self, other: Base) -> bool
        ensures { result ≡ base_eq self other }
    {
        self == other
    }

    // Whether the two bases are one and no W.
    pub fn same_bkv(self, other: Base) -> bool
        ensures { result ≡ same_bkv self other }
    {
        self.same(other) & !self.is_w()
    }
}

// How many stack elements a fragment takes.
#[derive(Clone, Copy)]
pub enum Input {
    Zero,
    One,
    Any,
    OneNonZero,
    AnyNonZero,
}

impl Input {
    // Whether nothing is taken: z.
    pub fn is_zero(self) -> bool
        ensures { result ≡ is_zero self }
    {
        matches!(self, Input::Zero)
    }

    // Whether exactly one element is taken: o.
    pub fn is_one(self) -> bool
        ensures { result ≡ is_one self }
    {
        matches!(self, Input::One | Input::OneNonZero)
    }

    // Whether a satisfaction has the top element nonzero: n.
    pub fn is_nonzero(self) -> bool
        ensures { result ≡ is_non_zero self }
    {
        matches!(self, Input::OneNonZero | Input::AnyNonZero)
    }

    // One for z, Any for the rest.
    pub fn one_if_zero(self) -> Input
        ensures { result ≡ one_if_zero self }
    {
        match self {
            Input::Zero => Input::One,
            _ => Input::Any,
        }
    }

    // How many elements are taken, where 2 stands for any number above.
    fn num_args(self) -> u8
        ensures { result ≡ num_args self }
    {
        match self {
            Input::Zero => 0,
            Input::One | Input::OneNonZero => 1,
            _ => 2,
        }
    }

    // The input that takes n elements, whatever the top element is.
    fn of_args(n: u8) -> Input
        ensures { result ≡ threshold_input n }
    {
        match n {
            0 => Input::Zero,
            1 => Input::One,
            _ => Input::Any,
        }
    }
}

// The correctness properties of a fragment.
#[derive(Clone, Copy)]
pub struct Correctness {
    pub base: Base,
    pub input: Input,
    pub dissatisfiable: bool,
    pub unit: bool,
}

// Why a type rule gives no type.
#[derive(Clone, Copy)]
pub enum TypeError {
    IllTyped,
}

// The correctness of a threshold's children, as far as they are read: whether each may stand where it stands, and what they take together.
#[derive(Clone, Copy)]
pub struct CorrectnessSoFar {
    pub fits: bool,
    pub input: Input,
}

// The correctness of these properties, if the rule's demands are met.
fn ok_if(
    met: bool,
    base: Base,
    input: Input,
    dissatisfiable: bool,
    unit: bool,
) -> Result<Correctness, TypeError>
    ensures { result ≡ ok_if met (correctness base input dissatisfiable unit) }
{
    if met {
        Ok(Correctness {
            base,
            input,
            dissatisfiable,
            unit,
        })
    } else {
        Err(TypeError::IllTyped)
    }
}

// Whether d:X has u in a context.
fn dupif_unit(context: Context) -> bool
    ensures { result ≡ dupif_unit context }
{
    matches!(context, Context::Tap)
}

// What two fragments take in turn.
fn and_input(left: Input, right: Input) -> Input
    ensures { result ≡ and_input left right }
{
    match left {
        Input::Zero => right,
        Input::One => right.one_if_zero(),
        Input::Any => Input::Any,
        Input::OneNonZero => match right {
            Input::Zero => Input::OneNonZero,
            _ => Input::AnyNonZero,
        },
        Input::AnyNonZero => Input::AnyNonZero,
    }
}

// What two fragments take in turn, whatever the top element is.
fn or_b_input(left: Input, right: Input) -> Input
    ensures { result ≡ or_b_input left right }
{
    Input::of_args(left.num_args() + right.num_args())
}

// What a fragment takes, and where it is dissatisfied another.
fn or_d_input(left: Input, right: Input) -> Input
    ensures { result ≡ or_d_input left right }
{
    if right.is_zero() {
        or_b_input(left, right)
    } else {
        Input::Any
    }
}

// What the choice takes, with one of two fragments.
fn or_i_input(left: Input, right: Input) -> Input
    ensures { result ≡ or_i_input left right }
{
    if left.is_zero() & right.is_zero() {
        Input::One
    } else {
        Input::Any
    }
}

// What one of two fragments takes, where both take nothing or both take one.
fn branch_input(left: Input, right: Input) -> Input
    ensures { result ≡ branch_input left right }
{
    let n = left.num_args();
    if n == right.num_args() {
        Input::of_args(n)
    } else {
        Input::Any
    }
}

// What a takes, and then b or c.
fn and_or_input(a: Input, b: Input, c: Input) -> Input
    ensures { result ≡ and_or_input a b c }
{
    match a {
        Input::Zero => branch_input(b, c),
        Input::One | Input::OneNonZero => or_i_input(b, c),
        _ => Input::Any,
    }
}

impl Correctness {
    // The correctness of 1.
    pub fn of_true() -> Self
        ensures { result ≡ TRUE }
    {
        Correctness {
            base: Base::B,
            input: Input::Zero,
            dissatisfiable: false,
            unit: true,
        }
    }

    // The correctness of 0.
    pub fn of_false() -> Self
        ensures { result ≡ FALSE }
    {
        Correctness {
            base: Base::B,
            input: Input::Zero,
            dissatisfiable: true,
            unit: true,
        }
    }

    // The correctness of pk_k.
    pub fn pk_k() -> Self
        ensures { result ≡ pk_k }
    {
        Correctness {
            base: Base::K,
            input: Input::OneNonZero,
            dissatisfiable: true,
            unit: true,
        }
    }

    // The correctness of pk_h.
    pub fn pk_h() -> Self
        ensures { result ≡ pk_h }
    {
        Correctness {
            base: Base::K,
            input: Input::AnyNonZero,
            dissatisfiable: true,
            unit: true,
        }
    }

    // The correctness of multi.
    pub fn multi() -> Self
        ensures { result ≡ multi }
    {
        Correctness {
            base: Base::B,
            input: Input::AnyNonZero,
            dissatisfiable: true,
            unit: true,
        }
    }

    // The correctness of multi_a.
    pub fn multi_a() -> Self
        ensures { result ≡ multi_a }
    {
        Correctness {
            base: Base::B,
            input: Input::Any,
            dissatisfiable: true,
            unit: true,
        }
    }

    // The correctness of any hash.
    pub fn hash() -> Self
        ensures { result ≡ hash }
    {
        Correctness {
            base: Base::B,
            input: Input::OneNonZero,
            dissatisfiable: true,
            unit: true,
        }
    }

    // The correctness of after and of older.
    pub fn time() -> Self
        ensures { result ≡ time }
    {
        Correctness {
            base: Base::B,
            input: Input::Zero,
            dissatisfiable: false,
            unit: false,
        }
    }

    // The correctness of a:X.
    pub fn cast_alt(self) -> Result<Correctness, TypeError>
        ensures { result ≡ cast_alt self }
    {
        ok_if(
            self.base.is_b(),
            Base::W,
            Input::Any,
            self.dissatisfiable,
            self.unit,
        )
    }

    // The correctness of s:X.
    pub fn cast_swap(self) -> Result<Correctness, TypeError>
        ensures { result ≡ cast_swap self }
    {
        ok_if(
            self.base.is_b() & self.input.is_one(),
            Base::W,
            Input::Any,
            self.dissatisfiable,
            self.unit,
        )
    }

    // The correctness of c:X.
    pub fn cast_check(self) -> Result<Correctness, TypeError>
        ensures { result ≡ cast_check self }
    {
        ok_if(
            self.base.is_k(),
            Base::B,
            self.input,
            self.dissatisfiable,
            true,
        )
    }

    // The correctness of d:X in a context.
    pub fn cast_dupif(self, context: Context) -> Result<Correctness, TypeError>
        ensures { result ≡ cast_dupif context self }
    {
        ok_if(
            self.base.is_v() & self.input.is_zero(),
            Base::B,
            Input::OneNonZero,
            true,
            dupif_unit(context),
        )
    }

    // The correctness of v:X.
    pub fn cast_verify(self) -> Result<Correctness, TypeError>
        ensures { result ≡ cast_verify self }
    {
        ok_if(self.base.is_b(), Base::V, self.input, false, false)
    }

    // The correctness of j:X.
    pub fn cast_nonzero(self) -> Result<Correctness, TypeError>
        ensures { result ≡ cast_nonzero self }
    {
        ok_if(
            self.input.is_nonzero() & self.base.is_b(),
            Base::B,
            self.input,
            true,
            self.unit,
        )
    }

    // The correctness of n:X.
    pub fn cast_zeronotequal(self) -> Result<Correctness, TypeError>
        ensures { result ≡ cast_zeronotequal self }
    {
        ok_if(
            self.base.is_b(),
            Base::B,
            self.input,
            self.dissatisfiable,
            true,
        )
    }

    // The correctness of t:X.
    pub fn cast_true(self) -> Result<Correctness, TypeError>
        ensures { result ≡ cast_true self }
    {
        ok_if(self.base.is_v(), Base::B, self.input, false, true)
    }

    // The correctness of l:X and of u:X.
    pub fn cast_or_i_false(self) -> Result<Correctness, TypeError>
        ensures { result ≡ cast_or_i_false self }
    {
        let taken = self.input.one_if_zero();
        ok_if(self.base.is_b(), Base::B, taken, true, self.unit)
    }

    // Whether this is a B with d and u.
    fn is_bdu(self) -> bool
        ensures { result ≡ is_bdu self }
    {
        self.base.is_b() & (self.dissatisfiable & self.unit)
    }

    // The correctness of and_b.
    pub fn and_b(left: Self, right: Self) -> Result<Correctness, TypeError>
        ensures { result ≡ and_b left right }
    {
        let input = and_input(left.input, right.input);
        let d = left.dissatisfiable & right.dissatisfiable;
        ok_if(
            left.base.is_b() & right.base.is_w(),
            Base::B,
            input,
            d,
            true,
        )
    }

    // The correctness of and_v.
    pub fn and_v(left: Self, right: Self) -> Result<Correctness, TypeError>
        ensures { result ≡ and_v left right }
    {
        let input = and_input(left.input, right.input);
        ok_if(
            left.base.is_v() & !right.base.is_w(),
            right.base,
            input,
            false,
            right.unit,
        )
    }

    // The correctness of or_b.
    pub fn or_b(left: Self, right: Self) -> Result<Correctness, TypeError>
        ensures { result ≡ or_b left right }
    {
        let d = left.dissatisfiable & right.dissatisfiable;
        let input = or_b_input(left.input, right.input);
        ok_if(
            d & (left.base.is_b() & right.base.is_w()),
            Base::B,
            input,
            true,
            true,
        )
    }

    // The correctness of or_d.
    pub fn or_d(left: Self, right: Self) -> Result<Correctness, TypeError>
        ensures { result ≡ or_d left right }
    {
        let input = or_d_input(left.input, right.input);
        ok_if(
            left.is_bdu() & right.base.is_b(),
            Base::B,
            input,
            right.dissatisfiable,
            right.unit,
        )
    }

    // The correctness of or_c.
    pub fn or_c(left: Self, right: Self) -> Result<Correctness, TypeError>
        ensures { result ≡ or_c left right }
    {
        let input = or_d_input(left.input, right.input);
        ok_if(
            left.is_bdu() & right.base.is_v(),
            Base::V,
            input,
            false,
            false,
        )
    }

    // The correctness of or_i.
    pub fn or_i(left: Self, right: Self) -> Result<Correctness, TypeError>
        ensures { result ≡ or_i left right }
    {
        let input = or_i_input(left.input, right.input);
        let d = left.dissatisfiable | right.dissatisfiable;
        let u = left.unit & right.unit;
        ok_if(left.base.same_bkv(right.base), left.base, input, d, u)
    }

    // The correctness of andor.
    pub fn and_or(a: Self, b: Self, c: Self) -> Result<Correctness, TypeError>
        ensures { result ≡ and_or a b c }
    {
        let input = and_or_input(a.input, b.input, c.input);
        let u = b.unit & c.unit;
        ok_if(
            a.is_bdu() & b.base.same_bkv(c.base),
            b.base,
            input,
            c.dissatisfiable,
            u,
        )
    }
}

impl CorrectnessSoFar {
    // What the first child of a threshold comes to.
    pub fn first(sub: Correctness) -> Self
        ensures { result ≡ corr_first sub }
    {
        let fits = sub.base.is_b() & (sub.unit & sub.dissatisfiable);
        let taken = or_b_input(Input::Zero, sub.input);
        CorrectnessSoFar { fits, input: taken }
    }

    // What the children come to with the next one.
    pub fn next(self, sub: Correctness) -> Self
        ensures { result ≡ corr_next self sub }
    {
        let fits = self.fits & (sub.base.is_w() & (sub.unit & sub.dissatisfiable));
        let taken = or_b_input(self.input, sub.input);
        CorrectnessSoFar { fits, input: taken }
    }

    // The correctness of a threshold over these children.
    pub fn threshold(self) -> Result<Correctness, TypeError>
        ensures { result ≡ corr_result self }
    {
        ok_if(self.fits, Base::B, self.input, true, true)
    }
}

// ---- the digits of a packed type

impl Base {
    // The place of this base among the four.
    pub fn rank(self) -> u8
        ensures { result ≡ base_rank self }
    {
        match self {
            Base::B => 0,
            Base::K => 1,
            Base::V => 2,
            Base::W => 3,
        }
    }
}

impl Input {
    // The place of this input among the five.
    pub fn rank(self) -> u8
        ensures { result ≡ input_rank self }
    {
        match self {
            Input::Zero => 0,
            Input::One => 1,
            Input::Any => 2,
            Input::OneNonZero => 3,
            Input::AnyNonZero => 4,
        }
    }
}

// The base of a digit.
fn base_of(n: u32) -> Base
    ensures { result ≡ base_of n }
{
    match n {
        0 => Base::B,
        1 => Base::K,
        2 => Base::V,
        _ => Base::W,
    }
}

// The input of a digit.
fn input_of(n: u32) -> Input
    ensures { result ≡ input_of n }
{
    match n {
        0 => Input::Zero,
        1 => Input::One,
        2 => Input::Any,
        3 => Input::OneNonZero,
        _ => Input::AnyNonZero,
    }
}

impl Correctness {
    // The correctness of the first four digits.
    pub fn unpack(n: u32) -> Self
        ensures { result ≡ unpack_corr n }
    {
        let base = base_of(n / 20);
        let input = input_of(n / 4 % 5);
        let dissatisfiable = n / 2 % 2 == 1;
        let unit = n % 2 == 1;
        Correctness {
            base,
            input,
            dissatisfiable,
            unit,
        }
    }
}
