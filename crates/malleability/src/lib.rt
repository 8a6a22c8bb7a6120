// The malleability properties of a fragment: f or e, s and m. The rules are those of specs/MalleabilityRules.antt, the digits of a packed
// type those of specs/Digits.antt. Bools are joined by & and |: both sides are at hand, and there is nothing to skip.
#![tactic(auto)]

ghost use Rattle.std.specs.Prelude.{◌≡◌};
ghost use Rattle.malleability.specs.Letters.{is_none, is_unique};
ghost use Rattle.malleability.specs.MalleabilityRules.{TRUE, FALSE, pk_k, pk_h, multi, multi_a, hash, time};
ghost use Rattle.malleability.specs.MalleabilityRules.{cast_alt, cast_swap, cast_check, cast_dupif, cast_verify, cast_nonzero};
ghost use Rattle.malleability.specs.MalleabilityRules.{cast_zeronotequal, cast_true, cast_or_i_false};
ghost use Rattle.malleability.specs.MalleabilityRules.{dissat_added, none_if, unique_if, and_b_dissat, or_i_dissat, and_or_dissat, either_safe};
ghost use Rattle.malleability.specs.MalleabilityRules.{and_b, and_v, or_b, or_d, or_c, or_i, and_or};
ghost use Rattle.malleability.specs.ThresholdSteps.{counted, mall_first, mall_next, mall_result};
ghost use Rattle.malleability.specs.Digits.{dissat_rank, dissat_of, unpack_mall};

// Whether a fragment has a dissatisfaction, and whether it is the only one.
#[derive(Clone, Copy)]
pub enum Dissat {
    None,
    Unique,
    Unknown,
}

impl Dissat {
    // Whether there is no dissatisfaction: f.
    pub fn is_none(self) -> bool
        ensures { result ≡ is_none self }
    {
        matches!(self, Dissat::None)
    }

    // Whether there is exactly one dissatisfaction: e.
    pub fn is_unique(self) -> bool
        ensures { result ≡ is_unique self }
    {
        matches!(self, Dissat::Unique)
    }

    // The dissatisfactions with a new one beside them.
    pub fn added(self) -> Dissat
        ensures { result ≡ dissat_added self }
    {
        match self {
            Dissat::None => Dissat::Unique,
            _ => Dissat::Unknown,
        }
    }
}

// None if b holds, else Unknown.
fn none_if(b: bool) -> Dissat
    ensures { result ≡ none_if b }
{
    if b { Dissat::None } else { Dissat::Unknown }
}

// Unique if b holds, else Unknown.
fn unique_if(b: bool) -> Dissat
    ensures { result ≡ unique_if b }
{
    if b { Dissat::Unique } else { Dissat::Unknown }
}

// The dissatisfactions of two parts that are both run, given whether each is safe.
fn and_b_dissat(left: Dissat, right: Dissat, left_safe: bool, right_safe: bool) -> Dissat
    ensures { result ≡ and_b_dissat left right left_safe right_safe }
{
    match left {
        Dissat::None => match right {
            Dissat::None => Dissat::None,
            _ => none_if(left_safe),
        },
        Dissat::Unique => match right {
            Dissat::None => none_if(right_safe),
            Dissat::Unique => unique_if(left_safe & right_safe),
            Dissat::Unknown => Dissat::Unknown,
        },
        Dissat::Unknown => match right {
            Dissat::None => none_if(right_safe),
            _ => Dissat::Unknown,
        },
    }
}

// The dissatisfactions of a choice of two parts.
fn or_i_dissat(left: Dissat, right: Dissat) -> Dissat
    ensures { result ≡ or_i_dissat left right }
{
    match left {
        Dissat::None => right,
        Dissat::Unique => right.added(),
        Dissat::Unknown => Dissat::Unknown,
    }
}

// The dissatisfactions of an andor, where kept says that its first part is safe or its second has none.
fn and_or_dissat(kept: bool, c: Dissat) -> Dissat
    ensures { result ≡ and_or_dissat kept c }
{
    if kept { c } else { Dissat::Unknown }
}

// The malleability properties of a fragment.
#[derive(Clone, Copy)]
pub struct Malleability {
    pub dissat: Dissat,
    pub safe: bool,
    pub non_malleable: bool,
}

// The malleability of a threshold's children, as far as they are read.
#[derive(Clone, Copy)]
pub struct MalleabilitySoFar {
    pub safe_count: usize,
    pub all_unique: bool,
    pub all_non_malleable: bool,
}

impl Malleability {
    // The malleability of 1.
    pub fn of_true() -> Self
        ensures { result ≡ TRUE }
    {
        Malleability {
            dissat: Dissat::None,
            safe: false,
            non_malleable: true,
        }
    }

    // The malleability of 0.
    pub fn of_false() -> Self
        ensures { result ≡ FALSE }
    {
        Malleability {
            dissat: Dissat::Unique,
            safe: true,
            non_malleable: true,
        }
    }

    // The malleability of pk_k.
    pub fn pk_k() -> Self
        ensures { result ≡ pk_k }
    {
        Malleability {
            dissat: Dissat::Unique,
            safe: true,
            non_malleable: true,
        }
    }

    // The malleability of pk_h.
    pub fn pk_h() -> Self
        ensures { result ≡ pk_h }
    {
        Malleability {
            dissat: Dissat::Unique,
            safe: true,
            non_malleable: true,
        }
    }

    // The malleability of multi.
    pub fn multi() -> Self
        ensures { result ≡ multi }
    {
        Malleability {
            dissat: Dissat::Unique,
            safe: true,
            non_malleable: true,
        }
    }

    // The malleability of multi_a.
    pub fn multi_a() -> Self
        ensures { result ≡ multi_a }
    {
        Malleability {
            dissat: Dissat::Unique,
            safe: true,
            non_malleable: true,
        }
    }

    // The malleability of any hash.
    pub fn hash() -> Self
        ensures { result ≡ hash }
    {
        Malleability {
            dissat: Dissat::Unknown,
            safe: false,
            non_malleable: true,
        }
    }

    // The malleability of after and of older.
    pub fn time() -> Self
        ensures { result ≡ time }
    {
        Malleability {
            dissat: Dissat::None,
            safe: false,
            non_malleable: true,
        }
    }

    // The malleability of a:X.
    pub fn cast_alt(self) -> Self
        ensures { result ≡ cast_alt self }
    {
        self
    }

    // The malleability of s:X.
    pub fn cast_swap(self) -> Self
        ensures { result ≡ cast_swap self }
    {
        self
    }

    // The malleability of c:X.
    pub fn cast_check(self) -> Self
        ensures { result ≡ cast_check self }
    {
        self
    }

    // The malleability of d:X.
    pub fn cast_dupif(self) -> Self
        ensures { result ≡ cast_dupif self }
    {
        Malleability {
            dissat: self.dissat.added(),
            ..self
        }
    }

    // The malleability of v:X.
    pub fn cast_verify(self) -> Self
        ensures { result ≡ cast_verify self }
    {
        Malleability {
            dissat: Dissat::None,
            ..self
        }
    }

    // The malleability of j:X.
    pub fn cast_nonzero(self) -> Self
        ensures { result ≡ cast_nonzero self }
    {
        Malleability {
            dissat: self.dissat.added(),
            ..self
        }
    }

    // The malleability of n:X.
    pub fn cast_zeronotequal(self) -> Self
        ensures { result ≡ cast_zeronotequal self }
    {
        self
    }

    // The malleability of t:X.
    pub fn cast_true(self) -> Self
        ensures { result ≡ cast_true self }
    {
        Malleability {
            dissat: Dissat::None,
            ..self
        }
    }

    // The malleability of l:X and of u:X.
    pub fn cast_or_i_false(self) -> Self
        ensures { result ≡ cast_or_i_false self }
    {
        Malleability {
            dissat: self.dissat.added(),
            ..self
        }
    }

    // The malleability of and_b.
    pub fn and_b(left: Self, right: Self) -> Self
        ensures { result ≡ and_b left right }
    {
        let dissat = and_b_dissat(left.dissat, right.dissat, left.safe, right.safe);
        let safe = left.safe | right.safe;
        let non_malleable = left.non_malleable & right.non_malleable;
        Malleability {
            dissat,
            safe,
            non_malleable,
        }
    }

    // The malleability of and_v.
    pub fn and_v(left: Self, right: Self) -> Self
        ensures { result ≡ and_v left right }
    {
        let dissat = none_if(right.dissat.is_none() | left.safe);
        let safe = left.safe | right.safe;
        let non_malleable = left.non_malleable & right.non_malleable;
        Malleability {
            dissat,
            safe,
            non_malleable,
        }
    }

    // Whether left has m and e, right has m, and one of the two is safe.
    fn either_safe(left: Self, right: Self) -> bool
        ensures { result ≡ either_safe left right }
    {
        let unique = left.non_malleable & left.dissat.is_unique();
        (unique & right.non_malleable) & (left.safe | right.safe)
    }

    // The malleability of or_b.
    pub fn or_b(left: Self, right: Self) -> Self
        ensures { result ≡ or_b left right }
    {
        let safe = left.safe & right.safe;
        let non_malleable = Malleability::either_safe(left, right) & right.dissat.is_unique();
        Malleability {
            dissat: Dissat::Unique,
            safe,
            non_malleable,
        }
    }

    // The malleability of or_d.
    pub fn or_d(left: Self, right: Self) -> Self
        ensures { result ≡ or_d left right }
    {
        let safe = left.safe & right.safe;
        let non_malleable = Malleability::either_safe(left, right);
        Malleability {
            dissat: right.dissat,
            safe,
            non_malleable,
        }
    }

    // The malleability of or_c.
    pub fn or_c(left: Self, right: Self) -> Self
        ensures { result ≡ or_c left right }
    {
        let safe = left.safe & right.safe;
        let non_malleable = Malleability::either_safe(left, right);
        Malleability {
            dissat: Dissat::None,
            safe,
            non_malleable,
        }
    }

    // The malleability of or_i.
    pub fn or_i(left: Self, right: Self) -> Self
        ensures { result ≡ or_i left right }
    {
        let dissat = or_i_dissat(left.dissat, right.dissat);
        let safe = left.safe & right.safe;
        let each = left.non_malleable & right.non_malleable;
        let non_malleable = each & (left.safe | right.safe);
        Malleability {
            dissat,
            safe,
            non_malleable,
        }
    }

    // The malleability of andor.
    pub fn and_or(a: Self, b: Self, c: Self) -> Self
        ensures { result ≡ and_or a b c }
    {
        let dissat = and_or_dissat(a.safe | b.dissat.is_none(), c.dissat);
        let a_or_b = a.safe | b.safe;
        let safe = a_or_b & c.safe;
        let a_each = a.non_malleable & a.dissat.is_unique();
        let each = a_each & (b.non_malleable & c.non_malleable);
        let non_malleable = each & (a_or_b | c.safe);
        Malleability {
            dissat,
            safe,
            non_malleable,
        }
    }
}

// One more than n if safe, of at most 16.
fn counted(n: usize, safe: bool) -> usize
    ensures { result ≡ counted n safe }
{
    if safe && n < 16 { n + 1 } else { n }
}

impl MalleabilitySoFar {
    // What the first child of a threshold comes to.
    pub fn first(sub: Malleability) -> Self
        ensures { result ≡ mall_first sub }
    {
        let safe_count = sub.safe as usize;
        let all_unique = sub.dissat.is_unique();
        MalleabilitySoFar {
            safe_count,
            all_unique,
            all_non_malleable: sub.non_malleable,
        }
    }

    // What the children come to with the next one.
    pub fn next(self, sub: Malleability) -> Self
        ensures { result ≡ mall_next self sub }
    {
        let safe_count = counted(self.safe_count, sub.safe);
        let all_unique = self.all_unique & sub.dissat.is_unique();
        let all_non_malleable = self.all_non_malleable & sub.non_malleable;
        MalleabilitySoFar {
            safe_count,
            all_unique,
            all_non_malleable,
        }
    }

    // The malleability of a threshold over these n children, of which all but others are to be satisfied.
    pub fn threshold(self, n: usize, others: usize) -> Malleability
        ensures { result ≡ mall_result self n others }
    {
        let dissat = unique_if(self.all_unique & (self.safe_count == n));
        let safe = others < self.safe_count;
        let each = self.all_non_malleable & (others <= self.safe_count);
        let non_malleable = each & self.all_unique;
        Malleability {
            dissat,
            safe,
            non_malleable,
        }
    }
}

// ---- the digits of a packed type

impl Dissat {
    // The place of this dissat among the three.
    pub fn rank(self) -> u8
        ensures { result ≡ dissat_rank self }
    {
        match self {
            Dissat::None => 0,
            Dissat::Unique => 1,
            Dissat::Unknown => 2,
        }
    }
}

// The dissat of a digit.
fn dissat_of(n: u32) -> Dissat
    ensures { result ≡ dissat_of n }
{
    match n {
        0 => Dissat::None,
        1 => Dissat::Unique,
        _ => Dissat::Unknown,
    }
}

impl Malleability {
    // The malleability of the last three digits.
    pub fn unpack(n: u32) -> Self
        ensures { result ≡ unpack_mall n }
    {
        let dissat = dissat_of(n / 4);
        let safe = n / 2 % 2 == 1;
        let non_malleable = n % 2 == 1;
        Malleability {
            dissat,
            safe,
            non_malleable,
        }
    }
}
