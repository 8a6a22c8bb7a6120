// The type of a Miniscript fragment: its rules, from types/mod.rs, the question whether one type is a subtype of another, and the derived
// order of types. The contracts cite specs/TypeRules.antt, specs/Subtype.antt, specs/Mask.antt and specs/TypeOrder.antt.
#![tactic(auto)]

ghost use Rattle.std.specs.Prelude.{◌≡◌};
ghost use Rattle.types.specs.TypeRules.{typed, TRUE, FALSE, pk_k, pk_h, multi, multi_a, hash, time};
ghost use Rattle.types.specs.TypeRules.{cast_alt, cast_swap, cast_check, cast_dupif, cast_verify, cast_nonzero};
ghost use Rattle.types.specs.TypeRules.{cast_zeronotequal, cast_true, cast_unlikely, cast_likely};
ghost use Rattle.types.specs.TypeRules.{and_b, and_v, or_b, or_d, or_c, or_i, and_or, threshold_of};
ghost use Rattle.types.specs.ThresholdSteps.{type_first, type_next, type_result};

use contexts::Context;
use correctness::{Correctness, CorrectnessSoFar, TypeError};
use malleability::{Malleability, MalleabilitySoFar};

pub mod order;
pub mod subtype;

// The type of a fragment: its correctness and its malleability properties.
#[derive(Clone, Copy)]
pub struct Type {
    pub corr: Correctness,
    pub mall: Malleability,
}

// The type of a threshold's children, as far as they are read.
#[derive(Clone, Copy)]
pub struct TypeSoFar {
    pub corr: CorrectnessSoFar,
    pub mall: MalleabilitySoFar,
}

// The type whose correctness a rule answered, if it did.
fn typed(corr: Result<Correctness, TypeError>, mall: Malleability) -> Result<Type, TypeError>
    ensures { result ≡ typed corr mall }
{
    Ok(Type { corr: corr?, mall })
}

impl Type {
    // The type of 1.
    pub fn of_true() -> Self
        ensures { result ≡ TRUE }
    {
        let corr = Correctness::of_true();
        let mall = Malleability::of_true();
        Type { corr, mall }
    }

    // The type of 0.
    pub fn of_false() -> Self
        ensures { result ≡ FALSE }
    {
        let corr = Correctness::of_false();
        let mall = Malleability::of_false();
        Type { corr, mall }
    }

    // The type of pk_k.
    pub fn pk_k() -> Self
        ensures { result ≡ pk_k }
    {
        let corr = Correctness::pk_k();
        let mall = Malleability::pk_k();
        Type { corr, mall }
    }

    // The type of pk_h.
    pub fn pk_h() -> Self
        ensures { result ≡ pk_h }
    {
        let corr = Correctness::pk_h();
        let mall = Malleability::pk_h();
        Type { corr, mall }
    }

    // The type of multi.
    pub fn multi() -> Self
        ensures { result ≡ multi }
    {
        let corr = Correctness::multi();
        let mall = Malleability::multi();
        Type { corr, mall }
    }

    // The type of multi_a.
    pub fn multi_a() -> Self
        ensures { result ≡ multi_a }
    {
        let corr = Correctness::multi_a();
        let mall = Malleability::multi_a();
        Type { corr, mall }
    }

    // The type of any hash.
    pub fn hash() -> Self
        ensures { result ≡ hash }
    {
        let corr = Correctness::hash();
        let mall = Malleability::hash();
        Type { corr, mall }
    }

    // The type of after and of older.
    pub fn time() -> Self
        ensures { result ≡ time }
    {
        let corr = Correctness::time();
        let mall = Malleability::time();
        Type { corr, mall }
    }

    // The type of a:X.
    pub fn cast_alt(self) -> Result<Type, TypeError>
        ensures { result ≡ cast_alt self }
    {
        typed(self.corr.cast_alt(), self.mall.cast_alt())
    }

    // The type of s:X.
    pub fn cast_swap(self) -> Result<Type, TypeError>
        ensures { result ≡ cast_swap self }
    {
        typed(self.corr.cast_swap(), self.mall.cast_swap())
    }

    // The type of c:X.
    pub fn cast_check(self) -> Result<Type, TypeError>
        ensures { result ≡ cast_check self }
    {
        typed(self.corr.cast_check(), self.mall.cast_check())
    }

    // The type of d:X in a context.
    pub fn cast_dupif(self, context: Context) -> Result<Type, TypeError>
        ensures { result ≡ cast_dupif context self }
    {
        typed(self.corr.cast_dupif(context), self.mall.cast_dupif())
    }

    // The type of v:X.
    pub fn cast_verify(self) -> Result<Type, TypeError>
        ensures { result ≡ cast_verify self }
    {
        typed(self.corr.cast_verify(), self.mall.cast_verify())
    }

    // The type of j:X.
    pub fn cast_nonzero(self) -> Result<Type, TypeError>
        ensures { result ≡ cast_nonzero self }
    {
        typed(self.corr.cast_nonzero(), self.mall.cast_nonzero())
    }

    // The type of n:X.
    pub fn cast_zeronotequal(self) -> Result<Type, TypeError>
        ensures { result ≡ cast_zeronotequal self }
    {
        typed(self.corr.cast_zeronotequal(), self.mall.cast_zeronotequal())
    }

    // The type of t:X.
    pub fn cast_true(self) -> Result<Type, TypeError>
        ensures { result ≡ cast_true self }
    {
        typed(self.corr.cast_true(), self.mall.cast_true())
    }

    // The type of u:X.
    pub fn cast_unlikely(self) -> Result<Type, TypeError>
        ensures { result ≡ cast_unlikely self }
    {
        typed(self.corr.cast_or_i_false(), self.mall.cast_or_i_false())
    }

    // The type of l:X.
    pub fn cast_likely(self) -> Result<Type, TypeError>
        ensures { result ≡ cast_likely self }
    {
        typed(self.corr.cast_or_i_false(), self.mall.cast_or_i_false())
    }

    // The type of and_b.
    pub fn and_b(left: Self, right: Self) -> Result<Type, TypeError>
        ensures { result ≡ and_b left right }
    {
        typed(
            Correctness::and_b(left.corr, right.corr),
            Malleability::and_b(left.mall, right.mall),
        )
    }

    // The type of and_v.
    pub fn and_v(left: Self, right: Self) -> Result<Type, TypeError>
        ensures { result ≡ and_v left right }
    {
        typed(
            Correctness::and_v(left.corr, right.corr),
            Malleability::and_v(left.mall, right.mall),
        )
    }

    // The type of or_b.
    pub fn or_b(left: Self, right: Self) -> Result<Type, TypeError>
        ensures { result ≡ or_b left right }
    {
        typed(
            Correctness::or_b(left.corr, right.corr),
            Malleability::or_b(left.mall, right.mall),
        )
    }

    // The type of or_d.
    pub fn or_d(left: Self, right: Self) -> Result<Type, TypeError>
        ensures { result ≡ or_d left right }
    {
        typed(
            Correctness::or_d(left.corr, right.corr),
            Malleability::or_d(left.mall, right.mall),
        )
    }

    // The type of or_c.
    pub fn or_c(left: Self, right: Self) -> Result<Type, TypeError>
        ensures { result ≡ or_c left right }
    {
        typed(
            Correctness::or_c(left.corr, right.corr),
            Malleability::or_c(left.mall, right.mall),
        )
    }

    // The type of or_i.
    pub fn or_i(left: Self, right: Self) -> Result<Type, TypeError>
        ensures { result ≡ or_i left right }
    {
        typed(
            Correctness::or_i(left.corr, right.corr),
            Malleability::or_i(left.mall, right.mall),
        )
    }

    // The type of andor.
    pub fn and_or(a: Self, b: Self, c: Self) -> Result<Type, TypeError>
        ensures { result ≡ and_or a b c }
    {
        typed(
            Correctness::and_or(a.corr, b.corr, c.corr),
            Malleability::and_or(a.mall, b.mall, c.mall),
        )
    }

    // The type of thresh, of which k among the first n of subs are to be satisfied.
    pub fn threshold(k: usize, n: usize, subs: [Type; 16]) -> Result<Type, TypeError>
        ensures { result ≡ threshold_of k n subs }
    {
        if k < 1 || n < k || 16 < n {
            return Err(TypeError::IllTyped);
        }
        let mut children = TypeSoFar::first(subs[0]);
        for i in 1..n {
            children = children.next(subs[i]);
        }
        children.threshold(n, n - k)
    }
}

impl TypeSoFar {
    // What the first child of a threshold comes to.
    fn first(sub: Type) -> Self
        ensures { result ≡ type_first sub }
    {
        let corr = CorrectnessSoFar::first(sub.corr);
        let mall = MalleabilitySoFar::first(sub.mall);
        TypeSoFar { corr, mall }
    }

    // What the children come to with the next one.
    fn next(self, sub: Type) -> Self
        ensures { result ≡ type_next self sub }
    {
        let corr = self.corr.next(sub.corr);
        let mall = self.mall.next(sub.mall);
        TypeSoFar { corr, mall }
    }

    // The type of a threshold over these n children, of which all but others are to be satisfied.
    fn threshold(self, n: usize, others: usize) -> Result<Type, TypeError>
        ensures { result ≡ type_result self n others }
    {
        typed(self.corr.threshold(), self.mall.threshold(n, others))
    }
}
