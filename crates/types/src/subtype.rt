// The question whether one type is a subtype of another, by masks: the properties of a type are the bits of a number, one bit for each letter
// of B K V W z o n d u f e s m, and a subtype has each of the other's bits. The contracts cite specs/Mask.antt and specs/Subtype.antt.
ghost use Rattle.std.specs.Prelude.{◌≡◌};
ghost use Rattle.types.specs.Mask.{base_bits, input_bits, dissat_bits, mask, has_all};
ghost use Rattle.types.specs.Subtype.{type_sub};

use crate::Type;
use correctness::{Base, Input};
use malleability::Dissat;

// The bits B K V W of a base, one of which is set.
fn base_bits(base: Base) -> u32
    ensures { result ≡ base_bits base }
{
    match base {
        Base::B => 8,
        Base::K => 4,
        Base::V => 2,
        Base::W => 1,
    }
}

// The bits z o n of an input.
fn input_bits(input: Input) -> u32
    ensures { result ≡ input_bits input }
{
    match input {
        Input::Zero => 4,
        Input::One => 2,
        Input::Any => 0,
        Input::OneNonZero => 3,
        Input::AnyNonZero => 1,
    }
}

// The bits f e of a dissat.
fn dissat_bits(dissat: Dissat) -> u32
    ensures { result ≡ dissat_bits dissat }
{
    match dissat {
        Dissat::None => 2,
        Dissat::Unique => 1,
        Dissat::Unknown => 0,
    }
}

// Whether a has each bit that b has.
pub fn has_all(a: u32, b: u32) -> bool
    ensures { result ≡ has_all a b }
{
    a & b == b
}

impl Type {
    // The properties of this type as bits: B K V W z o n d u f e s m, m the lowest.
    pub fn mask(self) -> u32
        ensures { result ≡ mask self }
    {
        let b = base_bits(self.corr.base);
        let i = input_bits(self.corr.input);
        let d = self.corr.dissatisfiable as u32;
        let u = self.corr.unit as u32;
        let x = dissat_bits(self.mall.dissat);
        let s = self.mall.safe as u32;
        let m = self.mall.non_malleable as u32;
        ((b * 8 + i) * 4 + (d * 2 + u)) * 16 + (x * 4 + (s * 2 + m))
    }

    // Whether this is a subtype of the other: it may stand wherever the other may.
    pub fn is_subtype(self, other: Self) -> bool
        ensures { result ≡ type_sub self other }
    {
        has_all(self.mask(), other.mask())
    }
}
