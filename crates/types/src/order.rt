// The derived order of types, and the number that packs a type in that order. The contracts cite specs/TypeOrder.antt.
ghost use Rattle.std.specs.Prelude.{◌≡◌};
ghost use Rattle.types.specs.TypeOrder.{cmp_rank, cmp_type, pack, unpack};

use crate::Type;
use correctness::Correctness;
use malleability::Malleability;
use std::cmp::Ordering;

// How many types there are.
const TYPES: u32 = 960;

// How two packed numbers stand.
fn cmp_rank(a: u32, b: u32) -> Ordering
    ensures { result ≡ cmp_rank a b }
{
    a.cmp(&b)
}

impl Type {
    // The number that packs this type, below 960.
    pub fn pack(self) -> u32
        ensures { result ≡ pack self }
    {
        let b = self.corr.base.rank() as u32;
        let i = self.corr.input.rank() as u32;
        let d = self.corr.dissatisfiable as u32;
        let u = self.corr.unit as u32;
        let x = self.mall.dissat.rank() as u32;
        let s = self.mall.safe as u32;
        let m = self.mall.non_malleable as u32;
        (((((b * 5 + i) * 2 + d) * 2 + u) * 3 + x) * 2 + s) * 2 + m
    }

    // The type that n packs, if there is one.
    pub fn unpack(n: u32) -> Option<Type>
        ensures { result ≡ unpack n }
    {
        if n < TYPES {
            let corr = Correctness::unpack(n / 12);
            let mall = Malleability::unpack(n % 12);
            Some(Type { corr, mall })
        } else {
            None
        }
    }

    // How this type stands to the other in the derived order, which is that of their numbers.
    pub fn cmp(self, other: Self) -> Ordering
        ensures { result ≡ cmp_type self other }
    {
        cmp_rank(self.pack(), other.pack())
    }
}
