// What a candidate costs, as an answer of three cases: how a float is read as one, how two answers order, by how much one exceeds another,
// and what the caller of compile is told of one. The contracts cite specs/Price.antt.
ghost use Rattle.std.specs.Prelude.{◌≡◌};
ghost use Rattle.costs.specs.Price.{price_of, at_most, excess, cost_bits, never_flag};

use crate::Price;
use words::{is_cost, word_of_float};

impl Price {
    // What a float says: infinity is never; a NaN, or what has its sign bit set, is not a cost.
    pub fn of(x: f64) -> Price
        ensures { result ≡ price_of x }
    {
        if !is_cost(x) {
            Price::NotACost
        } else if x < 1.0 / 0.0 {
            Price::Finite(x)
        } else {
            Price::Never
        }
    }

    // Whether this is the same cost or a lower one: finite ones as their bits order, and never above them.
    pub fn at_most(self, other: Price) -> bool
        ensures { result ≡ at_most self other }
    {
        match self {
            Price::Finite(a) => match other {
                Price::Finite(b) => word_of_float(a) <= word_of_float(b),
                Price::Never => true,
                Price::NotACost => false,
            },
            Price::Never => match other {
                Price::Finite(_) => false,
                Price::Never => true,
                Price::NotACost => false,
            },
            Price::NotACost => false,
        }
    }

    // By how much this exceeds the other: without bound where only the other is never, and infinity, which is below nothing, where this is never.
    pub fn excess(self, other: Price) -> f64
        ensures { result ≡ excess self other }
    {
        match self {
            Price::Finite(a) => match other {
                Price::Finite(b) => a - b,
                Price::Never => -1.0 / 0.0,
                Price::NotACost => 1.0 / 0.0,
            },
            Price::Never => 1.0 / 0.0,
            Price::NotACost => 1.0 / 0.0,
        }
    }

    // The bits of a finite cost, else 0.
    pub fn bits(self) -> u64
        ensures { result ≡ cost_bits self }
    {
        match self {
            Price::Finite(x) => word_of_float(x),
            Price::Never | Price::NotACost => 0,
        }
    }

    // 1 for never, else 0.
    pub fn never(self) -> u32
        ensures { result ≡ never_flag self }
    {
        matches!(self, Price::Never) as u32
    }
}
