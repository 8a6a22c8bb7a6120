// What satisfying and dissatisfying a fragment costs, what a candidate costs at given probabilities, and the weights of an Or.
//
// The rules carry the names and the order of CompilerExtData in policy/compiler.rs, and every operation on f64 is rounded in its order.
// Contracts cite `specs/Rules.antt` (the rules), `specs/Price.antt` (what a candidate costs: finite, never, or not a cost),
// `specs/Cost1d.antt` (a candidate's cost) and `specs/Weights.antt` (the weights). Document 01's marked figures stand in
// `specs/Figures.antt`, proved in `proofs/Figures.antt`.
#![tactic(auto)]

ghost use Rattle.std.specs.Prelude.{◌≡◌, ◌-◌, min, take};
ghost use Rattle.costs.specs.Rules.{TRUE, FALSE, pk_k, pk_h, multi, multi_a, hash, time};
ghost use Rattle.costs.specs.Rules.{cast_alt, cast_swap, cast_check, cast_dupif, cast_verify, cast_nonzero};
ghost use Rattle.costs.specs.Rules.{cast_zeronotequal, cast_true, cast_unlikely, cast_likely};
ghost use Rattle.costs.specs.Rules.{after, plus_dissat, plus, and_b, and_v, or_b, or_d, or_c, lesser, or_i_dissat, or_i, and_or};
ghost use Rattle.costs.specs.Rules.{nothing, plus_all, threshold};
ghost use Rattle.costs.specs.Cost1d.{last_term, cost1d};
ghost use Rattle.costs.specs.Weights.{weights};

pub mod pricing;

// The largest finite f64.
const MAX: f64 = 1.7976931348623157e308;

// The most children that a Thresh has.
const MAX_CHILDREN: usize = 16;

// The kind of signature that a context checks.
#[derive(Clone, Copy)]
pub enum SigType {
    Ecdsa,
    Schnorr,
}

// What satisfying and dissatisfying a fragment cost, in bytes of the witness.
#[derive(Clone, Copy)]
pub struct Cost {
    pub sat_cost: f64,
    pub dissat_cost: Option<f64>,
}

// One dissatisfaction cost and then another, if there is one.
fn after(first: f64, second: Option<f64>) -> Option<f64>
    ensures { result ≡ after first second }
{
    Some(first + second?)
}

// The sum of two dissatisfaction costs, if there are both.
fn plus_dissat(first: Option<f64>, second: Option<f64>) -> Option<f64>
    ensures { result ≡ plus_dissat first second }
{
    after(first?, second)
}

// The lesser of two costs, the first where they cannot be told apart.
fn lesser(a: f64, b: f64) -> f64
    ensures { result ≡ lesser a b }
{
    if a > b { b } else { a }
}

// What dissatisfying an OrI costs: the cheaper branch, with the element that chooses it.
fn or_i_dissat(l: Option<f64>, r: Option<f64>) -> Option<f64>
    ensures { result ≡ or_i_dissat l r }
{
    match (l, r) {
        (Some(ldis), Some(rdis)) => Some(lesser(2.0 + ldis, 1.0 + rdis)),
        (Some(ldis), None) => Some(2.0 + ldis),
        (None, Some(rdis)) => Some(1.0 + rdis),
        (None, None) => None,
    }
}

impl Cost {
    // The cost of True.
    pub fn TRUE() -> Cost
        ensures { result ≡ TRUE }
    {
        Cost {
            sat_cost: 0.0,
            dissat_cost: None,
        }
    }

    // The cost of False.
    pub fn FALSE() -> Cost
        ensures { result ≡ FALSE }
    {
        Cost {
            sat_cost: MAX,
            dissat_cost: Some(0.0),
        }
    }

    // The cost of PkK.
    pub fn pk_k(sig_type: SigType) -> Cost
        ensures { result ≡ pk_k sig_type }
    {
        match sig_type {
            SigType::Ecdsa => Cost {
                sat_cost: 73.0,
                dissat_cost: Some(1.0),
            },
            SigType::Schnorr => Cost {
                sat_cost: 1.0 + 64.0 + 1.0,
                dissat_cost: Some(1.0),
            },
        }
    }

    // The cost of PkH.
    pub fn pk_h(sig_type: SigType) -> Cost
        ensures { result ≡ pk_h sig_type }
    {
        match sig_type {
            SigType::Ecdsa => Cost {
                sat_cost: 73.0 + 34.0,
                dissat_cost: Some(1.0 + 34.0),
            },
            SigType::Schnorr => Cost {
                sat_cost: 66.0 + 33.0,
                dissat_cost: Some(1.0 + 33.0),
            },
        }
    }

    // The cost of Multi.
    pub fn multi(k: u16, n: u16) -> Cost
        ensures { result ≡ multi k n }
    {
        let next = k as u32 + 1;
        Cost {
            sat_cost: 1.0 + 73.0 * k as f64,
            dissat_cost: Some(1.0 * next as f64),
        }
    }

    // The cost of MultiA.
    pub fn multi_a(k: u16, n: u16) -> Cost
        ensures { result ≡ multi_a k n }
    {
        let others = n.saturating_sub(k);
        Cost {
            sat_cost: 66.0 * k as f64 + others as f64,
            dissat_cost: Some(n as f64),
        }
    }

    // The cost of a hash of any of the four kinds.
    pub fn hash() -> Cost
        ensures { result ≡ hash }
    {
        Cost {
            sat_cost: 33.0,
            dissat_cost: Some(33.0),
        }
    }

    // The cost of After and of Older.
    pub fn time() -> Cost
        ensures { result ≡ time }
    {
        Cost {
            sat_cost: 0.0,
            dissat_cost: None,
        }
    }

    // The cost of Alt over this.
    pub fn cast_alt(self) -> Cost
        ensures { result ≡ cast_alt self }
    {
        self
    }

    // The cost of Swap over this.
    pub fn cast_swap(self) -> Cost
        ensures { result ≡ cast_swap self }
    {
        self
    }

    // The cost of Check over this.
    pub fn cast_check(self) -> Cost
        ensures { result ≡ cast_check self }
    {
        self
    }

    // The cost of DupIf over this.
    pub fn cast_dupif(self) -> Cost
        ensures { result ≡ cast_dupif self }
    {
        Cost {
            sat_cost: 2.0 + self.sat_cost,
            dissat_cost: Some(1.0),
        }
    }

    // The cost of Verify over this.
    pub fn cast_verify(self) -> Cost
        ensures { result ≡ cast_verify self }
    {
        Cost {
            sat_cost: self.sat_cost,
            dissat_cost: None,
        }
    }

    // The cost of NonZero over this.
    pub fn cast_nonzero(self) -> Cost
        ensures { result ≡ cast_nonzero self }
    {
        Cost {
            sat_cost: self.sat_cost,
            dissat_cost: Some(1.0),
        }
    }

    // The cost of ZeroNotEqual over this.
    pub fn cast_zeronotequal(self) -> Cost
        ensures { result ≡ cast_zeronotequal self }
    {
        self
    }

    // The cost of the cast AndV(X, True), over this.
    pub fn cast_true(self) -> Cost
        ensures { result ≡ cast_true self }
    {
        Cost {
            sat_cost: self.sat_cost,
            dissat_cost: None,
        }
    }

    // The cost of the cast OrI(X, False), over this.
    pub fn cast_unlikely(self) -> Cost
        ensures { result ≡ cast_unlikely self }
    {
        Cost {
            sat_cost: 2.0 + self.sat_cost,
            dissat_cost: Some(1.0),
        }
    }

    // The cost of the cast OrI(False, X), over this.
    pub fn cast_likely(self) -> Cost
        ensures { result ≡ cast_likely self }
    {
        Cost {
            sat_cost: 1.0 + self.sat_cost,
            dissat_cost: Some(2.0),
        }
    }

    // The sum of two costs; it can be dissatisfied where both can.
    fn plus(self, other: Cost) -> Cost
        ensures { result ≡ plus self other }
    {
        Cost {
            sat_cost: self.sat_cost + other.sat_cost,
            dissat_cost: plus_dissat(self.dissat_cost, other.dissat_cost),
        }
    }

    // The cost of AndB.
    pub fn and_b(left: Cost, right: Cost) -> Cost
        ensures { result ≡ and_b left right }
    {
        left.plus(right)
    }

    // The cost of AndV.
    pub fn and_v(left: Cost, right: Cost) -> Cost
        ensures { result ≡ and_v left right }
    {
        Cost {
            sat_cost: left.sat_cost + right.sat_cost,
            dissat_cost: None,
        }
    }

    // The cost of OrB, its branches taken with these probabilities.
    #[tactic(auto, unfolding(crate::specs::Rules::or_b))]
    pub fn or_b(l: Cost, r: Cost, lprob: f64, rprob: f64) -> Option<Cost>
        ensures { result ≡ or_b l r lprob rprob }
    {
        let ldis = l.dissat_cost?;
        let rdis = r.dissat_cost?;
        Some(Cost {
            sat_cost: lprob * (l.sat_cost + rdis) + rprob * (r.sat_cost + ldis),
            dissat_cost: Some(ldis + rdis),
        })
    }

    // The cost of OrD, its branches taken with these probabilities.
    #[tactic(auto, unfolding(crate::specs::Rules::or_d))]
    pub fn or_d(l: Cost, r: Cost, lprob: f64, rprob: f64) -> Option<Cost>
        ensures { result ≡ or_d l r lprob rprob }
    {
        let ldis = l.dissat_cost?;
        Some(Cost {
            sat_cost: lprob * l.sat_cost + rprob * (r.sat_cost + ldis),
            dissat_cost: after(ldis, r.dissat_cost),
        })
    }

    // The cost of OrC, its branches taken with these probabilities.
    #[tactic(auto, unfolding(crate::specs::Rules::or_c))]
    pub fn or_c(l: Cost, r: Cost, lprob: f64, rprob: f64) -> Option<Cost>
        ensures { result ≡ or_c l r lprob rprob }
    {
        let ldis = l.dissat_cost?;
        Some(Cost {
            sat_cost: lprob * l.sat_cost + rprob * (r.sat_cost + ldis),
            dissat_cost: None,
        })
    }

    // The cost of OrI, its branches taken with these probabilities.
    #[tactic(auto, unfolding(crate::specs::Rules::or_i))]
    pub fn or_i(l: Cost, r: Cost, lprob: f64, rprob: f64) -> Cost
        ensures { result ≡ or_i l r lprob rprob }
    {
        Cost {
            sat_cost: lprob * (2.0 + l.sat_cost) + rprob * (1.0 + r.sat_cost),
            dissat_cost: or_i_dissat(l.dissat_cost, r.dissat_cost),
        }
    }

    // The cost of AndOr, a and b taken with the one probability and c with the other.
    #[tactic(auto, unfolding(crate::specs::Rules::and_or))]
    pub fn and_or(a: Cost, b: Cost, c: Cost, aprob: f64, cprob: f64) -> Option<Cost>
        ensures { result ≡ and_or a b c aprob cprob }
    {
        let adis = a.dissat_cost?;
        Some(Cost {
            sat_cost: aprob * (a.sat_cost + b.sat_cost) + cprob * (adis + c.sat_cost),
            dissat_cost: after(adis, c.dissat_cost),
        })
    }

    // The sum of the costs of the first n children.
    fn sum(n: u16, subs: [Cost; 16]) -> Cost
        ensures { result ≡ plus_all nothing (take n subs) }
    {
        let mut sum = Cost {
            sat_cost: 0.0,
            dissat_cost: Some(0.0),
        };
        let count = (n as usize).min(MAX_CHILDREN);
        for i in 0..count {
            sum = sum.plus(subs[i]);
        }
        sum
    }

    // The cost of a Thresh of k of the first n children.
    #[tactic(auto, unfolding(crate::specs::Rules::threshold))]
    pub fn threshold(k: u16, n: u16, subs: [Cost; 16]) -> Option<Cost>
        ensures { result ≡ threshold k n subs }
    {
        let k_over_n = k as f64 / n as f64;
        let sum = Cost::sum(n, subs);
        let dissat_cost = sum.dissat_cost?;
        Some(Cost {
            sat_cost: sum.sat_cost * k_over_n + dissat_cost * (1.0 - k_over_n),
            dissat_cost: Some(dissat_cost),
        })
    }
}

// What a candidate costs at given probabilities: a finite cost; never, where no witness will do; or not a cost, which is refused.
#[derive(Clone, Copy)]
pub enum Price {
    Finite(f64),
    Never,
    NotACost,
}

// What dissatisfaction adds to a candidate's cost.
fn last_term(dissat_prob: Option<f64>, dissat_cost: Option<f64>) -> f64
    ensures { result ≡ last_term dissat_prob dissat_cost }
{
    match (dissat_prob, dissat_cost) {
        (Some(prob), Some(cost)) => prob * cost,
        (Some(_), None) => 1.0 / 0.0,
        (None, _) => 0.0,
    }
}

// What a candidate costs: the bytes of its script, and what its witness costs at these probabilities.
#[tactic(auto, unfolding(crate::specs::Cost1d::total1d, crate::specs::Cost1d::cost1d))]
pub fn cost_1d(pk_cost: u32, cost: Cost, sat_prob: f64, dissat_prob: Option<f64>) -> Price
    ensures { result ≡ cost1d pk_cost cost sat_prob dissat_prob }
{
    let last = last_term(dissat_prob, cost.dissat_cost);
    Price::of(pk_cost as f64 + cost.sat_cost * sat_prob + last)
}

// How likely each branch of an Or is to be taken.
#[derive(Clone, Copy)]
pub struct OrWeights {
    pub lw: f64,
    pub rw: f64,
}

// The weights of an Or, each over their sum, which a u32 would not hold.
pub fn weights(l: u32, r: u32) -> OrWeights
    ensures { result ≡ weights l r }
{
    let sum = l as u64 + r as u64;
    let total = std::num::nearest_u64_to_f64(sum);
    let lw = l as f64 / total;
    let rw = r as f64 / total;
    OrWeights { lw, rw }
}
