// The searches and the pairings of And and Or, as tables: which searches each asks for, in order, and which of their tables it pairs, as
// compile_binary and compile_tern are called in policy/compiler.rs.
//
// Its contracts cite `specs/Stages.antt`. That these tables are the definition's And and Or is proved in `proofs/Stages.antt`.
#![tactic(auto)]

ghost use Rattle.std.specs.Prelude.{◌≡◌, take};
ghost use Rattle.stages.specs.Stages.{ask, pairing, and_asks, and_pairings, or_asks, or_pairings, and_or_asks, and_or_pairings, or_dissat};

// The kinds of pairs and triples.
const AND_B: u16 = 49;

const AND_V: u16 = 50;

const OR_B: u16 = 51;

const OR_D: u16 = 52;

const OR_C: u16 = 53;

const OR_I: u16 = 54;

const AND_OR: u16 = 55;

// In the place of a table: False alone.
const FALSE: u8 = 8;

// One search: the number of its policy, and the probabilities of satisfaction and of dissatisfaction.
#[derive(Clone, Copy)]
pub struct Ask {
    pub r: usize,
    pub sat: f64,
    pub dissat: Option<f64>,
}

// One pairing: its kind, the places of the tables that it pairs, and the weights of its sides. A pair has no third.
#[derive(Clone, Copy)]
pub struct Pairing {
    pub kind: u16,
    pub first: u8,
    pub second: u8,
    pub third: u8,
    pub lw: f64,
    pub rw: f64,
}

fn one_ask(r: usize, sat: f64, dissat: Option<f64>) -> Ask
    ensures { result ≡ ask r sat dissat }
{
    Ask { r, sat, dissat }
}

fn pair(kind: u16, first: u8, second: u8, lw: f64, rw: f64) -> Pairing
    ensures { result ≡ pairing kind first second 0 lw rw }
{
    Pairing {
        kind,
        first,
        second,
        third: 0,
        lw,
        rw,
    }
}

fn triple(first: u8, second: u8, third: u8, lw: f64, rw: f64) -> Pairing
    ensures { result ≡ pairing 55 first second third lw rw }
{
    Pairing {
        kind: AND_OR,
        first,
        second,
        third,
        lw,
        rw,
    }
}

// The searches of an And of l and r.
pub fn and_asks(l: usize, r: usize, sat: f64, dissat: Option<f64>) -> [Ask; 8]
    ensures { take 4 result ≡ and_asks l r sat dissat }
{
    let none = one_ask(l, sat, None);
    let mut asks = [none; 8];
    asks[0] = one_ask(l, sat, dissat);
    asks[1] = one_ask(r, sat, dissat);
    asks[2] = one_ask(r, sat, None);
    asks
}

// The pairings of an And.
pub fn and_pairings() -> [Pairing; 10]
    ensures { take 6 result ≡ and_pairings }
{
    let mut pairings = [pair(AND_B, 0, 1, 1.0, 1.0); 10];
    pairings[1] = pair(AND_B, 1, 0, 1.0, 1.0);
    pairings[2] = pair(AND_V, 0, 1, 1.0, 1.0);
    pairings[3] = pair(AND_V, 1, 0, 1.0, 1.0);
    pairings[4] = triple(0, 2, FALSE, 1.0, 0.0);
    pairings[5] = triple(1, 3, FALSE, 1.0, 0.0);
    pairings
}

// The dissatisfaction probability of a side of an Or that may be dissatisfied with the whole, or when the other side, of weight v, is taken.
fn or_dissat(dissat: Option<f64>, v: f64, sat: f64) -> Option<f64>
    ensures { result ≡ or_dissat dissat v sat }
{
    Some(dissat.unwrap_or(0.0) + v * sat)
}

// The searches of an Or one side of which, of weight w, is an And of x and y; the other has weight v.
pub fn and_or_asks(
    x: usize,
    y: usize,
    other: usize,
    sat: f64,
    dissat: Option<f64>,
    w: f64,
    v: f64,
) -> [Ask; 8]
    ensures { take 5 result ≡ and_or_asks x y other sat dissat w v }
{
    let both = or_dissat(dissat, v, sat);
    let mut asks = [one_ask(x, w * sat, both); 8];
    asks[1] = one_ask(x, w * sat, None);
    asks[2] = one_ask(y, w * sat, both);
    asks[3] = one_ask(y, w * sat, None);
    asks[4] = one_ask(other, v * sat, dissat);
    asks
}

// The pairings of such an Or.
pub fn and_or_pairings(w: f64, v: f64) -> [Pairing; 10]
    ensures { take 2 result ≡ and_or_pairings w v }
{
    let mut pairings = [triple(0, 3, 4, w, v); 10];
    pairings[1] = triple(2, 1, 4, w, v);
    pairings
}

// The searches of an Or of l and r.
pub fn or_asks(l: usize, r: usize, sat: f64, dissat: Option<f64>, lw: f64, rw: f64) -> [Ask; 8]
    ensures { result ≡ or_asks l r sat dissat lw rw }
{
    [
        one_ask(l, lw * sat, or_dissat(dissat, rw, sat)),
        one_ask(l, lw * sat, Some(rw * sat)),
        one_ask(l, lw * sat, dissat),
        one_ask(l, lw * sat, None),
        one_ask(r, rw * sat, or_dissat(dissat, lw, sat)),
        one_ask(r, rw * sat, Some(lw * sat)),
        one_ask(r, rw * sat, dissat),
        one_ask(r, rw * sat, None),
    ]
}

// The pairings of an Or.
pub fn or_pairings(lw: f64, rw: f64) -> [Pairing; 10]
    ensures { result ≡ or_pairings lw rw }
{
    [
        pair(OR_B, 0, 4, lw, rw),
        pair(OR_B, 4, 0, rw, lw),
        pair(OR_D, 0, 6, lw, rw),
        pair(OR_D, 4, 2, rw, lw),
        pair(OR_C, 1, 7, lw, rw),
        pair(OR_C, 5, 3, rw, lw),
        pair(OR_I, 2, 7, lw, rw),
        pair(OR_I, 6, 3, rw, lw),
        pair(OR_I, 3, 6, lw, rw),
        pair(OR_I, 7, 2, rw, lw),
    ]
}
