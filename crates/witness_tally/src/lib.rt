// The counts and sums of a report on what spends cost: docs/WITNESS.md.
//
// The contract cites specs/Tallies.antt.
#![tactic(auto)]

ghost use Rattle.std.specs.Prelude.{◌≡◌, ◌^◌, ◌<◌};
ghost use Rattle.witness_tally.specs.Tallies.{Few, Small, counted as Tallies·counted};

// What comes of a line: the fewest and the most bytes of a witness, that there is no way, or the number of a refusal.
#[derive(Clone, Copy)]
pub enum Outcome {
    Bytes(u64, u64),
    NoWay,
    Refused(u32),
}

// How many lines there are, how many of them have no way and are refused, and the sums of the fewest and of the most bytes of the others.
#[derive(Clone, Copy)]
pub struct Tally {
    pub inputs: u64,
    pub none: u64,
    pub refused: u64,
    pub smallest: u64,
    pub largest: u64,
}

// The counts and sums with one outcome more.
pub fn counted(t: Tally, o: Outcome) -> Tally
    requires { Few t × (t.inputs < 2 ^ 32) × Small o }
    ensures { result ≡ Tallies·counted t o }
{
    match o {
        Outcome::Bytes(smallest, largest) => Tally {
            inputs: t.inputs + 1,
            none: t.none,
            refused: t.refused,
            smallest: t.smallest + smallest,
            largest: t.largest + largest,
        },
        Outcome::NoWay => Tally {
            inputs: t.inputs + 1,
            none: t.none + 1,
            refused: t.refused,
            smallest: t.smallest,
            largest: t.largest,
        },
        Outcome::Refused(_) => Tally {
            inputs: t.inputs + 1,
            none: t.none,
            refused: t.refused + 1,
            smallest: t.smallest,
            largest: t.largest,
        },
    }
}
