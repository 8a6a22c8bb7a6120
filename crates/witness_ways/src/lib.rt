// What a spend costs, in whole bytes: the ways to satisfy a fragment tree, and the fewest and the most bytes that their witnesses have.
//
// specs/Elements.antt and specs/Ways.antt are BIP 379's satisfaction table, specs/Spends.antt says what is asked of a tree, and
// specs/Extremes.antt computes it by structure. proofs/ shows that what is computed is what is asked.
#![tactic(auto)]

// The fewest and the most bytes of the witnesses of some ways.
#[derive(Clone, Copy)]
pub struct Bytes {
    pub fewest: u64,
    pub most: u64,
}

// The extremes of the ways to satisfy a fragment, and of the ways to dissatisfy it; `None` where there is no way.
#[derive(Clone, Copy)]
pub struct Both {
    pub satisfied: Option<Bytes>,
    pub dissatisfied: Option<Bytes>,
}
