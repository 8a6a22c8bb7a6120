// Why an entry refuses, and the number that its caller is told.
#![tactic(auto)]

ghost use Rattle.std.specs.Prelude.{◌≡◌};
ghost use Rattle.refusals.specs.Numbers.{number_of};

// A refusal, in the order of the numbers.
#[derive(Clone, Copy)]
pub enum Refusal {
    // The context is neither 0 nor 1.
    BadContext,
    // The work memory has another length.
    BadWork,
    // The policy has no record, or one breaks the form.
    BadPolicy,
    // A weight of an Or is 0.
    ZeroWeight,
    // The policy has too many records, or is too deep.
    PolicyTooLarge,
    // The search accepts a 65,535th candidate.
    NodesFull,
    // A table of the search would have 129 entries.
    TableFull,
    // The search would remember a 2,049th table.
    CacheFull,
    // One closure of casts would take a 4,097th element.
    FuelSpent,
    // A cost is a NaN or has its sign bit set.
    NotACost,
    // No tree keeps within the limits.
    LimitsExceeded,
    // The cheapest root is not safe.
    TopLevelNonSafe,
    // The output has too little room.
    OutputTooSmall,
    // The tree has no record, or one breaks the form; or a log of spends is broken.
    BadTree,
    // A record of the tree is ill-typed.
    IllTyped,
    // The tree has more than 4,096 records.
    TreeTooLarge,
    // A key or a hash is in no table.
    NoEntry,
    // A key does not fit 32 bits.
    KeyTooLarge,
    // The tree is more than 128 high.
    TreeTooTall,
    // The index is not the one that is built for the tree.
    NotItsIndex,
    // There are more than 12 variables.
    TooManyVariables,
    // The tree is not of base B.
    NotB,
    // The tree is not safe.
    NotSafe,
    // The tree is malleable.
    Malleable,
    // A fragment of the tree is not locally valid.
    LocallyInvalid,
    // The tree does not mean what the policy means.
    OtherMeaning,
}

impl Refusal {
    // The number of a refusal.
    pub fn number(self) -> u32
        ensures { result ≡ number_of self }
    {
        match self {
            Refusal::BadContext => 1,
            Refusal::BadWork => 2,
            Refusal::BadPolicy => 3,
            Refusal::ZeroWeight => 4,
            Refusal::PolicyTooLarge => 5,
            Refusal::NodesFull => 6,
            Refusal::TableFull => 7,
            Refusal::CacheFull => 8,
            Refusal::FuelSpent => 9,
            Refusal::NotACost => 10,
            Refusal::LimitsExceeded => 11,
            Refusal::TopLevelNonSafe => 12,
            Refusal::OutputTooSmall => 13,
            Refusal::BadTree => 14,
            Refusal::IllTyped => 15,
            Refusal::TreeTooLarge => 16,
            Refusal::NoEntry => 17,
            Refusal::KeyTooLarge => 18,
            Refusal::TreeTooTall => 19,
            Refusal::NotItsIndex => 20,
            Refusal::TooManyVariables => 21,
            Refusal::NotB => 22,
            Refusal::NotSafe => 23,
            Refusal::Malleable => 24,
            Refusal::LocallyInvalid => 25,
            Refusal::OtherMeaning => 26,
        }
    }
}
