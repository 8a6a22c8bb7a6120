// Every type that a rule of `types` gives passes the checks of its specs/Sanity.antt, if its children do: proofs/Kept.antt has a theorem for
// each rule. There is no code here.
#![tactic(auto)]
