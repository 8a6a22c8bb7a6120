// What policies and fragment trees mean: which of them hold where some keys, hashes and locks are given. There is no code here.
//
// specs/Meaning.antt has the meanings, specs/CompileMeans.antt that what compile writes means its policy; proofs/ shows it.
#![tactic(auto)]
