// What is proved of the definition of compile, with no code: every candidate has the type and the figures of its tree, every table is sorted, and
// what compile writes is a well-typed tree of base B, safe and non-malleable, that passes the tree check. proofs/Steps.antt unfolds the definition
// case by case, so that code can be proved against it while it stays shut.
#![tactic(auto)]
