// What the entry that judges a tree from elsewhere says of the trees that compile writes: a theory with no code.
//
// specs/Compiled.antt states it; proofs/Compiling.antt proves it.
#![tactic(auto)]
