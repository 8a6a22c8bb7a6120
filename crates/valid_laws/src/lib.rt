// What compile writes is locally valid, fragment by fragment, but for False: a theory with no code.
//
// specs/CompiledValid.antt states it. proofs/Searching.antt has what every entry of every table has, whatever it is, if it is so of what enters;
// proofs/Making.antt that it is so of local validity; proofs/Compiling.antt the tree that is written.
#![tactic(auto)]
