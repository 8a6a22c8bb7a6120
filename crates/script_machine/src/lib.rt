// What a fragment's script does: the words of Script, the limit-free machine, the translation of fragment trees, and demand 3.
//
// A theory with no code. Its definitions are in specs/ (Numbers, Words, Machine, Translation, Demand3, OtherBases, Merged, WorkedRuns)
// and its proofs in proofs/.
#![tactic(auto)]
