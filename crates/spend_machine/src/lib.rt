// Recorded spends: what an entry of a log is, its run with the recorded outcomes, and its verdict. Document 02, R-6.
//
// A theory with no code. Its definitions are in specs/ (Entries, Recorded, Verdicts; FixedOutcomes and Laws for what is proved of them; Playing for
// the inner contracts of the interpreter) and its proofs in proofs/.
#![tactic(auto)]
