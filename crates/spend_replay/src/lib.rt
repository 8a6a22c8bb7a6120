// What the replay of a log of recorded spends gives: its definition, the promise of its entry, and what is proved of both. Document 02, R-6.
//
// A theory with no code. Its definitions are in specs/ (Replay; Laws for what is proved of them) and its proofs in proofs/.
#![tactic(auto)]
