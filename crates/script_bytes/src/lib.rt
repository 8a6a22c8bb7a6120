// The script of a fragment tree in bytes: document 02, R-1.
//
// Its definitions are in specs/ (Tables, Opcodes, Encoding, ScriptOf, Written, Decoding, Lengths, WorkedScripts; Layout and Entries for the inner contracts)
// and its proofs in proofs/.
#![tactic(auto)]
