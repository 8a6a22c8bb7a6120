// The search as it was before heights were asked for, which is the Rust's, and that nothing changed where no candidate over 128 arises. There is no
// code here.
//
// specs/AnyInsertion.antt has the search over any way of inserting a candidate, specs/AsBefore.antt the two ways that were meant and what is proved.
#![tactic(auto)]
