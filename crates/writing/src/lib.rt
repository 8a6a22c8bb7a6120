// How a fragment tree is written as records, and that reading gives the tree back. There is no code here.
//
// specs/Writing.antt has the bytes that write a tree, specs/WellFormed.antt the trees that can be written,
// specs/ReadBack.antt what is proved of writing and reading.
#![tactic(auto)]
