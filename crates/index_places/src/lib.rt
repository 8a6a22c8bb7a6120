// Where the fragment of each record of a tree stands in its script: document 02, R-11.
//
// specs/Sizes.antt says how many bytes a fragment has, specs/Places.antt where each record stands, and specs/Laws.antt what is proved of both in
// proofs/.
#![tactic(auto)]
