// The entries of Claspwillow as C calls them (include/claspwillow.h). None asks anything of its caller.
//
// Each export calls the function of the same name in the library that proves it, and states its clauses again; docs/ENTRIES.md says what the numbers mean.
#![tactic(auto)]

mod accepting;
mod compiling;
mod costing;
mod differing;
mod indexing;
mod key_moving;
mod replaying;
mod scripting;
