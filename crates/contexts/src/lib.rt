// What policies, fragments and types share: the two script contexts, and, in specs, the kinds of locks and hashes (Leaves.antt) and what is
// said of bools and of lists (Bools.antt, Lists.antt).
#![tactic(auto)]

// A script context, under the Rust's name: SegWit v0 is document 01's number 0, Tapscript its number 1.
#[derive(Clone, Copy)]
pub enum Context {
    Segwitv0,
    Tap,
}
