// The definition of compile and its laws. There is no code here: specs/ is to be read in the order of specs/Lib.antt.
#![tactic(auto)]
