// Where everything stands in the work memory of compile: specs/Layout.antt. There is no code here.
#![tactic(auto)]
