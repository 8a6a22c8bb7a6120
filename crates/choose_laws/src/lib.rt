// What is proved of the choice and the writing together: specs/Laws.antt. There is no code here.
#![tactic(auto)]
